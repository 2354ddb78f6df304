// What can be wrong with a line, and every refusal that a call of the product can answer.
ghost use Rattle.std.specs.Prelude.{◌≡◌};
ghost use Rattle.line.specs.Faults.{cause_number, refusal_number, no_digit};
ghost use Rattle.line.specs.declared.refusal.Refusal.TheVariants.{OutOfForm};

use std::error::Error;
use std::fmt;

// Why a text is not a line.
#[derive(Clone, Copy, PartialEq, Eq, Debug)]
pub enum Cause {
    WrongLetter,
    NoTab,
    NoHexDigit,
    NoLineFeed,
    OutOfRange,
    OtherMark,
    BytesAfter,
}

impl Cause {
    // The number by which a cause is known, from 1 to 7. People and pages name it so; the code goes by the cause itself.
    pub fn number(self) -> u32
        ensures { result ≡ cause_number self }
    {
        match self {
            Cause::WrongLetter => 1,
            Cause::NoTab => 2,
            Cause::NoHexDigit => 3,
            Cause::NoLineFeed => 4,
            Cause::OutOfRange => 5,
            Cause::OtherMark => 6,
            Cause::BytesAfter => 7,
        }
    }
}

impl fmt::Display for Cause {
    fn fmt<W: fmt::Write>(&self, f: &mut fmt::Formatter<W>) -> fmt::Result {
        let words = match self {
            Cause::WrongLetter => "wrong letter",
            Cause::NoTab => "no tab",
            Cause::NoHexDigit => "no hex digit",
            Cause::NoLineFeed => "no line feed",
            Cause::OutOfRange => "value outside its range",
            Cause::OtherMark => "another field's mark",
            Cause::BytesAfter => "bytes after the line",
        };
        write!(f, "{words}")
    }
}

// The digit reader's fault: at this place of this line no hex digit stands.
#[derive(Clone, Copy, PartialEq, Eq, Debug)]
pub struct DigitFault {
    pub line: u32,
    pub place: usize,
}

// The line reader's fault: which line, counted from 1; which byte of it, counted from 0; and why.
#[derive(Clone, Copy, PartialEq, Eq, Debug)]
pub struct LineFault {
    pub line: u32,
    pub place: usize,
    pub cause: Cause,
}

impl From<DigitFault> for LineFault {
    ghost from_gives = { λ d r. r ≡ no_digit d };

    fn from(fault: DigitFault) -> LineFault {
        LineFault {
            line: fault.line,
            place: fault.place,
            cause: Cause::NoHexDigit,
        }
    }
}

impl fmt::Display for LineFault {
    fn fmt<W: fmt::Write>(&self, f: &mut fmt::Formatter<W>) -> fmt::Result {
        let line = self.line;
        let place = self.place;
        let cause = self.cause;
        write!(f, "line {line}, byte {place}: {cause}")
    }
}

impl Error for LineFault {}

// Every refusal, in the order of its numbers from 1 to 17. A case holds what the refusal adds to its number.
#[derive(Clone, Copy, PartialEq, Eq, Debug)]
pub enum Refusal {
    // The station's phase does not take the call.
    WrongPhase,
    // Tour, t, m, k or n outside its range.
    NumbersOutOfRange,
    // A draw that has not k·m·T codes.
    DrawLength,
    // A code of the draw that is not below the field's order; the index of the first.
    DrawCode { index: usize },
    // Scratch memory shorter than m·T codes.
    ScratchTooShort,
    // A kiosk number that is 0 or not below the field's order.
    NoSuchKiosk,
    // A new kiosk where the roll has all its entries.
    RollFull,
    // A buffer too short for its line, or for the codes of a key.
    BufferTooShort,
    // No room in the journal.
    JournalFull,
    // A seat number that is 0 or above the number of seats.
    NoSuchSeat,
    // Fewer seats dealt than restore the table.
    TooFewSeatsDealt,
    // A line out of its form.
    OutOfForm(LineFault),
    // A line of another tour, t, m or k, or of a seat above the number of seats.
    OtherTour { line: u32 },
    // Fewer lines than restore the table.
    TooFewLines,
    // A line of a seat that an earlier line has.
    SeatRepeated { line: u32 },
    // The first line that disagrees with those before it.
    Disagrees { line: u32 },
    // The other kiosk's number is the line's own.
    OwnNumber,
}

impl Refusal {
    // The number by which a refusal is known, from 1 to 17. People and pages name it so; the code goes by the refusal itself.
    pub fn number(self) -> u32
        ensures { result ≡ refusal_number self }
    {
        match self {
            Refusal::WrongPhase => 1,
            Refusal::NumbersOutOfRange => 2,
            Refusal::DrawLength => 3,
            Refusal::DrawCode { index: _ } => 4,
            Refusal::ScratchTooShort => 5,
            Refusal::NoSuchKiosk => 6,
            Refusal::RollFull => 7,
            Refusal::BufferTooShort => 8,
            Refusal::JournalFull => 9,
            Refusal::NoSuchSeat => 10,
            Refusal::TooFewSeatsDealt => 11,
            Refusal::OutOfForm(_) => 12,
            Refusal::OtherTour { line: _ } => 13,
            Refusal::TooFewLines => 14,
            Refusal::SeatRepeated { line: _ } => 15,
            Refusal::Disagrees { line: _ } => 16,
            Refusal::OwnNumber => 17,
        }
    }
}

impl From<LineFault> for Refusal {
    ghost from_gives = { λ l r. r ≡ OutOfForm l };

    fn from(fault: LineFault) -> Refusal {
        Refusal::OutOfForm(fault)
    }
}

// The number, and behind a colon what the refusal adds, if it adds anything.
impl fmt::Display for Refusal {
    fn fmt<W: fmt::Write>(&self, f: &mut fmt::Formatter<W>) -> fmt::Result {
        write!(f, "{}", self.number())?;
        match self {
            Refusal::DrawCode { index } => write!(f, ": code {index}"),
            Refusal::OutOfForm(fault) => write!(f, ": {fault}"),
            Refusal::OtherTour { line }
            | Refusal::SeatRepeated { line }
            | Refusal::Disagrees { line } => write!(f, ": line {line}"),
            _ => Ok(()),
        }
    }
}

impl Error for Refusal {}
