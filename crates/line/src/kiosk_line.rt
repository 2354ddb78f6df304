// The kiosk line: a kiosk's numbers and its share, as they are printed for it.
ghost use Rattle.std.specs.Prelude.{◌≡◌, ◌^◌, ◌<◌, ◌≤◌, ◌++◌, length, take, drop, IfOk, IfErr, if◌then◌else◌, Ok, Err, nat_lt};
ghost use Rattle.line.specs.declared.refusal.Refusal.TheVariants.{BufferTooShort};
ghost use Rattle.line.specs.Faults.{unless};
ghost use Rattle.line.specs.Steps.{Found};
ghost use Rattle.line.specs.KioskLine.{share_size, line_length, kiosk_front, kiosk_line, kiosk_head, head_fault, reading, seen, ReadsBack, Exact, CutShort};

use crate::codes::{CodeText, write_codes};
use crate::digits::write_field;
use crate::number::KioskNumber;
use crate::refusal::{Cause, LineFault, Refusal};
use crate::steps::{Bounds, DEGREE, FROM_ONE, LANES, LETTER_K, LINE_FEED, LineText, TAB};

// The numbers by which a line's reader knows a field.
#[derive(Clone, Copy, PartialEq, Eq, Debug)]
pub struct FieldNumbers {
    pub mark: u32,
    pub order: u64,
}

// The numbers at the head of a kiosk line: the field's mark, the tour, t (the degree of the share's polynomials),
// m (the lanes, separate copies of the scheme) and the kiosk's own number.
#[derive(Clone, Copy, PartialEq, Eq, Debug)]
pub struct KioskHead {
    pub mark: u32,
    pub tour: u32,
    pub degree: u32,
    pub lanes: u32,
    pub number: KioskNumber,
}

// A line as it is read: its numbers, and its codes where they stand in the text.
#[derive(Clone, Copy, PartialEq, Eq, Debug)]
pub struct KioskLine<'a> {
    pub head: KioskHead,
    pub codes: CodeText<'a>,
}

// The bytes before the codes.
const HEAD: usize = 47;

// Reads a line up to the kiosk's number.
fn head(text: &LineText<'_>, over: FieldNumbers) -> Result<KioskHead, LineFault>
    ensures { result ≡ unless (head_fault text.now.line over.mark over.order text.now.bytes.now) (kiosk_head text.now.bytes.now) }
{
    text.byte(0, LETTER_K)?;
    let own = u64::from(over.mark);
    let own_mark = Bounds {
        least: own,
        below: own + 1,
        cause: Cause::OtherMark,
    };
    let mark = text.field(1, own_mark)?;
    let tour = text.field(10, FROM_ONE)?;
    let degree = text.field(19, DEGREE)?;
    let lanes = text.field(28, LANES)?;
    let kiosks = Bounds {
        below: over.order,
        ..FROM_ONE
    };
    let number = text.field(37, kiosks)?;
    Ok(KioskHead {
        mark,
        tour,
        degree,
        lanes,
        number: KioskNumber(number),
    })
}

// Reads a whole line. It stands apart from `read` because the three theorems there follow from this answer alone.
fn whole_line<'a>(text: &LineText<'a>, over: FieldNumbers) -> Result<KioskLine<'a>, LineFault>
    ensures { seen result ≡ reading text.now.line over.mark over.order text.now.bytes.now }
{
    let head = head(text, over)?;
    let size = head.share_size();
    let end_of_codes = HEAD + 8 * size;
    text.byte(HEAD - 1, TAB)?;
    text.codes(HEAD, size, over.order)?;
    text.byte(end_of_codes, LINE_FEED)?;
    text.end(end_of_codes + 1)?;
    Ok(KioskLine {
        head,
        codes: CodeText {
            place: HEAD,
            text: &text.bytes[HEAD..end_of_codes],
        },
    })
}

impl<'a> KioskLine<'a> {
    // Reads the line with this number, counted from 1, over a field.
    pub fn read(line: u32, over: FieldNumbers, text: &'a [u8]) -> Result<KioskLine<'a>, LineFault>
        ensures answer { seen result ≡ reading line over.mark over.order text.now }
        ensures exact { IfOk result (λ l. Exact over.mark over.order text.now l.head l.codes.text.now) }
        ensures found { IfErr result (λ f. Found line text.now f) }
        ensures cut_short { CutShort line over.mark over.order text.now (seen result) }
    {
        whole_line(&LineText { line, bytes: text }, over)
    }
}

impl KioskHead {
    // The codes of a share: t + 1 in each of m lanes.
    pub fn share_size(&self) -> usize
        ensures { result ≡ share_size self.now }
    {
        self.lanes as usize * (self.degree as usize + 1)
    }

    // Writes the line of these numbers and codes into the front of a buffer, and answers its length; nothing is
    // written behind it. The buffer is lent, as a device without a heap lends it.
    pub fn write(&self, codes: &[u32], buffer: &mut [u8]) -> Result<usize, Refusal>
        ensures answer { result ≡ (if nat_lt (length buffer.old) (line_length codes.now) then Err BufferTooShort else Ok (line_length codes.now)) }
        ensures after { buffer.new ≡ (if nat_lt (length buffer.old) (line_length codes.now) then buffer.old else kiosk_line self.now codes.now ++ drop (line_length codes.now) buffer.old) }
        ensures reads_back { IfOk result (λ n. ReadsBack self.now codes.now (take n buffer.new)) }
    {
        // The line's length itself may not fit its type, so it is not computed before the test.
        if buffer.len() < HEAD + 1 || (buffer.len() - (HEAD + 1)) / 8 < codes.len() {
            return Err(Refusal::BufferTooShort);
        }
        let end_of_codes = HEAD + 8 * codes.len();
        self.write_front(buffer);
        write_codes(codes, &mut buffer[HEAD..]);
        buffer[end_of_codes] = b'\n';
        Ok(end_of_codes + 1)
    }

    // Writes the bytes before the codes.
    fn write_front(&self, buffer: &mut [u8])
        requires { 47 ≤ length buffer.old }
        ensures mark_fits { self.now.mark < 2 ^ 32 }
        ensures after { buffer.new ≡ kiosk_front self.now ++ drop 47 buffer.old }
    {
        buffer[0] = b'k';
        write_field(1, self.mark, buffer);
        write_field(10, self.tour, buffer);
        write_field(19, self.degree, buffer);
        write_field(28, self.lanes, buffer);
        write_field(37, self.number.0, buffer);
        buffer[46] = b'\t';
    }
}
