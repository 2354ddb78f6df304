// The steps of reading a line from left to right; each answers the fault that it finds.
ghost use Rattle.std.specs.Prelude.{◌≡◌, ◌+◌, ◌*◌, ◌^◌, ◌<◌};
ghost use Rattle.line.specs.Digits.{number_at, digits_fault};
ghost use Rattle.line.specs.Faults.{unless};
ghost use Rattle.line.specs.Steps.{fault, byte_fault, end_fault, value_fault, field_fault, codes_fault};

use crate::digits::hex_digit;
use crate::refusal::{Cause, DigitFault, LineFault};

// The range of a value, its least and the first beyond it, and the cause to name outside it.
#[derive(Clone, Copy, PartialEq, Eq, Debug)]
pub struct Bounds {
    pub least: u64,
    pub below: u64,
    pub cause: Cause,
}

// Any number but 0, as the tour is.
pub(crate) const FROM_ONE: Bounds = Bounds {
    least: 1,
    below: 1 << 32,
    cause: Cause::OutOfRange,
};

// t, the degree of the share's polynomials.
pub(crate) const DEGREE: Bounds = Bounds {
    below: 10,
    ..FROM_ONE
};

// m, the number of lanes.
pub(crate) const LANES: Bounds = Bounds {
    below: 17,
    ..FROM_ONE
};

// A byte that every line has at some place, and the cause to name where it is missing.
#[derive(Clone, Copy)]
pub(crate) struct FixedByte {
    pub byte: u8,
    pub cause: Cause,
    ghost set: { 0 < byte },
}

pub(crate) const LETTER_K: FixedByte = FixedByte {
    byte: b'k',
    cause: Cause::WrongLetter,
};

pub(crate) const TAB: FixedByte = FixedByte {
    byte: b'\t',
    cause: Cause::NoTab,
};

pub(crate) const LINE_FEED: FixedByte = FixedByte {
    byte: b'\n',
    cause: Cause::NoLineFeed,
};

// The bytes that are read as a line, and the number of that line, which each fault names.
#[derive(Clone, Copy)]
pub(crate) struct LineText<'a> {
    pub line: u32,
    pub bytes: &'a [u8],
}

// A place is a plain `usize`: each step asks that its own end fits one, which is another bound for each.
impl LineText<'_> {
    // The fault at a place.
    fn fault(&self, place: usize, cause: Cause) -> LineFault
        ensures { result ≡ fault self.now.line place cause }
    {
        LineFault {
            line: self.line,
            place,
            cause,
        }
    }

    // One byte.
    pub(crate) fn byte(&self, place: usize, wanted: FixedByte) -> Result<(), LineFault>
        ensures { result ≡ unless (byte_fault self.now.line self.now.bytes.now place wanted.byte wanted.cause) tt }
    {
        if self.bytes.get(place) == Some(&wanted.byte) {
            Ok(())
        } else {
            Err(self.fault(place, wanted.cause))
        }
    }

    // The text's end.
    pub(crate) fn end(&self, place: usize) -> Result<(), LineFault>
        ensures { result ≡ unless (end_fault self.now.line self.now.bytes.now place) tt }
    {
        if place < self.bytes.len() {
            Err(self.fault(place, Cause::BytesAfter))
        } else {
            Ok(())
        }
    }

    // The number in the eight bytes from a place on.
    pub(crate) fn number(&self, place: usize) -> Result<u32, DigitFault>
        requires { place + 8 < 2 ^ 64 }
        ensures { result ≡ unless (digits_fault self.now.line self.now.bytes.now place) (number_at self.now.bytes.now place) }
    {
        let mut number = 0;
        // By its place, since a fault names the first that has no digit, be it beyond the text's end.
        for at in place..place + 8 {
            let Some(digit) = self.bytes.get(at).and_then(|byte| hex_digit(*byte)) else {
                return Err(DigitFault {
                    line: self.line,
                    place: at,
                });
            };
            number = number * 16 + digit;
        }
        Ok(number)
    }

    // Eight digits, of a value in its range.
    pub(crate) fn value(&self, place: usize, bounds: Bounds) -> Result<u32, LineFault>
        requires { place + 8 < 2 ^ 64 }
        ensures { result ≡ unless (value_fault self.now.line self.now.bytes.now place bounds) (number_at self.now.bytes.now place) }
    {
        let number = self.number(place)?;
        let wide = u64::from(number);
        // By plain comparisons: `contains` would ask of a code, which is secret, whether it is 0.
        if bounds.least <= wide && wide < bounds.below {
            Ok(number)
        } else {
            Err(self.fault(place, bounds.cause))
        }
    }

    // A tab, then a value.
    pub(crate) fn field(&self, place: usize, bounds: Bounds) -> Result<u32, LineFault>
        requires { place + 9 < 2 ^ 64 }
        ensures { result ≡ unless (field_fault self.now.line self.now.bytes.now place bounds) (number_at self.now.bytes.now (place + 1)) }
    {
        self.byte(place, TAB)?;
        self.value(place + 1, bounds)
    }

    // Codes below the order, unparted.
    pub(crate) fn codes(&self, place: usize, count: usize, order: u64) -> Result<(), LineFault>
        requires { place + 8 * count < 2 ^ 64 }
        ensures { result ≡ unless (codes_fault self.now.line self.now.bytes.now place count order) tt }
    {
        let bounds = Bounds {
            least: 0,
            below: order,
            ..FROM_ONE
        };
        // Place by place, as a fault names one.
        for at in (place..place + 8 * count).step_by(8) {
            self.value(at, bounds)?;
        }
        Ok(())
    }
}
