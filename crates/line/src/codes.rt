// The codes of a line: written behind its head, and read where they stand in the caller's text.
ghost use Rattle.std.specs.Prelude.{◌≡◌, ◌*◌, ◌≤◌, ◌++◌, length, drop};
ghost use Rattle.std.specs.List.{flat_map};
ghost use Rattle.line.specs.Digits.{eight};
ghost use Rattle.line.specs.Steps.{code_at};

use crate::digits::hex;
use crate::steps::LineText;

// Codes as a part of the text of a line, which begins at this place of the line.
#[derive(Clone, Copy, PartialEq, Eq, Debug)]
pub struct CodeText<'a> {
    pub place: usize,
    pub text: &'a [u8],
}

impl CodeText<'_> {
    // The code with this index, if the part has one there in form.
    pub fn get(&self, index: usize) -> Option<u32>
        ensures { result ≡ code_at self.now.text.now index }
    {
        if index >= self.text.len() / 8 {
            return None;
        }
        // The line's number is of no account, as the fault is dropped.
        let part = LineText {
            line: 1,
            bytes: self.text,
        };
        part.number(8 * index).ok()
    }
}

// Writes codes into the front of a buffer, eight digits each.
pub(crate) fn write_codes(codes: &[u32], buffer: &mut [u8])
    requires { 8 * length codes.now ≤ length buffer.old }
    ensures { buffer.new ≡ flat_map eight codes.now ++ drop (8 * length codes.now) buffer.old }
{
    // By an index: `chunks_exact_mut(8).zip(codes)` was tried, and the proof did not close, as nothing is known of what is written through it.
    for (i, code) in codes.iter().enumerate() {
        buffer[8 * i..8 * i + 8].copy_from_slice(&hex(*code));
    }
}
