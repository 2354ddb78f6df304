// Numbers in lines: eight lower-case hex digits, the highest first.
ghost use Rattle.std.specs.Prelude.{◌≡◌, ◌+◌, ◌^◌, ◌<◌, ◌≤◌, ◌∷◌, ◌++◌, length, take, drop};
ghost use Rattle.line.specs.Digits.{digit, digit_value, eight};

use std::array;

// What the letters of the digits from 10 to 15 lie above the byte that would come after `9`.
const GAP: u8 = b'a' - (b'9' + 1);

// The digit that a byte writes, if it writes one. Digits of codes are secret, so no branch tells a letter from a numeral.
pub(crate) fn hex_digit(byte: u8) -> Option<u32>
    ensures { result ≡ digit_value byte }
{
    let numeral = (byte >= b'0') & (byte <= b'9');
    let letter = (byte >= b'a') & (byte <= b'f');
    (numeral | letter).then(|| u32::from(byte - b'0' - GAP * u8::from(letter)))
}

// The byte that writes a digit below 16, with no branch on it.
fn digit_byte(value: u8) -> u8
    requires { value < 16 }
    ensures { result ≡ digit value }
{
    b'0' + value + GAP * u8::from(value > 9)
}

// The bytes of eight digits.
pub type Digits = [u8; 8];

// The digits of a number.
pub fn hex(number: u32) -> Digits
    ensures { result ≡ eight number }
{
    // By `as`: `try_from` would branch on a digit.
    array::from_fn(|i| digit_byte(((number >> (28 - 4 * i)) % 16) as u8))
}

// Writes a tab and a number from a place of a buffer on. That the number fits its type is told for a caller that has it
// behind a reference.
pub(crate) fn write_field(place: usize, number: u32, buffer: &mut [u8])
    requires { place + 9 ≤ length buffer.old }
    ensures fits { number < 2 ^ 32 }
    ensures after { buffer.new ≡ take place buffer.old ++ (9 ∷ eight number ++ drop (place + 9) buffer.old) }
{
    buffer[place] = b'\t';
    buffer[place + 1..place + 9].copy_from_slice(&hex(number));
}
