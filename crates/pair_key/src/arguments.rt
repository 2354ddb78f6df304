// Kiosk numbers as the arguments have them.
ghost use Rattle.std.specs.Prelude.{◌≡◌};
ghost use Rattle.pair_key.specs.Arguments.{base_ten};

// The number that digits in base ten write. What is too large for 32 bits counts as the largest number of 32 bits, which lies beyond the
// order of every field here, as any larger number does. `parse` would take a leading plus, and refuse what is too large.
pub fn base_ten(text: &[u8]) -> Option<u32>
    ensures { result ≡ base_ten text.now }
{
    if text.is_empty() {
        return None;
    }
    let mut number: u32 = 0;
    for byte in text {
        let digit = char::from(*byte).to_digit(10)?;
        number = number.saturating_mul(10).saturating_add(digit);
    }
    Some(number)
}
