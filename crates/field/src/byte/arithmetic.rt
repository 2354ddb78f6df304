// The arithmetic of bytes, with no branch and no table index that depends on an operand.
ghost use Rattle.std.specs.Prelude.{◌≡◌, ◌*◌, ◌/◌, ◌%◌, bit_xor};
ghost use Rattle.field.specs.Bytes.{byte_arith, byte_product, carryless, Congruent};

use super::Byte;
use crate::interface::Field;
use crate::power::{Multiply, power};

const ORDER: u64 = 256;

const MARK: u32 = 1;

// x^8 is x^4 + x^3 + x + 1 modulo the field's polynomial.
const X_TO_8: u8 = 0x1b;

// The product of a byte and x: every coefficient one power up, and where x^8 comes up, what it is modulo the polynomial.
fn times_x(a: u8) -> u8
    ensures { result ≡ bit_xor (a * 2 % 256) (0x1b * (a / 128)) }
{
    (a << 1) ^ (X_TO_8 * (a >> 7))
}

impl Multiply for Byte {
    ghost bound = { 256 };

    ghost number = { λ x. x.value };

    ghost product = { byte_product };

    fn laws() {}

    fn unit() -> Byte {
        Byte { value: 1 }
    }

    // The product, by shift and add: a multiplication by a bit stands where a branch on it would.
    fn times(self, other: Byte) -> Byte
        ensures value { result.value ≡ byte_product self.value other.value }
        ensures congruent { Congruent (carryless 8 self.value other.value) result.value }
    {
        let mut multiple = self.value;
        let mut rest = other.value;
        let mut sum = 0;
        for _ in 0..8u32 {
            sum ^= (rest % 2) * multiple;
            multiple = times_x(multiple);
            rest /= 2;
        }
        Byte { value: sum }
    }
}

impl Field for Byte {
    ghost arith = { byte_arith };

    ghost code = { λ x. x.value };

    fn laws() {}

    fn zero() -> Byte {
        Byte { value: 0 }
    }

    fn one() -> Byte {
        Byte::unit()
    }

    fn sum(self, other: Byte) -> Byte {
        Byte {
            value: self.value ^ other.value,
        }
    }

    fn negative(self) -> Byte {
        self
    }

    // Besides what every field promises: the product is that of the polynomials, but for a multiple of the modulus.
    fn product(self, other: Byte) -> Byte
        ensures value { result.value ≡ byte_product self.value other.value }
        ensures congruent { Congruent (carryless 8 self.value other.value) result.value }
    {
        self.times(other)
    }

    // Zero alone has no inverse; its power is computed all the same.
    fn inverse(self) -> Option<Byte> {
        let inverse = power(self, 254);
        (self.value != 0).then_some(inverse)
    }

    fn to_code(self) -> u32 {
        u32::from(self.value)
    }

    fn from_code(number: u32) -> Option<Byte> {
        let value = u8::try_from(number).ok()?;
        Some(Byte { value })
    }

    fn order() -> u64 {
        ORDER
    }

    fn mark() -> u32 {
        MARK
    }
}
