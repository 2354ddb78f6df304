// The arithmetic of residues modulo 257.
ghost use Rattle.std.specs.Prelude.{◌≡◌, ◌%◌};
ghost use Rattle.field.specs.Residues.{residue_arith, residue_product};

use super::Residue;
use crate::interface::Field;
use crate::power::{Multiply, power};

const ORDER: u32 = 257;

const MARK: u32 = 2;

// The residue of a number.
fn residue(number: u32) -> Residue
    ensures { result.value ≡ number % 257 }
{
    // By `as`: `try_from` would branch on the number.
    Residue {
        value: (number % ORDER) as u16,
    }
}

impl Multiply for Residue {
    ghost bound = { 257 };

    ghost number = { λ x. x.value };

    ghost product = { residue_product };

    fn laws() {}

    fn unit() -> Residue {
        Residue { value: 1 }
    }

    fn times(self, other: Residue) -> Residue {
        residue(u32::from(self.value) * u32::from(other.value))
    }
}

impl Field for Residue {
    ghost arith = { residue_arith };

    ghost code = { λ x. x.value };

    fn laws() {}

    fn zero() -> Residue {
        Residue { value: 0 }
    }

    fn one() -> Residue {
        Residue::unit()
    }

    fn sum(self, other: Residue) -> Residue {
        residue(u32::from(self.value) + u32::from(other.value))
    }

    fn negative(self) -> Residue {
        residue(ORDER - u32::from(self.value))
    }

    fn product(self, other: Residue) -> Residue {
        self.times(other)
    }

    // Zero alone has no inverse; its power is computed all the same.
    fn inverse(self) -> Option<Residue> {
        let inverse = power(self, 255);
        (self.value != 0).then_some(inverse)
    }

    fn to_code(self) -> u32 {
        u32::from(self.value)
    }

    fn from_code(number: u32) -> Option<Residue> {
        (number < ORDER).then(|| residue(number))
    }

    fn order() -> u64 {
        u64::from(ORDER)
    }

    fn mark() -> u32 {
        MARK
    }
}
