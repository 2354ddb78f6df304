// What makes a field ready for doubling.
ghost use Rattle.std.specs.Prelude.{◌≡◌, ℕ, ◌<◌, ◌≤◌};
ghost use Rattle.field.specs.Doubled.{Rootless};

use crate::interface::Field;

// A field that can be doubled: none of its elements z has z·z = d·z + e, so that an element w with w·w = d·w + e is new.
pub trait Doubling: Field {
    ghost d: { ℕ };

    ghost e: { ℕ };

    // The coefficients d and e. The doubled order is at most 2^32, and 16 above the mark is the mark of no field that is ready.
    fn coefficients() -> (Self, Self)
        ensures d { Self.Field.code result.0 ≡ d }
        ensures e { Self.Field.code result.1 ≡ e }
        ensures rootless { Rootless Self.Field.arith d e }
        ensures order { Self.Field.arith.order ≤ 65536 }
        ensures mark { Self.Field.arith.mark < 16 };
}
