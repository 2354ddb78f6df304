// What a field gives, and the laws that it promises.
ghost use Rattle.std.specs.Prelude.{◌≡◌, ℕ, if◌then◌else◌, Some, None, nat_lt};
ghost use Rattle.std.specs.Option.{option_map};
ghost use Rattle.field.specs.Arith.{Arith, Laws, Coding};

// A finite field. An element's meaning is its code, a number below the field's order.
pub trait Field: Copy {
    // What the field does to codes.
    ghost arith: { Arith };

    ghost code: { Self → ℕ };

    // Every field keeps the laws. They are the promise of a function, so that a field that is made from another can show its own
    // by calling this.
    fn laws()
        ensures arithmetic { Laws arith }
        ensures coding { Coding arith code };

    fn zero() -> Self
        ensures { code result ≡ 0 };

    fn one() -> Self
        ensures { code result ≡ 1 };

    fn sum(self, other: Self) -> Self
        ensures { code result ≡ arith.sum (code self) (code other) };

    fn negative(self) -> Self
        ensures { code result ≡ arith.negative (code self) };

    fn product(self, other: Self) -> Self
        ensures { code result ≡ arith.product (code self) (code other) };

    // Absent for zero.
    fn inverse(self) -> Option<Self>
        ensures { option_map code result ≡ arith.inverse (code self) };

    // `to_code` and `from_code` are methods rather than `From`, which would need a law of its own to tie it to the code.
    fn to_code(self) -> u32
        ensures { result ≡ code self };

    // Absent for a number that is not below the order.
    fn from_code(number: u32) -> Option<Self>
        ensures { option_map code result ≡ (if nat_lt number arith.order then Some number else None) };

    // At most 2^32, which no `u32` holds.
    fn order() -> u64
        ensures { result ≡ arith.order };

    // The number by which lines name the field; no enum, as every field that is ready for doubling makes one more.
    fn mark() -> u32
        ensures { result ≡ arith.mark };
}
