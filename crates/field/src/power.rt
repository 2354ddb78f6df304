// Powers, under any product that is associative and has a one.
ghost use Rattle.std.specs.Prelude.{◌≡◌, ℕ, ◌<◌};
ghost use Rattle.field.specs.Arith.{power};
ghost use Rattle.field.specs.Product.{Monoid};

// What can be multiplied. A value stands for a number below a bound, and the product is one of such numbers. It is a trait of its own and
// not `Field`: `inverse`, without which nothing is a field, is such a power.
pub(crate) trait Multiply: Copy {
    ghost bound: { ℕ };

    ghost number: { Self → ℕ };

    ghost product: { ℕ → ℕ → ℕ };

    // As with fields, the laws are the promise of a function.
    fn laws()
        ensures below { (x : Self) → number x < bound }
        ensures monoid { Monoid product bound };

    fn unit() -> Self
        ensures { number result ≡ 1 };

    fn times(self, other: Self) -> Self
        ensures { number result ≡ product (number self) (number other) };
}

// The power of x, by halving the exponent, which is no secret: a factor for each of its bits that is 1, the lowest first. That bit stands
// before the loop, so that no square is worked out that nothing needs.
pub(crate) fn power<M: Multiply>(x: M, exponent: u32) -> M
    ensures { M.number result ≡ power M.product (M.number x) exponent }
{
    M::laws();
    let mut power = if exponent % 2 == 1 { x } else { M::unit() };
    let mut square = x;
    let mut rest = exponent / 2;
    while rest > 0 {
        square = square.times(square);
        if rest % 2 == 1 {
            power = power.times(square);
        }
        rest /= 2;
    }
    power
}
