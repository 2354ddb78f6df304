// The arithmetic of the doubled field over any field that is ready for it.
ghost use Rattle.std.specs.Prelude.{◌≡◌, ◌≤◌};
ghost use Rattle.field.specs.Arith.{Laws, Coding};
ghost use Rattle.field.specs.Doubled.{low, high, norm, doubled, doubled_code, Extends};

use super::Doubled;
use crate::doubling::Doubling;
use crate::interface::Field;

// What the mark of a doubled field is above that of the lower one.
const MARK_ABOVE: u32 = 16;

// The order of the lower field, which is small enough for its square to be an order. `laws` and `coefficients` are called for their promises.
fn lower_order<F: Doubling>() -> u32
    ensures value { result ≡ F.Field.arith.order }
    ensures bounds { (2 ≤ F.Field.arith.order) × (F.Field.arith.order ≤ 65536) }
{
    F::laws();
    let _ = F::coefficients();
    u32::try_from(F::order()).unwrap()
}

impl<F: Doubling> Doubled<F> {
    // The parts a and b of a + b·w: they are those of its code.
    fn parts(self) -> (F, F)
        ensures low { F.Field.code result.0 ≡ low F.Field.arith (doubled_code F.Field.arith F.Field.code self) }
        ensures high { F.Field.code result.1 ≡ high F.Field.arith (doubled_code F.Field.arith F.Field.code self) }
    {
        F::laws();
        (self.low, self.high)
    }
}

// The norm a·a + a·b·d - b·b·e of a + b·w.
fn norm<F: Doubling>(a: F, b: F) -> F
    ensures { F.Field.code result ≡ norm F.Field.arith F.Doubling.d F.Doubling.e (F.Field.code a) (F.Field.code b) }
{
    let (d, e) = F::coefficients();
    a.product(a)
        .sum(a.product(b).product(d))
        .sum(b.product(b).product(e).negative())
}

impl<F: Doubling> Field for Doubled<F> {
    ghost arith = { doubled F.Field.arith F.Doubling.d F.Doubling.e };

    ghost code = { doubled_code F.Field.arith F.Field.code };

    // Besides what every field promises: it is the lower field extended by w.
    fn laws()
        ensures arithmetic { Laws (doubled F.Field.arith F.Doubling.d F.Doubling.e) }
        ensures coding { Coding (doubled F.Field.arith F.Doubling.d F.Doubling.e) (doubled_code F.Field.arith F.Field.code) }
        ensures extends { Extends F.Field.arith F.Doubling.d F.Doubling.e }
    {
        F::laws();
        let _ = F::coefficients();
    }

    fn zero() -> Doubled<F> {
        Doubled {
            low: F::zero(),
            high: F::zero(),
        }
    }

    fn one() -> Doubled<F> {
        Doubled {
            low: F::one(),
            high: F::zero(),
        }
    }

    fn sum(self, other: Doubled<F>) -> Doubled<F> {
        let (a, b) = self.parts();
        let (f, g) = other.parts();
        Doubled {
            low: a.sum(f),
            high: b.sum(g),
        }
    }

    fn negative(self) -> Doubled<F> {
        let (a, b) = self.parts();
        Doubled {
            low: a.negative(),
            high: b.negative(),
        }
    }

    fn product(self, other: Doubled<F>) -> Doubled<F> {
        let (a, b) = self.parts();
        let (f, g) = other.parts();
        let (d, e) = F::coefficients();
        let bg = b.product(g);
        Doubled {
            low: a.product(f).sum(bg.product(e)),
            high: a.product(g).sum(b.product(f)).sum(bg.product(d)),
        }
    }

    fn inverse(self) -> Option<Doubled<F>> {
        let (a, b) = self.parts();
        let (d, _) = F::coefficients();
        let n = norm(a, b).inverse()?;
        Some(Doubled {
            low: a.sum(b.product(d)).product(n),
            high: b.product(n).negative(),
        })
    }

    fn to_code(self) -> u32 {
        F::laws();
        self.low.to_code() + lower_order::<F>() * self.high.to_code()
    }

    fn from_code(number: u32) -> Option<Doubled<F>> {
        let order = lower_order::<F>();
        let low = F::from_code(number % order)?;
        let high = F::from_code(number / order)?;
        Some(Doubled { low, high })
    }

    fn order() -> u64 {
        let order = u64::from(lower_order::<F>());
        order * order
    }

    fn mark() -> u32 {
        let _ = F::coefficients();
        F::mark() + MARK_ABOVE
    }
}
