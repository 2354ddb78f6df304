// Polynomials over any field, and what the scheme makes of them.
#![tactic(auto)]

ghost use Rattle.std.specs.Prelude.{◌≡◌, ℕ, ◌<◌, List, ◌∷◌, map};
ghost use Rattle.std.specs.List.{AllByRecursion};
ghost use Rattle.polynomial.specs.Polynomial.{evaluation, Evaluates};

use field::interface::Field;
use rule::Rule;

pub mod interpolation;
pub mod rule;
pub mod seat;
pub mod share;
pub mod theorems;

// Horner's rule: from the value at a point of the polynomial with the higher coefficients, its value with one more coefficient below
// them. From zero on, over all coefficients from the highest down, this evaluates a polynomial.
pub fn horner<F: Field>(value: F, point: F, coefficient: F) -> F
    ensures value { F.Field.code result ≡ F.Field.arith.sum (F.Field.arith.product (F.Field.code value) (F.Field.code point)) (F.Field.code coefficient) }
    ensures evaluates { (higher : List ℕ) → AllByRecursion (λ c. c < F.Field.arith.order) higher → F.Field.code value ≡ evaluation F.Field.arith higher (F.Field.code point) → F.Field.code result ≡ evaluation F.Field.arith (F.Field.code coefficient ∷ higher) (F.Field.code point) }
{
    F::laws();
    value.product(point).sum(coefficient)
}

// The value at a point, by Horner's rule, of the polynomial with `count` coefficients, of which `coefficient` answers that of each power. Absent only
// where it answers none for one of them.
pub(crate) fn horner_loop<F: Field, C: Fn(usize) -> Option<F>>(
    count: usize,
    coefficient: C,
    point: F,
) -> Option<F>
    requires { (power : ℕ) → power < count → C.pre coefficient power }
    ensures { Evaluates F.Field.arith F.Field.code (C.post coefficient) count (F.Field.code point) result }
{
    F::laws();
    let mut value = F::zero();
    for power in (0..count).rev() {
        let next = coefficient(power)?;
        value = horner(value, point, next);
    }
    Some(value)
}

// The value at a point of the polynomial with `count` coefficients, which a rule answers. Absent only where it answers none for one of them.
pub fn evaluate_by<F: Field, R: Rule<F>>(count: usize, rule: &R, point: F) -> Option<F>
    ensures { Evaluates F.Field.arith F.Field.code (R.answers rule.now) count (F.Field.code point) result }
{
    horner_loop(count, |power| rule.coefficient(power), point)
}

// The value at a point of the polynomial with these coefficients, that of the power 0 first.
pub fn evaluate<F: Field>(coefficients: &[F], point: F) -> F
    ensures { F.Field.code result ≡ evaluation F.Field.arith (map F.Field.code coefficients.now) (F.Field.code point) }
{
    F::laws();
    // By a fold of its own, as `evaluate_by` would answer an `Option` that is never absent.
    coefficients.iter().rev().fold(
        F::zero(),
        |value, coefficient| horner(value, point, *coefficient),
    )
}
