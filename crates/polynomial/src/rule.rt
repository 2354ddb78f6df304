// A rule for the coefficients of a polynomial.
ghost use Rattle.std.specs.Prelude.{ℕ, Option};

// What answers the coefficient of any power, or that there is none.
pub trait Rule<F> {
    // The answers that may be given for a power.
    ghost answers: { Self → ℕ → Option F → Type 0 };

    fn coefficient(&self, power: usize) -> Option<F>
        ensures { answers self.now power result };
}
