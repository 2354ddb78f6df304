// What holds of shares, keys, seats and restoring in every field. The functions here compute nothing: each is called for its promise, which is
// drawn from the field's laws alone.
ghost use Rattle.polynomial.specs.Theorems.{SymmetricKey, OfMaster, Vanishing, Interpolates, Restores, Determines, Adding, UnseenShift, Pairing, OpenKey};

use field::interface::Field;

// Two kiosks derive one key, whatever the master; and what stands behind the master has no part in it.
pub fn symmetric_key<F: Field>()
    ensures symmetric { SymmetricKey F.Field.arith }
    ensures of_master { OfMaster F.Field.arith }
{
    F::laws();
}

// A polynomial with as many different zeros as coefficients has only zero coefficients.
pub fn vanishing<F: Field>()
    ensures { Vanishing F.Field.arith }
{
    F::laws();
}

// Through different points goes one polynomial, and the Lagrange sum gives its values, in whatever order the points come.
pub fn interpolation<F: Field>()
    ensures { Interpolates F.Field.arith }
{
    F::laws();
}

// Enough seats restore the master, and every further seat agrees with them.
pub fn restoring<F: Field>()
    ensures { Restores F.Field.arith }
{
    F::laws();
}

// Shares of t + 1 different kiosks determine the master, and codes of k different seats the draw.
pub fn determination<F: Field>()
    ensures { Determines F.Field.arith }
{
    F::laws();
}

// Adding a draw adds shares, keys and seat codes.
pub fn adding<F: Field>()
    ensures { Adding F.Field.arith }
{
    F::laws();
}

// Some draw that a pool within its bounds cannot see moves the key of an outside pair by any amount.
pub fn unseen_shift<F: Field>()
    ensures { UnseenShift F.Field.arith }
{
    F::laws();
}

// Adding a draw that a pool cannot see pairs off the draws that fit what the pool holds.
pub fn pairing<F: Field>()
    ensures { Pairing F.Field.arith }
{
    F::laws();
}

// What a pool within its bounds holds leaves every value of an outside pair's key as open as every other.
pub fn open_key<F: Field>()
    ensures { OpenKey F.Field.arith }
{
    F::laws();
}
