// One code of a custodian's seat, from the table.
ghost use Rattle.std.specs.Prelude.{◌≡◌};
ghost use Rattle.polynomial.specs.Seat.{seat_answer};

use crate::horner_loop;
use field::interface::Field;

// The code of a seat at a place of the master, which has `size` codes, where `threshold` seats restore it. Absent where the place is beyond the
// master, the table ends before the last block does, or one of the numbers that the code is made from is no code.
pub fn seat_code<F: Field>(
    table: &[u32],
    size: usize,
    threshold: u32,
    place: usize,
    seat: F,
) -> Option<u32>
    ensures { result ≡ seat_answer F.Field.arith size threshold table.now (F.Field.code seat) place }
{
    let blocks = threshold as usize;
    if place >= size || blocks.checked_mul(size)? > table.len() {
        return None;
    }
    horner_loop(
        blocks,
        |block| F::from_code(table[block * size + place]),
        seat,
    )
    .map(F::to_code)
}
