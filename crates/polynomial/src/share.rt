// One code of a kiosk's share, from the table.
ghost use Rattle.std.specs.Prelude.{◌≡◌, suc, ◌*◌, ◌<◌, ◌≤◌, min, max, length, take, drop, MatchOption, slice_index};
ghost use Rattle.polynomial.specs.Share.{share_answer};
ghost use Rattle.polynomial.specs.Table.{lane_size, place};

use crate::horner_loop;
use field::interface::Field;

// The number of codes in one lane of a table of this degree.
pub fn lane_size(degree: u32) -> usize
    ensures { result ≡ lane_size degree }
{
    let t = degree as usize;
    t * (t + 1) / 2 + (t + 1)
}

// The codes of a lane of a table: one half of a symmetric square of coefficients, row behind row.
#[derive(Drop)]
struct Lane<'a> {
    degree: u32,
    codes: &'a [u32],
    ghost whole: { length codes.now ≡ lane_size degree },
}

impl<'a> Lane<'a> {
    // The lane with this index, if the table does not end before it does.
    fn of(table: &'a [u32], degree: u32, lane: u32) -> Option<Lane<'a>>
        ensures { MatchOption result (length table.now < suc lane * lane_size degree) (λ l. (suc lane * lane_size degree ≤ length table.now) × (l.degree ≡ degree) × (l.codes.now ≡ take (lane_size degree) (drop (lane * lane_size degree) table.now))) }
    {
        let size = lane_size(degree);
        let start = size.checked_mul(lane as usize)?;
        let codes = table.get(start..start.checked_add(size)?)?;
        Some(Lane { degree, codes })
    }

    // The coefficient a(i,j). Only the half with i at most j is kept, and a(j,i) means a(i,j).
    fn coefficient(&self, i: usize, j: usize) -> u32
        requires i { i ≤ self.now.degree }
        requires j { j ≤ self.now.degree }
        ensures { result ≡ slice_index self.now.codes.now (place self.now.degree (min i j) (max i j)) }
    {
        let row = i.min(j);
        let column = i.max(j);
        let row_start = row * (self.degree as usize + 1) - row * row.saturating_sub(1) / 2;
        self.codes[row_start + (column - row)]
    }
}

// The code g(kiosk, j) of a lane of the kiosk's share. Absent where j is beyond the degree, the table ends before the lane does, or one of
// the numbers that the code is made from is no code.
pub fn share_code<F: Field>(table: &[u32], degree: u32, lane: u32, j: u32, kiosk: F) -> Option<u32>
    ensures { result ≡ share_answer F.Field.arith degree table.now (F.Field.code kiosk) lane j }
{
    if j > degree {
        return None;
    }
    let lane = Lane::of(table, degree, lane)?;
    horner_loop(
        degree as usize + 1,
        |i| F::from_code(lane.coefficient(i, j as usize)),
        kiosk,
    )
    .map(F::to_code)
}
