// The kiosk routine: from its own line and another kiosk's number, a kiosk works out the key that the two share.
#![tactic(auto)]

ghost use Rattle.std.specs.Prelude.{◌≡◌, ◌+◌, ◌*◌, ◌<◌, ◌≤◌, ◌||◌, ◌++◌, length, take, drop, if◌then◌else◌, Some, None, EachIndex, nat_eq, nat_le, slice_index};
ghost use Rattle.std.specs.Option.{option_map};
ghost use Rattle.polynomial.specs.PairKey.{pair_key};
ghost use Rattle.polynomial.specs.Polynomial.{evaluation};
ghost use Rattle.line.specs.KioskLine.{share_size};
ghost use Rattle.line.specs.Steps.{codes_in, Readable};
ghost use Rattle.kiosk.specs.Derivation.{answer, left_in};

use field::interface::Field;
use line::codes::CodeText;
use line::kiosk_line::{FieldNumbers, KioskLine};
use line::number::KioskNumber;
use line::refusal::Refusal;
use polynomial::horner;
use std::marker::PhantomData;

// The numbers by which a line's reader knows this field.
pub fn field_numbers<F: Field>() -> FieldNumbers
    ensures mark { result.mark ≡ F.Field.arith.mark }
    ensures order { result.order ≡ F.Field.arith.order }
{
    FieldNumbers {
        mark: F::mark(),
        order: F::order(),
    }
}

// The element that a kiosk number is the code of, if it is one.
fn point<F: Field>(number: KioskNumber) -> Option<F>
    ensures { option_map F.Field.code result ≡ (if nat_eq number.0 0 || nat_le F.Field.arith.order number.0 then None else Some number.0) }
{
    if number.0 == 0 {
        return None;
    }
    F::from_code(number.0)
}

// The share that a line holds, as it was read over a field.
#[derive(Drop)]
struct Share<'a, F: Field> {
    line: KioskLine<'a>,
    field: PhantomData<F>,
    ghost readable: { Readable line.codes.text.now },
    ghost codes_below: { EachIndex (codes_in line.codes.text.now) (λ i. slice_index (codes_in line.codes.text.now) i < F.Field.arith.order) },
    ghost count: { length (codes_in line.codes.text.now) ≡ share_size line.head },
    ghost most: { share_size line.head ≤ 160 },
}

impl<F: Field> Share<'_, F> {
    // The element of the code with this index.
    fn element(&self, index: usize) -> F
        requires { index < length (codes_in self.now.line.codes.text.now) }
        ensures { F.Field.code result ≡ slice_index (codes_in self.now.line.codes.text.now) index }
    {
        let code = self.line.codes.get(index).unwrap();
        F::from_code(code).unwrap()
    }

    // The element of the key's code in this lane: the value, at the other kiosk's number, of the polynomial that has the lane's codes for its coefficients.
    fn key_code(&self, lane: usize, point: F) -> F
        requires { lane < self.now.line.head.lanes }
        ensures { F.Field.code result ≡ evaluation F.Field.arith (take (self.now.line.head.degree + 1) (drop (lane * (self.now.line.head.degree + 1)) (codes_in self.now.line.codes.text.now))) (F.Field.code point) }
    {
        F::laws();
        let width = self.line.head.degree as usize + 1;
        // By a fold of its own: a rule would have to answer any power, and a code is read here only where it is known to stand.
        (0..width).rev().fold(
            F::zero(),
            |value, j| horner(value, point, self.element(lane * width + j)),
        )
    }

    // Writes the key that is shared with the kiosk of this number into the first places of a buffer.
    fn write_key(&self, point: F, key: &mut [u32])
        requires { self.now.line.head.lanes ≤ length key.old }
        ensures { key.new ≡ pair_key F.Field.arith self.now.line.head.degree self.now.line.head.lanes (codes_in self.now.line.codes.text.now) (F.Field.code point) ++ drop self.now.line.head.lanes key.old }
    {
        let lanes = self.line.head.lanes as usize;
        for (lane, code) in key[..lanes].iter_mut().enumerate() {
            *code = self.key_code(lane, point).to_code();
        }
    }
}

// Works out the key that the kiosk of this line shares with another kiosk. Answers the number of codes in the key, which it writes into
// the first places of the buffer; if it refuses, nothing is written. The buffer is lent, and its count answered, as a kiosk has no heap.
pub fn derive<F: Field>(text: &[u8], other: KioskNumber, key: &mut [u32]) -> Result<usize, Refusal>
    ensures answer { result ≡ answer F.Field.arith text.now other.0 key.old }
    ensures key { key.new ≡ left_in F.Field.arith text.now other.0 key.old }
{
    let line = KioskLine::read(1, field_numbers::<F>(), text)?;
    let Some(point) = point::<F>(other) else {
        return Err(Refusal::NoSuchKiosk);
    };
    if other == line.head.number {
        return Err(Refusal::OwnNumber);
    }
    let lanes = line.head.lanes as usize;
    if key.len() < lanes {
        return Err(Refusal::BufferTooShort);
    }
    let share = Share::<F> {
        line,
        field: PhantomData,
    };
    share.write_key(point, key);
    Ok(lanes)
}
