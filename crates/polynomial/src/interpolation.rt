// The value of the polynomial through given points, by Lagrange: its weights are worked out once, and serve for every list of values.
ghost use Rattle.std.specs.Prelude.{◌≡◌, ◌&&◌, ◌++◌, map, length, drop, if◌then◌else◌, Some, None, nat_le};
ghost use Rattle.std.specs.Option.{option_map};
ghost use Rattle.polynomial.specs.Interpolation.{difference, factor, weight, weights, weighted_answer};
ghost use Rattle.polynomial.specs.Polynomial.{are_codes};

use field::interface::Field;

fn minus<F: Field>(x: F, y: F) -> F
    ensures { F.Field.code result ≡ difference F.Field.arith (F.Field.code x) (F.Field.code y) }
{
    x.sum(y.negative())
}

// What the point r puts into the weight of the point s: (r - x)/(r - s), and nothing if it is s itself, as then alone the difference has no inverse.
fn factor_of<F: Field>(s: F, x: F, r: F) -> F
    ensures { F.Field.code result ≡ factor F.Field.arith (F.Field.code s) (F.Field.code x) (F.Field.code r) }
{
    F::laws();
    match minus(r, s).inverse() {
        Some(inverse) => minus(r, x).product(inverse),
        None => F::one(),
    }
}

// The weight of the point s among these points, for the value at x. Absent where one of the points is no code. The points are numbers and are read
// here, as a list of elements would want memory of its own.
pub fn weight_of<F: Field>(points: &[u32], s: F, x: F) -> Option<F>
    ensures { option_map F.Field.code result ≡ (if are_codes F.Field.arith points.now then Some (weight F.Field.arith points.now (F.Field.code s) (F.Field.code x)) else None) }
{
    let mut product = F::one();
    for point in points {
        let r = F::from_code(*point)?;
        product = product.product(factor_of(s, x, r));
    }
    Some(product)
}

fn all_codes<F: Field>(numbers: &[u32]) -> bool
    ensures { result ≡ are_codes F.Field.arith numbers.now }
{
    numbers.iter().all(|number| F::from_code(*number).is_some())
}

// Writes the weights of these points, for the value at x, into the first places of `into`, and answers how many there are. Absent, with nothing
// written, where one of the points is no code or there is too little room. The room is lent, as nothing here allocates.
pub fn write_weights<F: Field>(points: &[u32], x: F, into: &mut [F]) -> Option<usize>
    ensures answer { result ≡ (if are_codes F.Field.arith points.now && nat_le (length points.now) (length into.old) then Some (length points.now) else None) }
    ensures after { map F.Field.code into.new ≡ (if are_codes F.Field.arith points.now && nat_le (length points.now) (length into.old) then weights F.Field.arith points.now (F.Field.code x) ++ drop (length points.now) (map F.Field.code into.old) else map F.Field.code into.old) }
{
    if !all_codes::<F>(points) || points.len() > into.len() {
        return None;
    }
    // By an index: `iter_mut().zip(points)` was tried, and the proof did not close, as nothing is known of what is written through it.
    for (i, point) in points.iter().enumerate() {
        let s = F::from_code(*point).unwrap();
        into[i] = weight_of(points, s, x).unwrap();
    }
    Some(points.len())
}

// The sum of value times weight: with the weights of points, the value of the polynomial that has these values there. Absent where there are not as
// many values as weights, or one of them is no code.
pub fn interpolate<F: Field>(weights: &[F], values: &[u32]) -> Option<u32>
    ensures { result ≡ weighted_answer F.Field.arith (map F.Field.code weights.now) values.now }
{
    if values.len() != weights.len() {
        return None;
    }
    let mut sum = F::zero();
    for (weight, value) in weights.iter().zip(values) {
        let value = F::from_code(*value)?;
        sum = sum.sum(value.product(*weight));
    }
    Some(sum.to_code())
}
