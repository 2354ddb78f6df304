// Evaluation by a rule for the coefficients, over every field.
ghost use Rattle.std.specs.Prelude.{◌≡◌, if◌then◌else◌, Some, None, nat_lt, slice_get};
ghost use Rattle.std.specs.Option.{option_and_then, option_map};

use field::byte::Byte;
use field::doubled::Doubled;
use field::interface::Field;
use field::residue::Residue;
use polynomial::evaluate_by;
use polynomial::rule::Rule;

// The elements of a list of codes, that of the power 0 first. There is none beyond the list, and none of a number that is no code.
#[derive(Clone, Copy)]
struct Listed<'a> {
    codes: &'a [u32],
}

impl<F: Field> Rule<F> for Listed<'_> {
    ghost answers = { λ rule power answer. option_map F.Field.code answer ≡ option_and_then (λ n. if nat_lt n F.Field.arith.order then Some n else None) (slice_get rule.codes.now power) };

    fn coefficient(&self, power: usize) -> Option<F> {
        F::from_code(*self.codes.get(power)?)
    }
}

fn value<F: Field>(codes: &[u32], count: usize, point: u32) -> Option<u32> {
    let point = F::from_code(point)?;
    evaluate_by(count, &Listed { codes }, point).map(F::to_code)
}

#[test]
fn by_a_rule(rt: HostRuntime) {
    assert_eq!(rt; value::<Residue>(&[5, 7, 11], 3, 2), Some(63));
    assert_eq!(rt; value::<Residue>(&[5, 7, 11], 3, 256), Some(9));
    assert_eq!(rt; value::<Residue>(&[5, 7, 11], 2, 2), Some(19));
    assert_eq!(rt; value::<Residue>(&[5, 7, 11], 0, 2), Some(0));
    assert_eq!(rt; value::<Byte>(&[0x05, 0x04], 2, 0x03), Some(0x09));
    assert_eq!(rt; value::<Doubled<Residue>>(&[3, 257], 2, 257), Some(6));
    assert_eq!(rt;
        value::<Doubled<Byte>>(&[0x01, 0x100], 2, 0x100),
        Some(0x121)
    );
}

// Absent where the rule answers none for a power below the count, and only there.
#[test]
fn by_a_rule_without_an_answer(rt: HostRuntime) {
    assert_eq!(rt; value::<Residue>(&[5, 7, 11], 4, 2), None);
    assert_eq!(rt; value::<Residue>(&[5, 7, 257], 3, 2), None);
    assert_eq!(rt; value::<Residue>(&[5, 7, 257], 2, 2), Some(19));
    assert_eq!(rt; value::<Residue>(&[257, 7, 11], 3, 2), None);
}
