// The report over the field of a line's mark.
ghost use Rattle.std.specs.Prelude.{◌≡◌};
ghost use Rattle.pair_key.specs.AnyField.{of_another_field, field_of};
ghost use Rattle.pair_key.specs.Report.{Reported};

use crate::report::{Failure, report};
use field::byte::Byte;
use field::doubled::Doubled;
use field::interface::Field;
use field::residue::Residue;
use kiosk::field_numbers;
use line::kiosk_line::KioskLine;
use line::number::KioskNumber;
use line::refusal::Cause;
use std::alloc::Global;

// Whether a reader over this field finds another field's mark.
fn has_another_mark<F: Field>(text: &[u8]) -> bool
    ensures { result ≡ of_another_field F.Field.arith text.now }
{
    let line = KioskLine::read(1, field_numbers::<F>(), text);
    line.is_err_and(|fault| fault.cause == Cause::OtherMark)
}

// The lines of the keys that the kiosk of this line shares with the others, over the first field whose reader does not find another's mark;
// over the last where there is none.
pub fn report_any(alloc: Global, text: &[u8], others: &[KioskNumber]) -> Result<String, Failure>
    ensures { Reported (field_of text.now) text.now others.now result }
{
    if !has_another_mark::<Byte>(text) {
        report::<Byte>(alloc, text, others)
    } else if !has_another_mark::<Residue>(text) {
        report::<Residue>(alloc, text, others)
    } else if !has_another_mark::<Doubled<Byte>>(text) {
        report::<Doubled<Byte>>(alloc, text, others)
    } else {
        report::<Doubled<Residue>>(alloc, text, others)
    }
}

#[cfg(test)]
mod tests {
    use super::*;
    use std::process::Abort;
    use std::test::Fail;

    // What is printed for the other kiosk 3.
    fn printed(alloc: Global, text: &[u8]) -> Result<String, Failure> {
        report_any(alloc, text, &[KioskNumber(3)])
    }

    fn prints(rt: &impl Abort, alloc: Global, text: &[u8], wanted: &str) -> Result<(), Fail> {
        let lines = printed(alloc, text)?;
        assert_eq!(rt; lines.as_str(), wanted);
        Ok(())
    }

    #[test]
    fn bytes(rt: HostRuntime) -> Result<(), Fail> {
        let text = b"k\t00000001\t00000007\t00000001\t00000001\t00000002\t0000000500000004\n";
        let wanted = "kiosk 2 and kiosk 3 of tour 7: 00000009\n";
        prints(&rt, rt.alloc(), text, wanted)
    }

    #[test]
    fn two_lanes_of_residues(rt: HostRuntime) -> Result<(), Fail> {
        let text =
            b"k\t00000002\tffffffff\t00000001\t00000002\t00000100\t000000130000001d0000010000000100\n";
        let wanted = "kiosk 256 and kiosk 3 of tour 4294967295: 0000006a 000000fd\n";
        prints(&rt, rt.alloc(), text, wanted)
    }

    #[test]
    fn doubled_bytes(rt: HostRuntime) -> Result<(), Fail> {
        let text = b"k\t00000011\t00000009\t00000001\t00000001\t0000ffff\t000012400000e55a\n";
        let wanted = "kiosk 65535 and kiosk 3 of tour 9: 000026ae\n";
        prints(&rt, rt.alloc(), text, wanted)
    }

    #[test]
    fn doubled_residues(rt: HostRuntime) -> Result<(), Fail> {
        let text = b"k\t00000012\t00000009\t00000001\t00000001\t00010200\t0000020b0000d5a6\n";
        let wanted = "kiosk 66048 and kiosk 3 of tour 9: 00007cf9\n";
        prints(&rt, rt.alloc(), text, wanted)
    }

    #[test]
    fn a_mark_of_no_field(rt: HostRuntime) -> Result<(), Fail> {
        let text = b"k\t00000003\t00000009\t00000001\t00000001\t00000002\t000000130000001d\n";
        let Err(Failure::Refused(refusal)) = printed(rt.alloc(), text) else {
            return Err(Fail::new("not refused"));
        };
        assert_eq!(rt; refusal.number(), 12);
        Ok(())
    }
}
