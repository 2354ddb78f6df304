// Derivation on lines, good and damaged.
use super::lines::KIOSK_2;
use field::byte::Byte;
use field::doubled::Doubled;
use field::interface::Field;
use field::residue::Residue;
use kiosk::derive;
use line::kiosk_line::KioskHead;
use line::number::KioskNumber;
use line::refusal::{Cause, LineFault, Refusal};
use std::process::Abort;
use std::test::Fail;

const KIOSK_3: [u8; 64] =
    *b"k\t00000002\t00000009\t00000001\t00000001\t00000003\t0000001a00000028\n";

#[test]
fn both_kiosks_derive_one_key(rt: HostRuntime) {
    let mut key = [7u32; 3];
    assert_eq!(rt;
        derive::<Residue>(&KIOSK_2, KioskNumber(3), &mut key),
        Ok(1)
    );
    assert!(rt; key == [106, 7, 7]);
    let mut key = [7u32; 1];
    assert_eq!(rt;
        derive::<Residue>(&KIOSK_3, KioskNumber(2), &mut key),
        Ok(1)
    );
    assert!(rt; key == [106]);
}

fn refused(rt: &impl Abort, number: u32, room: usize) -> Result<Refusal, Fail> {
    let mut key = [7u32; 2];
    let room = room.min(2);
    let Err(refusal) = derive::<Residue>(&KIOSK_2, KioskNumber(number), &mut key[..room]) else {
        return Err(Fail::new("not refused"));
    };
    assert!(rt; key == [7, 7]);
    Ok(refusal)
}

#[test]
fn takes_the_largest_number_and_no_larger(rt: HostRuntime) -> Result<(), Fail> {
    let mut key = [7u32; 1];
    assert_eq!(rt;
        derive::<Residue>(&KIOSK_2, KioskNumber(256), &mut key),
        Ok(1)
    );
    assert!(rt; key == [247]);
    assert_eq!(rt; refused(&rt, 257, 1)?, Refusal::NoSuchKiosk);
    assert_eq!(rt; refused(&rt, 257, 1)?.number(), 6);
    Ok(())
}

// The checks in their order: the first that refuses decides. Refusals are asked for their numbers, which are among what is tested.
#[test]
fn refuses_in_order(rt: HostRuntime) -> Result<(), Fail> {
    assert_eq!(rt; refused(&rt, 0, 0)?.number(), 6);
    assert_eq!(rt; refused(&rt, 4_294_967_295, 0)?.number(), 6);
    assert_eq!(rt; refused(&rt, 2, 0)?.number(), 17);
    assert_eq!(rt; refused(&rt, 3, 0)?.number(), 8);
    let mut key = [7u32; 0];
    let fault = LineFault {
        line: 1,
        place: 63,
        cause: Cause::NoLineFeed,
    };
    let answer = derive::<Residue>(&KIOSK_2[0..63], KioskNumber(0), &mut key);
    assert_eq!(rt; answer, Err(Refusal::OutOfForm(fault)));
    Ok(())
}

#[test]
fn a_line_of_another_field(rt: HostRuntime) {
    let mut key = [7u32; 1];
    let fault = LineFault {
        line: 1,
        place: 2,
        cause: Cause::OtherMark,
    };
    assert_eq!(rt;
        derive::<Byte>(&KIOSK_2, KioskNumber(3), &mut key),
        Err(Refusal::OutOfForm(fault))
    );
    assert!(rt; key == [7]);
}

// The lines of two kiosks with one lane derive one code for each other's numbers.
fn one_code<F: Field>(rt: &impl Abort, lines: [(&[u8; 64], u32); 2], code: u32) {
    for (line, other) in lines {
        let mut key = [7u32; 1];
        assert_eq!(rt; derive::<F>(line, KioskNumber(other), &mut key), Ok(1));
        assert!(rt; key == [code]);
    }
}

// The share of kiosk hex 02 over bytes, 05 04, and that of kiosk 03, 07 07, give the key 09.
#[test]
fn over_bytes(rt: HostRuntime) {
    let kiosk_2 = *b"k\t00000001\t00000001\t00000001\t00000001\t00000002\t0000000500000004\n";
    let kiosk_3 = *b"k\t00000001\t00000001\t00000001\t00000001\t00000003\t0000000700000007\n";
    one_code::<Byte>(&rt, [(&kiosk_2, 3), (&kiosk_3, 2)], 9);
}

// Sixteen lanes of ten codes: the first of each is 0, and the others are the lane's index.
fn sixteen_lanes() -> [u32; 160] {
    let mut codes = [0u32; 160];
    for (i, code) in codes.iter_mut().enumerate() {
        // `as` is proved to lose nothing here.
        *code = if i % 10 == 0 { 0 } else { (i / 10) as u32 };
    }
    codes
}

// At the number 1 a code of the key is the sum of a lane's codes, here nine equal bytes, which is one of them.
#[test]
fn a_line_of_full_size(rt: HostRuntime) {
    let head = KioskHead {
        mark: 1,
        tour: 1,
        degree: 9,
        lanes: 16,
        number: KioskNumber(255),
    };
    let mut text = [0u8; 1328];
    assert!(rt; head.write(&sixteen_lanes(), &mut text).is_ok());
    let mut key = [99u32; 17];
    assert_eq!(rt; derive::<Byte>(&text, KioskNumber(1), &mut key), Ok(16));
    assert!(rt; key == [0, 1, 2, 3, 4, 5, 6, 7, 8, 9, 10, 11, 12, 13, 14, 15, 99]);
    let mut short = [99u32; 15];
    assert_eq!(rt;
        derive::<Byte>(&text, KioskNumber(1), &mut short),
        Err(Refusal::BufferTooShort)
    );
    assert!(rt; short == [99u32; 15]);
}

// The largest kiosk numbers. The share of kiosk u is 5 + 66048·u and 66048 + 300·u over the doubled residues, and in hex 105 + ffff·u and
// ffff + 203·u over the doubled bytes.
#[test]
fn over_doubled_fields(rt: HostRuntime) {
    let mut key = [7u32; 1];
    let kiosk = *b"k\t00000012\t00000009\t00000001\t00000001\t00010200\t0000020b0000d5a6\n";
    let other = *b"k\t00000012\t00000009\t00000001\t00000001\t000101ff\t0000030d0000d47a\n";
    one_code::<Doubled<Residue>>(&rt, [(&kiosk, 66_047), (&other, 66_048)], 0x8c79);
    assert_eq!(rt;
        derive::<Doubled<Residue>>(&other, KioskNumber(66_049), &mut key),
        Err(Refusal::NoSuchKiosk)
    );
    let kiosk = *b"k\t00000011\t00000009\t00000001\t00000001\t0000ffff\t000012400000e55a\n";
    let other = *b"k\t00000011\t00000009\t00000001\t00000001\t0000fffe\t0000edbf0000e759\n";
    one_code::<Doubled<Byte>>(&rt, [(&kiosk, 0xfffe), (&other, 0xffff)], 0x7d3c);
    assert_eq!(rt;
        derive::<Doubled<Byte>>(&other, KioskNumber(0x10000), &mut key),
        Err(Refusal::NoSuchKiosk)
    );
}
