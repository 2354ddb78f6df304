// Kiosk lines: written, read back, cut short and damaged.
use field::byte::Byte;
use field::doubled::Doubled;
use field::interface::Field;
use field::residue::Residue;
use kiosk::field_numbers;
use line::kiosk_line::{KioskHead, KioskLine};
use line::number::KioskNumber;
use line::refusal::{Cause, LineFault, Refusal};
use std::process::Abort;
use std::test::Fail;

// The line of kiosk 2 of tour 9 over the residues, with t = 1, m = 1 and the share 19 29.
pub const KIOSK_2: [u8; 64] =
    *b"k\t00000002\t00000009\t00000001\t00000001\t00000002\t000000130000001d\n";

fn kiosk_2() -> KioskHead {
    KioskHead {
        mark: 2,
        tour: 9,
        degree: 1,
        lanes: 1,
        number: KioskNumber(2),
    }
}

fn read_over<F: Field>(text: &[u8]) -> Result<KioskHead, LineFault> {
    let line = KioskLine::read(1, field_numbers::<F>(), text)?;
    Ok(line.head)
}

fn read(text: &[u8]) -> Result<KioskHead, LineFault> {
    read_over::<Residue>(text)
}

fn fault(place: usize, cause: Cause) -> Result<KioskHead, LineFault> {
    Err(LineFault {
        line: 1,
        place,
        cause,
    })
}

#[test]
fn is_written_into_just_enough_room(rt: HostRuntime) {
    let mut buffer = [0u8; 64];
    assert_eq!(rt; kiosk_2().write(&[19, 29], &mut buffer), Ok(64));
    assert!(rt; buffer == KIOSK_2);
    let mut short = [7u8; 63];
    assert_eq!(rt;
        kiosk_2().write(&[19, 29], &mut short),
        Err(Refusal::BufferTooShort)
    );
    assert!(rt; short == [7u8; 63]);
}

#[test]
fn leaves_what_stands_behind_it(rt: HostRuntime) {
    let mut buffer = [7u8; 70];
    assert_eq!(rt; kiosk_2().write(&[19, 29], &mut buffer), Ok(64));
    assert!(rt; buffer[0..64] == KIOSK_2[0..64]);
    assert!(rt; buffer[64..] == [7u8; 6][0..]);
}

#[test]
fn reads_back(rt: HostRuntime) -> Result<(), Fail> {
    assert_eq!(rt; read(&KIOSK_2), Ok(kiosk_2()));
    let line = KioskLine::read(1, field_numbers::<Residue>(), &KIOSK_2)?;
    assert_eq!(rt; line.codes.place, 47);
    assert_eq!(rt; line.codes.get(0), Some(19));
    assert_eq!(rt; line.codes.get(1), Some(29));
    assert_eq!(rt; line.codes.get(2), None);
    Ok(())
}

#[test]
fn cut_at_every_length(rt: HostRuntime) {
    for length in 0..64usize {
        let missing = match length {
            0 => Cause::WrongLetter,
            1 | 10 | 19 | 28 | 37 | 46 => Cause::NoTab,
            63 => Cause::NoLineFeed,
            _ => Cause::NoHexDigit,
        };
        assert_eq!(rt; read(&KIOSK_2[0..length]), fault(length, missing));
    }
}

// One byte changed: where, to what, and the fault's place and cause.
const DAMAGED: [(usize, u8, usize, Cause); 20] = [
    (0, b'K', 0, Cause::WrongLetter),
    (0, b's', 0, Cause::WrongLetter),
    (1, b' ', 1, Cause::NoTab),
    (46, b' ', 46, Cause::NoTab),
    (2, b'x', 2, Cause::NoHexDigit),
    (17, b'\t', 17, Cause::NoHexDigit),
    (54, b'A', 54, Cause::NoHexDigit),
    (62, b'D', 62, Cause::NoHexDigit),
    (62, b'g', 62, Cause::NoHexDigit),
    (62, b'`', 62, Cause::NoHexDigit),
    (62, b':', 62, Cause::NoHexDigit),
    (62, b'/', 62, Cause::NoHexDigit),
    (9, b'3', 2, Cause::OtherMark),
    (18, b'0', 11, Cause::OutOfRange),
    (27, b'0', 20, Cause::OutOfRange),
    (27, b'a', 20, Cause::OutOfRange),
    (36, b'0', 29, Cause::OutOfRange),
    (35, b'1', 29, Cause::OutOfRange),
    (45, b'0', 38, Cause::OutOfRange),
    (63, b'\r', 63, Cause::NoLineFeed),
];

#[test]
fn damaged_at_one_byte(rt: HostRuntime) {
    for (at, byte, place, cause) in DAMAGED {
        let mut text = KIOSK_2;
        if let Some(damaged) = text.get_mut(at) {
            *damaged = byte;
        }
        assert_eq!(rt; read(&text), fault(place, cause));
    }
}

// A line with the largest number and the largest codes is read, and refused where one after another, from the last, is one hex digit higher.
fn at_the_edge<F: Field>(rt: &impl Abort, line: &[u8; 64]) {
    let mut text = *line;
    assert!(rt; read_over::<F>(&text).is_ok());
    for (at, place) in [(62usize, 55), (54, 47), (45, 38)] {
        if let Some(digit) = text.get_mut(at) {
            *digit = b'1';
        }
        assert_eq!(rt; read_over::<F>(&text), fault(place, Cause::OutOfRange));
    }
}

#[test]
fn at_the_edge_of_the_field(rt: HostRuntime) {
    let text = *b"k\t00000002\t00000009\t00000001\t00000001\t00000100\t0000010000000100\n";
    at_the_edge::<Residue>(&rt, &text);
}

// Codes and a kiosk number up to 66,048, which is hex 10200.
#[test]
fn at_the_edge_of_the_doubled_residues(rt: HostRuntime) {
    let text = *b"k\t00000012\t00000009\t00000001\t00000001\t00010200\t0001020000010200\n";
    assert_eq!(rt; read(&text), fault(2, Cause::OtherMark));
    at_the_edge::<Doubled<Residue>>(&rt, &text);
}

// Codes and a kiosk number up to 65,535, which is hex ffff.
#[test]
fn at_the_edge_of_the_doubled_bytes(rt: HostRuntime) {
    let text = *b"k\t00000011\t00000009\t00000001\t00000001\t0000ffff\t0000ffff0000ffff\n";
    assert!(rt; read_over::<Doubled<Byte>>(&text).is_ok());
    assert_eq!(rt;
        read_over::<Doubled<Residue>>(&text),
        fault(2, Cause::OtherMark)
    );
    let text = *b"k\t00000011\t00000009\t00000001\t00000001\t0000ffff\t0000ffff00010000\n";
    assert_eq!(rt;
        read_over::<Doubled<Byte>>(&text),
        fault(55, Cause::OutOfRange)
    );
}

// A value is judged before the byte behind it, and the first fault from the left is named.
#[test]
fn judged_from_the_left(rt: HostRuntime) {
    let mut text = KIOSK_2;
    text[28] = b' ';
    assert_eq!(rt; read(&text), fault(28, Cause::NoTab));
    text[27] = b'0';
    assert_eq!(rt; read(&text), fault(20, Cause::OutOfRange));
    text[26] = b'!';
    assert_eq!(rt; read(&text), fault(26, Cause::NoHexDigit));
    text[9] = b'1';
    assert_eq!(rt; read(&text), fault(2, Cause::OtherMark));
}

#[test]
fn bytes_after_the_line(rt: HostRuntime) {
    let text = *b"k\t00000002\t00000009\t00000001\t00000001\t00000002\t000000130000001d\n\n";
    assert_eq!(rt; read(&text), fault(64, Cause::BytesAfter));
}

// The largest line, of 1,328 bytes, over bytes: t = 9, m = 16.
#[test]
fn of_full_size(rt: HostRuntime) -> Result<(), Fail> {
    let head = KioskHead {
        mark: 1,
        tour: 4_294_967_295,
        degree: 9,
        lanes: 16,
        number: KioskNumber(255),
    };
    let mut text = [0u8; 1328];
    assert_eq!(rt; head.write(&[255u32; 160], &mut text), Ok(1328));
    let line = KioskLine::read(1, field_numbers::<Byte>(), &text)?;
    assert_eq!(rt; line.head, head);
    assert_eq!(rt; line.codes.get(159), Some(255));
    assert_eq!(rt; line.codes.get(160), None);
    Ok(())
}
