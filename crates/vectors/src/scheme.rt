// Shares, seats and restoring on examples, over every field and at the largest sizes.
use field::byte::Byte;
use field::doubled::Doubled;
use field::interface::Field;
use field::residue::Residue;
use polynomial::evaluate;
use polynomial::interpolation::{interpolate, write_weights};
use polynomial::seat::seat_code;
use polynomial::share::{lane_size, share_code};
use std::process::Abort;
use std::test::Fail;

// A draw over residues with t = 1, m = 1 and k = 2.
const DRAW: [u32; 6] = [5, 7, 11, 20, 30, 40];

// The degree t, the number of codes in a master, and the number k of seats that restore it.
#[derive(Clone, Copy)]
struct Sizes {
    degree: u32,
    master: usize,
    threshold: u32,
}

// t = 1, m = 1 and k = 2.
const SMALL: Sizes = Sizes {
    degree: 1,
    master: 3,
    threshold: 2,
};

// The largest: t = 9, m = 16 and k = 7.
const LARGEST: Sizes = Sizes {
    degree: 9,
    master: 880,
    threshold: 7,
};

impl Sizes {
    // One code of a share.
    fn share<F: Field>(&self, table: &[u32], lane: u32, j: u32, kiosk: u32) -> Option<u32> {
        share_code(table, self.degree, lane, j, F::from_code(kiosk)?)
    }

    // One code of a seat.
    fn seat<F: Field>(&self, table: &[u32], place: usize, seat: u32) -> Option<u32> {
        let seat = F::from_code(seat)?;
        seat_code(table, self.master, self.threshold, place, seat)
    }
}

#[test]
fn shares(rt: HostRuntime) {
    assert_eq!(rt; lane_size(1), 3);
    assert_eq!(rt; lane_size(9), 55);
    for (kiosk, first, second) in [(2, 19, 29), (3, 26, 40)] {
        assert_eq!(rt; SMALL.share::<Residue>(&DRAW, 0, 0, kiosk), Some(first));
        assert_eq!(rt; SMALL.share::<Residue>(&DRAW, 0, 1, kiosk), Some(second));
    }
    let master = [0x01u32, 0x02, 0x03];
    for (kiosk, first, second) in [(2, 0x05, 0x04), (3, 0x07, 0x07)] {
        assert_eq!(rt; SMALL.share::<Byte>(&master, 0, 0, kiosk), Some(first));
        assert_eq!(rt; SMALL.share::<Byte>(&master, 0, 1, kiosk), Some(second));
    }
}

// Another draw gives kiosk 2 and seat 1 the same codes.
#[test]
fn what_one_kiosk_and_one_seat_cannot_tell(rt: HostRuntime) {
    let other = [147u32, 193, 175, 135, 101, 133];
    for j in 0..2 {
        assert_eq!(rt;
            SMALL.share::<Residue>(&other, 0, j, 2),
            SMALL.share::<Residue>(&DRAW, 0, j, 2)
        );
    }
    for place in 0..3 {
        assert_eq!(rt;
            SMALL.seat::<Residue>(&other, place, 1),
            SMALL.seat::<Residue>(&DRAW, place, 1)
        );
    }
    assert_ne!(rt;
        SMALL.share::<Residue>(&other, 0, 0, 3),
        SMALL.share::<Residue>(&DRAW, 0, 0, 3)
    );
}

// Absent: a column beyond the degree, a lane beyond the table, a number that is no code.
#[test]
fn shares_that_are_absent(rt: HostRuntime) {
    assert_eq!(rt; SMALL.share::<Residue>(&DRAW, 0, 2, 2), None);
    assert_eq!(rt; SMALL.share::<Residue>(&DRAW[0..2], 0, 0, 2), None);
    assert_eq!(rt; SMALL.share::<Residue>(&[5, 7, 257], 0, 1, 2), None);
    assert_eq!(rt; SMALL.share::<Residue>(&[5, 7, 257], 0, 0, 2), Some(19));
    let kiosk = Residue::one();
    assert_eq!(rt; share_code(&DRAW, 1, 1, 0, kiosk), Some(50));
    assert_eq!(rt; share_code(&DRAW, 1, 2, 0, kiosk), None);
    assert_eq!(rt;
        share_code(&DRAW, 4_294_967_295, 4_294_967_295, 0, kiosk),
        None
    );
}

#[test]
fn seats(rt: HostRuntime) {
    for (seat, codes) in [(1, [25, 37, 51]), (2, [45, 67, 91]), (3, [65, 97, 131])] {
        for (place, code) in codes.iter().enumerate() {
            assert_eq!(rt; SMALL.seat::<Residue>(&DRAW, place, seat), Some(*code));
        }
    }
}

// Absent: a place beyond the master, a block beyond the table, a number that is no code.
#[test]
fn seats_that_are_absent(rt: HostRuntime) {
    assert_eq!(rt; SMALL.seat::<Residue>(&DRAW, 3, 1), None);
    assert_eq!(rt; SMALL.seat::<Residue>(&DRAW[0..5], 0, 1), None);
    assert_eq!(rt; SMALL.seat::<Residue>(&[5, 7, 11, 20, 257, 40], 1, 1), None);
    assert_eq!(rt;
        SMALL.seat::<Residue>(&[5, 7, 11, 20, 257, 40], 2, 1),
        Some(51)
    );
    let seat = Residue::one();
    assert_eq!(rt; seat_code(&DRAW, usize::MAX, 2, 0, seat), None);
}

#[test]
fn two_seats_restore(rt: HostRuntime) {
    let mut weights = [Residue::zero(); 3];
    assert_eq!(rt;
        write_weights(&[1, 3], Residue::zero(), &mut weights),
        Some(2)
    );
    assert!(rt; weights.map(Residue::to_code) == [130, 128, 0]);
    for (first, third, code) in [(25, 65, 5), (37, 97, 7), (51, 131, 11)] {
        assert_eq!(rt; interpolate(&weights[0..2], &[first, third]), Some(code));
    }
}

// Where a point is repeated its weight is that of the points without it. A point or a value that is no code has no answer, nor has a list of
// another length, or a buffer that is too short, which is left as it was.
#[test]
fn interpolation_without_points(rt: HostRuntime) {
    let mut weights = [Residue::zero(); 2];
    assert_eq!(rt;
        write_weights(&[1, 1], Residue::zero(), &mut weights),
        Some(2)
    );
    assert!(rt; weights == [Residue::one(), Residue::one()]);
    assert_eq!(rt; interpolate(&weights, &[25, 30]), Some(55));
    assert_eq!(rt; interpolate(&weights, &[25, 257]), None);
    assert_eq!(rt; interpolate(&weights, &[25]), None);
    assert_eq!(rt;
        write_weights(&[2, 257], Residue::zero(), &mut weights),
        None
    );
    assert_eq!(rt;
        write_weights(&[2, 3, 4], Residue::zero(), &mut weights),
        None
    );
    assert!(rt; weights == [Residue::one(), Residue::one()]);
}

// A draw of the largest size: t = 9, m = 16 and k = 7 make 6,160 codes.
fn largest_draw(order: u32) -> [u32; 6160] {
    let mut draw = [0u32; 6160];
    for (i, code) in draw.iter_mut().enumerate() {
        // `as` is proved to lose nothing here.
        *code = (i as u32 * 40_503 + 12_345) % order.max(1);
    }
    draw
}

// A code of the key of two kiosks, from the share of one. The share is put into the memory that is lent.
fn large_key<F: Field>(
    draw: &[u32],
    lane: u32,
    own: u32,
    other: u32,
    share: &mut [F],
) -> Option<u32> {
    for (j, code) in (0..).zip(share.iter_mut()) {
        *code = F::from_code(LARGEST.share::<F>(draw, lane, j, own)?)?;
    }
    Some(evaluate(share, F::from_code(other)?).to_code())
}

// In every lane two kiosks derive the same code. The whole draw would have 112 lanes.
fn agree<F: Field>(
    rt: &impl Abort,
    draw: &[u32],
    own: u32,
    other: u32,
    share: &mut [F],
) -> Result<(), Fail> {
    for lane in 0..16 {
        let code = large_key::<F>(draw, lane, own, other, share).ok_or("no key")?;
        assert_eq!(rt; large_key::<F>(draw, lane, other, own, share), Some(code));
    }
    assert_eq!(rt; large_key::<F>(draw, 112, own, other, share), None);
    Ok(())
}

// What the polynomial through the seats' codes at a place has where the weights are for.
fn through<F: Field>(draw: &[u32], place: usize, seats: &[u32; 7], weights: &[F]) -> Option<u32> {
    let mut values = [0u32; 7];
    for (value, seat) in values.iter_mut().zip(seats) {
        *value = LARGEST.seat::<F>(draw, place, *seat)?;
    }
    interpolate(weights, &values)
}

// Seven seats restore every code of the master, and the codes of seat 5 agree with theirs.
fn restore<F: Field>(
    rt: &impl Abort,
    draw: &[u32; 6160],
    seats: &[u32; 7],
    master: &mut [F],
    agreeing: &mut [F],
) -> Result<(), Fail> {
    assert_eq!(rt; write_weights(seats, F::zero(), master), Some(7));
    let further = F::from_code(5).ok_or("no such seat")?;
    assert_eq!(rt; write_weights(seats, further, agreeing), Some(7));
    for (place, master_code) in draw[..880].iter().enumerate() {
        assert_eq!(rt; through(draw, place, seats, master), Some(*master_code));
        let code = LARGEST.seat::<F>(draw, place, 5).ok_or("no code")?;
        assert_eq!(rt; through(draw, place, seats, agreeing), Some(code));
    }
    Ok(())
}

// Two kiosks agree in every lane, and seven seats restore every code. The memory is lent, as arrays of a type parameter are not proved.
fn agree_and_restore<F: Field>(
    rt: &impl Abort,
    draw: &[u32; 6160],
    kiosks: (u32, u32),
    share: &mut [F],
    master: &mut [F],
    agreeing: &mut [F],
) -> Result<(), Fail> {
    let (own, other) = kiosks;
    agree(rt, draw, own, other, share)?;
    restore(rt, draw, &[9, 1, 8, 2, 7, 3, 6], master, agreeing)
}

// What a draw of the largest size gives, over one of the doubled fields.
#[derive(Clone, Copy)]
struct Largest {
    order: u32,
    // Two kiosks.
    kiosks: (u32, u32),
    // Lane, column and code of the first one's share.
    shares: [(u32, u32, u32); 3],
    // Lane and code of the key of the two.
    keys: [(u32, u32); 2],
    // The last code of seat 9.
    seat: u32,
}

fn largest_sizes<F: Field>(
    rt: &impl Abort,
    wanted: &Largest,
    share: &mut [F],
    master: &mut [F],
    agreeing: &mut [F],
) -> Result<(), Fail> {
    let draw = largest_draw(wanted.order);
    let (own, other) = wanted.kiosks;
    for (lane, j, code) in wanted.shares {
        assert_eq!(rt; LARGEST.share::<F>(&draw, lane, j, own), Some(code));
    }
    for (lane, code) in wanted.keys {
        assert_eq!(rt; large_key::<F>(&draw, lane, own, other, share), Some(code));
    }
    assert_eq!(rt; LARGEST.seat::<F>(&draw, 879, 9), Some(wanted.seat));
    agree_and_restore(rt, &draw, (own, 1), share, master, agreeing)?;
    restore(rt, &draw, &[3, 4, 1, 7, 9, 8, 2], master, agreeing)
}

#[test]
fn largest_sizes_over_doubled_bytes(rt: HostRuntime) -> Result<(), Fail> {
    let wanted = Largest {
        order: 65_536,
        kiosks: (65_535, 65_534),
        shares: [(0, 0, 22_176), (7, 3, 34_627), (15, 9, 38_673)],
        keys: [(0, 1_178), (15, 63_458)],
        seat: 5_832,
    };
    let zero = Doubled::<Byte>::zero();
    largest_sizes(
        &rt,
        &wanted,
        &mut [zero; 10],
        &mut [zero; 7],
        &mut [zero; 7],
    )
}

#[test]
fn largest_sizes_over_doubled_residues(rt: HostRuntime) -> Result<(), Fail> {
    let wanted = Largest {
        order: 66_049,
        kiosks: (66_048, 66_047),
        shares: [(0, 0, 37_321), (7, 3, 30_319), (15, 9, 57_998)],
        keys: [(0, 37_445), (15, 20_238)],
        seat: 27_797,
    };
    let zero = Doubled::<Residue>::zero();
    largest_sizes(
        &rt,
        &wanted,
        &mut [zero; 10],
        &mut [zero; 7],
        &mut [zero; 7],
    )
}

#[test]
fn largest_sizes_over_bytes_and_residues(rt: HostRuntime) -> Result<(), Fail> {
    let (kiosks, zero) = ((255, 254), Byte::zero());
    let draw = largest_draw(256);
    agree_and_restore(
        &rt,
        &draw,
        kiosks,
        &mut [zero; 10],
        &mut [zero; 7],
        &mut [zero; 7],
    )?;
    let (kiosks, zero) = ((256, 255), Residue::zero());
    let draw = largest_draw(257);
    agree_and_restore(
        &rt,
        &draw,
        kiosks,
        &mut [zero; 10],
        &mut [zero; 7],
        &mut [zero; 7],
    )
}
