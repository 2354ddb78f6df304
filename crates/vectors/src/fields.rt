// The fields on examples, those that FIPS 197 works out for bytes among them.
use field::byte::Byte;
use field::doubled::Doubled;
use field::interface::Field;
use field::residue::Residue;
use std::process::Abort;
use std::test::Fail;

fn product<F: Field>(x: u32, y: u32) -> Option<u32> {
    Some(F::from_code(x)?.product(F::from_code(y)?).to_code())
}

fn sum<F: Field>(x: u32, y: u32) -> Option<u32> {
    Some(F::from_code(x)?.sum(F::from_code(y)?).to_code())
}

fn inverse<F: Field>(x: u32) -> Option<u32> {
    Some(F::from_code(x)?.inverse()?.to_code())
}

#[test]
fn bytes_of_fips_197(rt: HostRuntime) {
    assert_eq!(rt; sum::<Byte>(0x57, 0x83), Some(0xd4));
    assert_eq!(rt; product::<Byte>(0x57, 0x83), Some(0xc1));
    assert_eq!(rt; product::<Byte>(0x57, 0x13), Some(0xfe));
    for (power, answer) in [(0x02, 0xae), (0x04, 0x47), (0x08, 0x8e), (0x10, 0x07)] {
        assert_eq!(rt; product::<Byte>(0x57, power), Some(answer));
    }
    assert_eq!(rt; inverse::<Byte>(0x53), Some(0xca));
}

#[test]
fn residues(rt: HostRuntime) {
    assert_eq!(rt; sum::<Residue>(256, 256), Some(255));
    assert_eq!(rt; product::<Residue>(256, 256), Some(1));
    assert_eq!(rt; inverse::<Residue>(2), Some(129));
    assert_eq!(rt; inverse::<Residue>(256), Some(256));
}

// Every code below the order but zero has an inverse, and the order has no element.
fn inverses<F: Field>(rt: &impl Abort, order: u32) -> Result<(), Fail> {
    assert_eq!(rt; inverse::<F>(0), None);
    for x in 1..order {
        let y = inverse::<F>(x).ok_or("no inverse")?;
        assert_eq!(rt; product::<F>(x, y), Some(1));
    }
    assert!(rt; F::from_code(order).is_none());
    Ok(())
}

#[test]
fn every_byte_has_an_inverse(rt: HostRuntime) -> Result<(), Fail> {
    inverses::<Byte>(&rt, 256)
}

#[test]
fn every_residue_has_an_inverse(rt: HostRuntime) -> Result<(), Fail> {
    inverses::<Residue>(&rt, 257)
}

// w has the code q, and w·w = d·w + e.
#[test]
fn doubled_bytes(rt: HostRuntime) {
    assert_eq!(rt; product::<Doubled<Byte>>(0x100, 0x100), Some(0x120));
    assert_eq!(rt; inverse::<Doubled<Byte>>(0x100), Some(0x3a3a));
    assert_eq!(rt; sum::<Doubled<Byte>>(0xffff, 0x1234), Some(0xedcb));
    assert_eq!(rt; product::<Doubled<Byte>>(0x1234, 0x5678), Some(0xf029));
    assert_eq!(rt; product::<Doubled<Byte>>(0xffff, 0xffff), Some(0x1345));
    assert_eq!(rt; inverse::<Doubled<Byte>>(0x1234), Some(0xbea3));
    assert_eq!(rt; inverse::<Doubled<Byte>>(0xffff), Some(0xae00));
}

#[test]
fn doubled_residues(rt: HostRuntime) {
    assert_eq!(rt; product::<Doubled<Residue>>(257, 257), Some(3));
    assert_eq!(rt; inverse::<Doubled<Residue>>(257), Some(22_102));
    assert_eq!(rt; sum::<Doubled<Residue>>(66_048, 66_048), Some(65_790));
    assert_eq!(rt; product::<Doubled<Residue>>(12_345, 54_321), Some(62_584));
    assert_eq!(rt; product::<Doubled<Residue>>(66_048, 66_048), Some(518));
    assert_eq!(rt; inverse::<Doubled<Residue>>(12_345), Some(58_746));
    assert_eq!(rt; inverse::<Doubled<Residue>>(66_048), Some(33_025));
}

fn same<F: Field>(rt: &impl Abort, x: F, y: F) -> Result<(), Fail> {
    assert_eq!(rt; x.to_code(), y.to_code());
    Ok(())
}

// The laws of three elements.
fn laws_of<F: Field>(rt: &impl Abort, x: F, y: F, z: F) -> Result<(), Fail> {
    same(rt, x.sum(y).sum(z), x.sum(y.sum(z)))?;
    same(rt, x.sum(y), y.sum(x))?;
    same(rt, x.sum(F::zero()), x)?;
    same(rt, x.sum(x.negative()), F::zero())?;
    same(rt, x.product(y).product(z), x.product(y.product(z)))?;
    same(rt, x.product(y), y.product(x))?;
    same(rt, x.product(F::one()), x)?;
    same(rt, x.product(y.sum(z)), x.product(y).sum(x.product(z)))?;
    match x.inverse() {
        Some(inverse) => same(rt, x.product(inverse), F::one()),
        None => same(rt, x, F::zero()),
    }
}

// The laws for every three of the codes, and that a code is that of its element.
fn laws<F: Field>(rt: &impl Abort, codes: &[u32]) -> Result<(), Fail> {
    for a in codes {
        let x = F::from_code(*a).ok_or("no element")?;
        assert_eq!(rt; x.to_code(), *a);
        for b in codes {
            let y = F::from_code(*b).ok_or("no element")?;
            for c in codes {
                laws_of(rt, x, y, F::from_code(*c).ok_or("no element")?)?;
            }
        }
    }
    Ok(())
}

// The order and the mark, the laws on codes, and that neither the order nor the largest number is a code.
fn lawful<F: Field>(rt: &impl Abort, order: u32, mark: u32, codes: &[u32]) -> Result<(), Fail> {
    assert_eq!(rt; F::order(), u64::from(order));
    assert_eq!(rt; F::mark(), mark);
    laws::<F>(rt, codes)?;
    assert!(rt; F::from_code(order).is_none());
    assert!(rt; F::from_code(4_294_967_295).is_none());
    Ok(())
}

#[test]
fn laws_of_doubled_bytes(rt: HostRuntime) -> Result<(), Fail> {
    let codes = [
        0, 1, 2, 255, 256, 257, 0x1234, 0x8080, 65_280, 65_534, 65_535,
    ];
    lawful::<Doubled<Byte>>(&rt, 65_536, 17, &codes)
}

#[test]
fn laws_of_doubled_residues(rt: HostRuntime) -> Result<(), Fail> {
    let codes = [
        0, 1, 2, 256, 257, 258, 12_345, 32_768, 65_792, 66_047, 66_048,
    ];
    lawful::<Doubled<Residue>>(&rt, 66_049, 18, &codes)
}
