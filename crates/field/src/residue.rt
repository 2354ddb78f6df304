// An element of the field of residues modulo 257.
ghost use Rattle.std.specs.Prelude.{◌<◌};

pub mod arithmetic;
pub mod doubling;

#[derive(Clone, Copy, PartialEq, Eq, Debug)]
pub struct Residue {
    value: u16,
    ghost ok: { value < 257 },
}
