// An element of the field of bytes.
ghost use Rattle.std.specs.Prelude.{◌<◌};

pub mod arithmetic;
pub mod doubling;

#[derive(Clone, Copy, PartialEq, Eq, Debug)]
pub struct Byte {
    value: u8,
    ghost ok: { value < 256 },
}
