// Bytes are ready for doubling.
use super::Byte;
use crate::doubling::Doubling;

// No byte z has z·z = z + E.
const E: u8 = 0x20;

impl Doubling for Byte {
    ghost d = { 1 };

    ghost e = { 0x20 };

    fn coefficients() -> (Byte, Byte) {
        (Byte { value: 1 }, Byte { value: E })
    }
}
