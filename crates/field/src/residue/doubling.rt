// Residues modulo 257 are ready for doubling.
use super::Residue;
use crate::doubling::Doubling;

// No residue z has z·z = E.
const E: u16 = 3;

impl Doubling for Residue {
    ghost d = { 0 };

    ghost e = { 3 };

    fn coefficients() -> (Residue, Residue) {
        (Residue { value: 0 }, Residue { value: E })
    }
}
