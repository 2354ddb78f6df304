// Finite fields behind one interface that promises its laws.
#![tactic(auto)]

pub mod byte;
pub mod doubled;
pub mod doubling;
pub mod interface;
mod power;
pub mod residue;
