// The lines that a tour keeps on paper, and the refusals that its calls answer.
#![tactic(auto)]

pub mod codes;
pub mod digits;
pub mod kiosk_line;
pub mod number;
pub mod refusal;
pub mod steps;
