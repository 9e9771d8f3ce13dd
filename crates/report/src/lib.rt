// What the bench prints: reports, written line by line into an area that the caller owns.
#![tactic(auto)]

pub mod counts;
pub mod fault;
pub mod line;
mod piece;
pub mod states;
pub mod whole;
