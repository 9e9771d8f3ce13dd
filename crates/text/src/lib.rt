// Bytes and decimal numbers, written whole or not at all into an area that the caller owns.
#![tactic(auto)]

pub mod holder;
pub mod piece;
pub mod refusal;
#[cfg(test)]
mod tests;
