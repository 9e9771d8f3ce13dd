// The shape of a bench, tickets with their turns, and banks that keep each slot's turn.
#![tactic(auto)]

pub mod advances;
pub mod bank;
pub mod nibble_bank;
pub mod refusal;
pub mod shape;
pub mod ticket;
pub mod word_bank;
