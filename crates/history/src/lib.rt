// The record of a bench: which pushes and pops took effect, in order.
#![tactic(auto)]

pub mod entry;
pub mod pushes;
