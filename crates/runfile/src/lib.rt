// Run files: what a run is made of, read from bytes without copying them.
#![tactic(auto)]

pub mod bodies;
mod count;
pub mod element;
pub mod fault;
pub mod file;
pub mod header;
pub mod kinds;
pub mod letter;
pub mod number;
pub mod operation;
pub mod program;
pub mod runs;
mod schedule;
mod table;
mod tabled;
