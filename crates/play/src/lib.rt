// Playing a run file's schedule on a machine.
#![tactic(auto)]

pub mod fault;
mod player;
pub mod playing;
pub mod schedule;
