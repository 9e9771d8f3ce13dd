// The machine over a bank of turns: its opening, begins, steps, collects and queries.
#![tactic(auto)]

mod begins;
mod collects;
mod opening;
mod queries;
mod ready;
pub mod state;
mod steps;
mod takes;
