// Why something is declined: refusals with the numbers that users are told, and where they came up.
#![tactic(auto)]

pub mod fault;
pub mod numbered;
