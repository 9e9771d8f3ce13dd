// From a run file's bytes to a report's: the call that hosts make.
#![tactic(auto)]

pub mod call;
mod fault;
mod reporting;
