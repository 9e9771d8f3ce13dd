// What a run of the bench is made of: phases, cells, answers, refusals, and the table of threads.
#![tactic(auto)]

pub mod cell;
pub mod phase;
pub mod refusal;
pub mod step;
pub mod table;
