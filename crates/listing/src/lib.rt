// The lister: what a run file holds, as text.
#![tactic(auto)]

mod lines;
pub mod lister;
