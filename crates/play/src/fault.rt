// Why a run ended early.
use world::refusal::Refusal;

// A refused call of the machine, with the index of the schedule entry that made it; the opening's is 0.
pub type Fault = faults::fault::Fault<Refusal>;
