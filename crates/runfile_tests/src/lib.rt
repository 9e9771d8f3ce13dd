// Damaged run files, each with the refusal and the place that the format's description gives.
#![tactic(auto)]

#[cfg(test)]
mod accepted;
#[cfg(test)]
mod damaged;
#[cfg(test)]
mod files;
