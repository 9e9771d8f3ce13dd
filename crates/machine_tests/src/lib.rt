// Tests of the machine's calls on both banks: scripts with the answer to each call, and refusals.
#![tactic(auto)]

#[cfg(test)]
mod bench;
#[cfg(test)]
mod limits;
#[cfg(test)]
mod refusals;
#[cfg(test)]
mod scripts;
