// Tests of the banks beside a plain array, and of shapes, tickets and turns on worked numbers.
#![tactic(auto)]

#[cfg(test)]
mod banks;
#[cfg(test)]
mod tickets;
