// Tests of reports in areas of every length, and of the search for a push.
#![tactic(auto)]

#[cfg(test)]
mod pieces;
#[cfg(test)]
mod pushes;
#[cfg(test)]
mod samples;
#[cfg(test)]
mod wholes;
