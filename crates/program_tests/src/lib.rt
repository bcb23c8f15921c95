//! Tests of the program over disks in memory.
#![tactic(auto)]

#[cfg(test)]
mod batches;
#[cfg(test)]
mod calls;
#[cfg(test)]
mod serving;
#[cfg(test)]
mod stops;
