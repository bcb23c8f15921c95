//! Tests of the devices, of the disks and of the journal, of a source that is made as it is read, and of the memo of
//! what is shown. The libraries themselves have none.
#![tactic(auto)]

#[cfg(test)]
mod broken;
#[cfg(test)]
mod devices;
#[cfg(test)]
mod disks;
#[cfg(test)]
mod journals;
#[cfg(test)]
mod long;
#[cfg(test)]
mod memo;
#[cfg(test)]
mod opened;
#[cfg(test)]
mod unfailing;
