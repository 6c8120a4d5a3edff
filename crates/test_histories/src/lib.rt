// Tests of runs of commands and of recorded sessions, over their public calls alone.
#![tactic(auto)]

#[cfg(test)]
mod commands;
#[cfg(test)]
mod compared;
#[cfg(test)]
mod differential;
#[cfg(test)]
mod faults;
#[cfg(test)]
mod hostile;
#[cfg(test)]
mod mismatches;
#[cfg(test)]
mod orders;
#[cfg(test)]
mod rows;
#[cfg(test)]
mod run_faults;
#[cfg(test)]
mod shards;
#[cfg(test)]
mod threads;
#[cfg(test)]
mod views;
