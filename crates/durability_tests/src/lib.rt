//! Tests of what a device keeps, by the public surfaces of oplog, recovery and checkpoint.
#![tactic(auto)]

#[cfg(test)]
mod assertions;
#[cfg(test)]
mod checkpoint_counting;
#[cfg(test)]
mod checkpoint_examples;
#[cfg(test)]
mod checkpoint_incarnations;
#[cfg(test)]
mod checkpoint_opening;
#[cfg(test)]
mod checkpoint_trials;
#[cfg(test)]
mod common;
#[cfg(test)]
mod oplog_common;
#[cfg(test)]
mod oplog_crashes;
#[cfg(test)]
mod oplog_examples;
#[cfg(test)]
mod oplog_layout;
#[cfg(test)]
mod recovery_formatting;
#[cfg(test)]
mod recovery_inspecting;
