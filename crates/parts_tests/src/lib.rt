//! Tests of the parts that a server is built of, by the public surfaces of arena, disk, run_queue and workers.
#![tactic(auto)]

#[cfg(test)]
mod arena_calls;
#[cfg(test)]
mod arena_rows;
#[cfg(test)]
mod assertions;
#[cfg(test)]
mod disk_backing;
#[cfg(test)]
mod disk_calls;
#[cfg(test)]
mod disk_files;
#[cfg(test)]
mod disk_injected_faults;
#[cfg(test)]
mod disk_tearing;
#[cfg(test)]
mod run_queue_making;
#[cfg(test)]
mod workers_hand_off;
