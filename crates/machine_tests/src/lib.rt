//! Tests of the machine by its public surface, over devices in memory.
#![tactic(auto)]

#[cfg(test)]
mod again;
#[cfg(test)]
mod assertions;
#[cfg(test)]
mod examples;
#[cfg(test)]
mod failing;
#[cfg(test)]
mod steps;
#[cfg(test)]
mod trials;
