//! Tests of what messages are and what they mean, by the public surfaces of affinity, message, plain and parcel.
#![tactic(auto)]

#[cfg(test)]
mod affinity_places;
#[cfg(test)]
mod assertions;
#[cfg(test)]
mod common;
#[cfg(test)]
mod message_lines;
#[cfg(test)]
mod message_records;
#[cfg(test)]
mod message_replies;
#[cfg(test)]
mod parcel_lines;
#[cfg(test)]
mod parcel_pieces;
#[cfg(test)]
mod parcel_trees;
#[cfg(test)]
mod plain_borders;
#[cfg(test)]
mod plain_meaning;
#[cfg(test)]
mod plain_rows;
#[cfg(test)]
mod plain_serving;
#[cfg(test)]
mod plain_sessions;
