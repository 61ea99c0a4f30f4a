//! Tests of the server and of the program's commands by their public surfaces, over devices in memory and in files, and with threads.
//! Shared by other modules: serving_common (whole calls of a server), serving_noting (devices and streams that note what is done with
//! them), serving_drawing (lines drawn from a seed), serving_images (what a served device holds), commands_common (a call of the program
//! with its streams in memory) and commands_devices (a small device in a file).
#![tactic(auto)]

#[cfg(test)]
mod assertions;
#[cfg(test)]
mod commands_again;
#[cfg(test)]
mod commands_answering;
#[cfg(test)]
mod commands_common;
#[cfg(test)]
mod commands_devices;
#[cfg(test)]
mod commands_service;
#[cfg(test)]
mod commands_texts;
#[cfg(test)]
mod serving_again;
#[cfg(test)]
mod serving_common;
#[cfg(test)]
mod serving_drawing;
#[cfg(test)]
mod serving_faults;
#[cfg(test)]
mod serving_images;
#[cfg(test)]
mod serving_noting;
#[cfg(test)]
mod serving_open_lines;
#[cfg(test)]
mod serving_overlap;
#[cfg(test)]
mod serving_pieces;
#[cfg(test)]
mod serving_points;
#[cfg(test)]
mod serving_precedence;
#[cfg(test)]
mod serving_streams;
#[cfg(test)]
mod serving_waiting;
