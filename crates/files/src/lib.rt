// Reading and writing run files and day files.
#![tactic(auto)]

pub mod day;
pub mod day_write;
pub mod header;
mod put;
pub mod read;
pub mod records;
pub mod round_trip;
pub mod run_file;
mod sections;
pub mod step;
#[cfg(test)]
mod tests;
pub mod words;
pub mod write;
pub mod write_fault;
