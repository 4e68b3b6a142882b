// The audit of one run file: are its records, taken in turn, all accepted?
#![tactic(auto)]

pub mod alone;
pub mod audit;
mod entries;
pub mod fault;
mod records;
mod sound;
mod steps;
pub mod verdict;
