// Word kinds, and memories: lists of words that are read and written by address.
#![tactic(auto)]

pub mod byte_table;
pub mod copying;
pub mod fault;
pub mod interface;
pub mod numbers;
pub mod origin;
pub mod word;
pub mod word_table;
