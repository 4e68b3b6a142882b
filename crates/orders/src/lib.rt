// Entries of a program, the six memory orders, and the translation of entries into instructions.
#![tactic(auto)]

pub mod chosen;
pub mod entries;
pub mod fences;
pub mod ia64;
pub mod ibm370;
pub mod order;
pub mod pso;
pub mod rmo;
pub mod rows;
pub mod sc;
pub mod translation;
pub mod tso;
