// A run: a draft takes programs, a running run takes steps, a closed run is at its end.
// The tables that a run needs are lent to each of its calls: card records, code rows, cells and step rows.
#![tactic(auto)]

mod adding;
mod background;
mod checks;
pub mod fault;
pub mod laws;
pub mod life;
mod performing;
pub mod rows;
pub mod states;
