// The report of a day: the heading that is open, the lines, and the text that they are printed into.
#![tactic(auto)]

pub mod day;
pub mod heading;
pub mod line;
mod line_text;
mod print;
pub mod runs;
pub mod text;
pub mod whole;
