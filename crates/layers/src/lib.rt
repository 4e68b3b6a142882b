// Memories that stand over memories: each holds the memory below, and is one itself.
#![tactic(auto)]

pub mod banks;
pub mod held;
pub mod stacks;
pub mod window;
pub mod write_buffer;
