// The write that a write buffer keeps back.
#[derive(Clone, Copy)]
pub struct HeldWord<W> {
    pub address: u32,
    pub word: W,
}
