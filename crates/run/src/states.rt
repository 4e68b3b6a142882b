// The three states of a run. Each holds the memory, the number of cards, and whether a raw instruction was added.
ghost use Rattle.std.specs.Prelude.{◌≤◌};

// Takes entries of its memory order, and raw instructions.
#[derive(Drop)]
pub struct Draft<M, O> {
    pub(crate) memory: M,
    pub(crate) order: O,
    pub(crate) count: u32,
    pub(crate) raw: bool,
    ghost few: { count ≤ 8 },
}

// Takes steps; `used` rows of the step list hold those accepted so far.
#[derive(Drop)]
pub struct Running<M> {
    pub(crate) memory: M,
    pub(crate) count: u32,
    pub(crate) raw: bool,
    pub(crate) used: u32,
    ghost few: { count ≤ 8 },
    ghost short: { used ≤ 4096 },
}

// Takes no step any more: the run as its last step left it.
#[derive(Drop)]
pub struct Closed<M> {
    pub(crate) run: Running<M>,
}
