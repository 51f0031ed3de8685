// What the machine holds between two instructions, beside its stack, its store and its reply.

/// What the stack may hold: its words, three for each frame and five for each handler.
pub const STACK_LIMIT: usize = 4194304;

/// What a call saves.
#[derive(Clone, Copy)]
pub struct Frame {
    pub address: usize,
    pub base: usize,
    pub closure: u64,
}

/// Where a raise goes: how much is kept, and the frame and the address there.
#[derive(Clone, Copy)]
pub struct Handler {
    pub words: usize,
    pub regions: u64,
    pub frames: usize,
    pub base: usize,
    pub closure: u64,
    pub address: usize,
}

/// The registers.
#[derive(Clone, Copy)]
pub struct Registers {
    pub address: usize,
    pub base: usize,
    pub closure: u64,
    /// How many words the stack has.
    pub top: usize,
    /// How many it may have beside the frames and handlers.
    pub room: usize,
    /// What is left of the budget.
    pub left: u64,
}
