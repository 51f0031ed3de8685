// What an instruction comes to within the loop.

/// What one instruction comes to. All but `Going` and `Halted` leave everything as it was.
#[derive(Clone, Copy)]
pub enum Row {
    Going,
    Halted,
    /// The stack's slots are full, and there may be more.
    Full,
    /// The instruction isn't made within the loop.
    Slow,
    Overflow,
    DivByZero,
    Stuck,
    Budget,
    StackFull,
    NoPage,
    NoMemory,
}
