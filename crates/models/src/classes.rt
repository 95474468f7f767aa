/// How a controller sends in one round.
#[derive(Clone, Copy, PartialEq, Eq, Debug)]
pub enum Class {
    /// It sends what the protocol says.
    Honest,
    /// It sends nothing.
    Silent,
    /// It sends a forged message, the same to all.
    Uniform,
    /// It sends forged messages, to each receiver another if it likes.
    Free,
}

/// How many controllers of a block misbehave in one round at most.
#[derive(Clone, Copy, PartialEq, Eq, Debug)]
pub struct Counts {
    /// At most so many are not honest.
    pub b: usize,
    /// At most so many are free.
    pub e: usize,
    /// At most so many are free or uniform.
    pub l: usize,
}
