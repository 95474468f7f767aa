use crate::calls::{Call, Opening, Place};
use crate::turns::{Block, Seating, Turn};
use models::Set;
use values::Cell;

/// A call that comes at its turn, with what it finds there.
#[derive(Clone, Copy)]
pub enum Due<'c, R> {
    /// An open of an idle run.
    Open(Opening<'c, R>),
    /// A seat, with the block that waits.
    Seat(Block, Set),
    /// A forge, with the block and the round that is seated.
    Forge(Block, Seating, Place, Cell<R>),
    /// A close, with the block and the round that is seated.
    Close(Block, Seating),
    /// A decision, with the block, which waits or is seated.
    Decision(Block, usize),
}
