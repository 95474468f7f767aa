//! Callers of a run, of `play` and of `list`, each of which concludes what its own users want to know. They cite promises and
//! exported lemmas alone; docs/CALLING.md goes through them.
pub mod asking;
pub mod first_round;
pub mod listed;
pub mod played;
pub mod rounds;
