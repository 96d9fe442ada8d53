// children.rs: which trivia belongs to which child. A reading is walked, and no list is stored.
#![tactic(auto)]

pub mod around;
pub mod between;
pub mod gap;
pub mod newlines;
pub mod survey;
mod tally;
mod turn;

pub use tally::Tally;
pub use turn::note_kinds;
