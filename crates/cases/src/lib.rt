// What the test programs share: reading files of cases, storing into buffers, and counting answers.
#![tactic(auto)]

mod fields;
mod read;
mod store;
mod tally;

pub use fields::{Cases, behind_fields, behind_long_field, long_field, nth_field};
pub use read::{behind, byte, front, number, number32, word};
pub use store::{load, put, put_all, zeros};
pub use tally::{Agreement, line, more};
