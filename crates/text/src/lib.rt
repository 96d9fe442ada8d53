// Byte leaves: UTF-8, white space, padding and lines of byte strings.
#![tactic(auto)]

mod class;
mod lines;
mod prefix;
mod utf8;
mod white;

pub use lines::{line_end, line_feeds};
pub use prefix::{behind, common_ws_prefix, ends_with, front, starts_with};
pub use utf8::is_utf8;
pub use white::{trim, trim_end};
