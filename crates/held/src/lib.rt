// For a caller that passes its record by value: the calls over a lent record, each over a record that the
// function holds itself, and a segment that makes two of them.
#![tactic(auto)]

mod following;
mod lending;

pub use following::{Followed, follow};
pub use lending::{append, append_stamp, append_trim, trim};
