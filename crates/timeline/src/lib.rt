// The calls that change a timeline: open, append, trim, and append then trim in one. Each takes any record and any table, and
// answers an outcome with the record beside it.
#![tactic(auto)]

mod appending;
mod opening;
mod pairing;
mod trimming;

pub use appending::{append, append_stamp};
pub use opening::{open, zero_record};
pub use pairing::append_trim;
pub use trimming::trim;
