// Append and trim over a record that is lent and changed in place, so that no older copy of it is left to
// pass by mistake. Each calls the function that takes the record by value, stores the record that it answers,
// and answers the outcome alone: nothing is decided here.
#![tactic(auto)]

mod appending;
mod pairing;
mod trimming;

pub use appending::{append, append_stamp};
pub use pairing::append_trim;
pub use trimming::trim;
