// The record of a timeline, and whether a record and a table agree.
#![tactic(auto)]

use units::{Millis, Tick};
use window::{Head, Reference};

mod judge;
mod refusal;
mod scan;

pub use judge::{counts_held, is_passed};
pub use refusal::{Refusal, distance_of, number_of};

// What is kept beside the table: the head, the counts, the next tick, the greatest clock.
#[derive(Clone, Copy, Default)]
pub struct Record {
    pub head: Head,
    pub accepted: u64,
    pub dropped: u64,
    pub next: Tick,
    pub clock: Millis,
    pub used: usize,
}

// What a pass over the used runs finds: a run out of shape, no run, or the first and the last
// reference with how many there are.
#[derive(Clone, Copy)]
pub enum Found {
    Unshaped,
    Nothing,
    Kept(Reference, Reference, u64),
}
