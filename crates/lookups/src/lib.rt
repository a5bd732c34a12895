// The calls that look one thing up: when the reference of a number is available, which runs touch a
// span, and the full tick of a stamp. None of them changes a word.
#![tactic(auto)]

use units::Grain;

mod numbers;
pub mod spans;
pub mod stamps;
pub mod times;

// From a point up to another, that one excluded; or from a point on.
#[derive(Clone, Copy)]
pub enum Availability {
    Ends(Grain, Grain),
    NeverEnds(Grain),
}

// The words from one up to another, that one excluded: both 0 if no run touches.
#[derive(Clone, Copy)]
pub struct Words {
    pub from: usize,
    pub to: usize,
}
