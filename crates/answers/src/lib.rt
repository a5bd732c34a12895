// The calls that judge the window: what is needed and covered, in percent too, and up to which clock
// the window ends in what was appended. None of them changes a word.
#![tactic(auto)]

use units::WideTick;

pub mod edges;
pub mod shares;
pub mod verdicts;

// Nothing is needed; or the needed count, all covered; or the needed count, the covered count and
// the lowest needed tick that is not covered.
#[derive(Clone, Copy)]
pub enum Verdict {
    Nothing,
    Complete(u64),
    Lacking(u64, u64, WideTick),
}
