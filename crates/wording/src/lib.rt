// The text of the answer: a verdict or a refusal as one line.
#![tactic(auto)]

use agreement::Refusal;
use answers::Verdict;

mod lines;
mod parts;

pub use lines::put_line;

// Why the clock line, a line of the file or the verdict was refused, and at which line: 0 where it is none
// of the file's.
#[derive(Clone, Copy)]
pub struct RefusedLine {
    pub why: Refusal,
    pub line: u64,
}

// What is told: a verdict, or a refusal.
pub type Reply = Result<Verdict, RefusedLine>;
