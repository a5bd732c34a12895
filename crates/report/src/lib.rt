// The program's work, from the bytes of its input to the bytes of its answer: the clock line, the file,
// the verdict, and the one line that tells it, whose text is that of `wording`.
#![tactic(auto)]

use agreement::Refusal;
use units::Millis;

mod asking;
mod feeding;
mod replying;
mod running;

pub use feeding::{begin, feed, settled};
pub use replying::{answer, answer_whole};
pub use running::run;

// The verdict that is asked: at a clock, or of the whole period.
#[derive(Clone, Copy)]
pub enum Asked {
    At(Millis),
    Whole,
}

// How far the input is read: what its clock line asks, or why that line is refused, once it is ended; that
// line until it is; and the reader of the file.
#[derive(Clone, Copy)]
pub struct Desk {
    pub asked: Option<Result<Asked, Refusal>>,
    pub line: file::LineSoFar,
    pub reader: file::Reader,
}

// Why the program stopped reading: its input has ended, or its answer is settled. A read that failed is an
// error, and so are turns of its loop that are used up.
#[derive(Clone, Copy)]
pub enum Stopped {
    Ended,
    Settled,
}

// The desk when the reads stopped, and why they did.
#[derive(Clone, Copy)]
pub struct Fed {
    pub desk: Desk,
    pub stopped: Stopped,
}

// The length of the answer's line, and why the reads stopped.
#[derive(Clone, Copy)]
pub struct Made {
    pub count: usize,
    pub stopped: Stopped,
}
