// A file read into a table, as opening plus appends, at once or piece by piece.
#![tactic(auto)]

use agreement::{Record, Refusal};
use keeping::Outcome;

mod feeding;
mod judge;
mod lines;

pub use feeding::{begin, feed, finish, read, settled};
pub use lines::line_end;

// Which line may come next: the head, an S line, an S line or the end, the end alone after a negative
// r, nothing more; or no line matters, since one was refused. An enum and no `Result`: a reading that is
// refused keeps its lines, which `answered_by` counts from.
#[derive(Clone, Copy)]
pub enum Stage {
    Nothing,
    Headed,
    Open,
    Filled,
    Ended,
    Refused(Refusal),
}

// How far a file is read: the stage, the lines taken, and the record that they opened and appended to.
#[derive(Clone, Copy)]
pub struct Reading {
    pub stage: Stage,
    pub lines: u64,
    pub rec: Record,
}

// The first bytes of a line that is not ended, how many they are, and zeros behind them. One byte more
// than the longest frame has is enough to see that a line is too long. An array and no `Vec`, since
// nothing here allocates.
#[derive(Clone, Copy)]
pub struct LineSoFar {
    pub bytes: [u8; lines::MOST_BYTES],
    pub count: usize,
}

// A reader that is fed a file piece by piece: how far it is, and the line that is not ended yet. `begin`
// makes one, and `feed` and `finish` refuse one that does not belong to the table lent with it.
#[derive(Clone, Copy)]
pub struct Reader {
    pub reading: Reading,
    pub line: LineSoFar,
}

// What a reading came to: the record, zero where the file is refused, and then the refused line. All three
// stand beside one another, since the paper has a refused reading return a zero record with the line
// (`answered_by`).
#[derive(Clone, Copy)]
pub struct ReadAnswer {
    pub outcome: Outcome,
    pub rec: Record,
    pub line: u64,
}
