// The rules of time: where ticks and milliseconds stand, and what a clock needs of them.
#![tactic(auto)]

ghost use Rattle.std.specs.Prelude.{◌≡◌};
ghost use Rattle.window.specs.Limits.{head_held, fields_of, head_made};

use units::{Limited, Millis, Number, Span, Tick, Timescale, WideTick};

mod edges;
mod held;
mod questions;

pub use held::HeldHead;

// What a timeline is opened with. Every rule about time asks a head.
#[derive(Clone, Copy, Default)]
pub struct Head {
    pub timescale: Timescale,
    pub offset: Tick,
    pub start: Millis,
    pub duration: Millis,
    pub depth: Millis,
    pub first: Number,
    pub update: Millis,
}

// The fields of a head as they come, each any number of 64 bits: `Head::new` makes a head of them.
#[derive(Clone, Copy)]
pub struct HeadFields {
    pub timescale: u64,
    pub offset: u64,
    pub start: u64,
    pub duration: u64,
    pub depth: u64,
    pub first: u64,
    pub update: u64,
}

// One media segment: where it starts, and for how many ticks it lasts.
#[derive(Clone, Copy)]
pub struct Reference {
    pub start: Tick,
    pub span: Span,
}

// Which ends a clock has passed: every one, or those up to a tick.
// No Option: its None would have to mean that every end is passed, which is no plainer.
#[derive(Clone, Copy)]
pub enum Passed {
    All,
    Upto(WideTick),
}

// The ticks that a window needs: those from the first up to the end, that one excluded.
#[derive(Clone, Copy)]
pub struct Ticks {
    pub first: WideTick,
    pub end: WideTick,
}

impl Head {
    // Whether each field is within the limit of its unit.
    pub fn held(self) -> bool
        ensures { result ≡ head_held self }
    {
        self.timescale.held()
            && self.offset.held()
            && self.start.held()
            && self.duration.held()
            && self.depth.held()
            && self.first.held()
            && self.update.held()
    }

    // The head of some fields, where each is within the limit of its unit.
    pub fn new(fields: HeadFields) -> Option<Self>
        ensures { result ≡ head_made fields }
    {
        Some(Head {
            timescale: Timescale::new(fields.timescale)?,
            offset: Tick::new(fields.offset)?,
            start: Millis::new(fields.start)?,
            duration: Millis::new(fields.duration)?,
            depth: Millis::new(fields.depth)?,
            first: Number::new(fields.first)?,
            update: Millis::new(fields.update)?,
        })
    }
}

// The fields of a head, as a line of a file has them.
impl From<Head> for HeadFields {
    ghost from_gives = { λ head fields. fields ≡ fields_of head };

    fn from(head: Head) -> HeadFields {
        HeadFields {
            timescale: head.timescale.0,
            offset: head.offset.0,
            start: head.start.0,
            duration: head.duration.0,
            depth: head.depth.0,
            first: head.first.0,
            update: head.update.0,
        }
    }
}
