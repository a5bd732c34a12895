// The table of runs: words as runs, runs as references, and the inner steps that drop and store
// references.
#![tactic(auto)]

ghost use Rattle.std.specs.Prelude.{◌≡◌, true, ◌≤◌};
ghost use Rattle.units.specs.Limits.{largest_tick};
ghost use Rattle.runs.specs.Words.{run_end, repeated, reference_behind};
ghost use Rattle.runs.specs.Shape.{run_held, follows};
ghost use Rattle.runs.specs.Steps.{passed_upto, Less};

use units::{Limited, Span, Tick, WideTick};
use window::Reference;

pub mod table;
mod walk;

pub use walk::Runs;

// References of one duration that join: where the first starts, how long each lasts, how many.
#[derive(Clone, Copy)]
pub struct Run {
    pub start: Tick,
    pub span: Span,
    pub count: u64,
}

impl Run {
    // Whether a run of any words is within the limits. Its end is compared by a division: the sum and
    // the product may pass 64 bits.
    pub fn held(self) -> bool
        ensures { result ≡ run_held self }
    {
        if !self.span.held() || self.count == 0 || Tick::LARGEST < self.start.0 {
            return false;
        }
        self.count <= (Tick::LARGEST - self.start.0) / self.span.0
    }

    // Inner, since it must be held: its end.
    pub fn end(self) -> Tick
        requires { run_held self ≡ true }
        ensures { result.0 ≡ run_end self }
    {
        Tick(self.start.0 + self.span.0 * self.count)
    }

    // Inner, since it must be held: whether the next run begins where this one ends, with another
    // duration.
    pub fn joins(self, next: Run) -> bool
        requires { run_held self ≡ true }
        ensures { result ≡ follows self next }
    {
        let end = self.end();
        end.0 == next.start.0 && self.span.0 != next.span.0
    }

    // Inner, since it must be held and have as many: its reference behind n others.
    pub fn reference(self, n: u64) -> Reference
        requires held { run_held self ≡ true }
        requires there { n ≤ self.count }
        ensures { result ≡ reference_behind self n }
    {
        Reference {
            start: Tick(self.start.0 + self.span.0 * n),
            span: self.span,
        }
    }

    // Inner, since a reference must last: how many of its references have passed by a tick.
    pub fn passed_by(self, t: WideTick) -> u64
        requires { 1 ≤ self.span.0 }
        ensures { result ≡ passed_upto t.0 (repeated self.start.0 self.span.0 self.count) }
    {
        // The difference stops at 0 where the run starts after the tick.
        let ticks = t.0.saturating_sub(self.start.0);
        self.count.min(ticks / self.span.0)
    }

    // Inner, since it must have them and end within the limit: this run less its first references. Its
    // start moves on, and its end stays.
    pub(crate) fn less_first(self, dropped: u64) -> Run
        requires { (dropped ≤ self.count) × (run_end self ≤ largest_tick) }
        ensures { Less dropped self result }
    {
        Run {
            start: Tick(self.start.0 + self.span.0 * dropped),
            count: self.count - dropped,
            ..self
        }
    }
}
