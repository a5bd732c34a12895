// The used runs of a table, one after another.
ghost use Rattle.std.specs.Prelude.{◌≡◌, ◌*◌, ◌≤◌, length};
ghost use Rattle.std.specs.Iterator.{YieldsFirst, item_count};
ghost use Rattle.runs.specs.Words.{runs_of};
ghost use Rattle.runs.specs.Walk.{runs_left};

use crate::Run;
use units::{Span, Tick};

// The words of the runs that are left.
#[derive(Drop)]
pub struct Runs<'a> {
    words: &'a [u64],
}

impl<'a> Runs<'a> {
    // Inner, since the words must be there: the first so many runs of a table.
    pub fn of(table: &'a [u64], used: usize) -> Self
        requires { 3 * used ≤ length table.now }
        ensures { runs_left result ≡ runs_of used table.now }
    {
        Runs {
            words: &table[..3 * used],
        }
    }
}

impl Iterator for Runs<'_> {
    type Item = Run;

    ghost next_gives = { YieldsFirst runs_left };

    ghost remaining = { item_count runs_left };

    fn next(&mut self) -> Option<Run> {
        let [start, span, count, rest @ ..] = self.words else {
            return None;
        };
        self.words = rest;
        Some(Run {
            start: Tick(*start),
            span: Span(*span),
            count: *count,
        })
    }
}
