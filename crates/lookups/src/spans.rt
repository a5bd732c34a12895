// The runs that touch a span of ticks. The first is sought from the front and the last from the
// back, so that no run between them is looked at.
ghost use Rattle.std.specs.Prelude.{◌≡◌, true, ◌<◌, length};
ghost use Rattle.runs.specs.Words.{runs_of};
ghost use Rattle.runs.specs.Shape.{run_held, shaped};
ghost use Rattle.lookups.specs.Spans.{touches, before_first, upto_last, touched_words, touching_words, part_of};
ghost use Rattle.lookups.specs.Steps.{InTable};

use crate::Words;
use agreement::{Record, Refusal};
use runs::{Run, Runs};
use units::WideTick;

// Inner, since the run must be held and the span not empty: whether the one touches the other.
fn run_touches(run: Run, a: WideTick, b: WideTick) -> bool
    requires { (run_held run ≡ true) × (a.0 < b.0) }
    ensures { result ≡ touches a.0 b.0 run }
{
    run.start.0 < b.0 && a.0 < run.end().0
}

// Inner, since the table must be shaped: how many runs stand before the first that touches.
fn before_first(table: &[u64], used: usize, a: WideTick, b: WideTick) -> usize
    requires { (shaped used table.now ≡ true) × (a.0 < b.0) }
    ensures { result ≡ before_first (touches a.0 b.0) (runs_of used table.now) }
{
    for (before, run) in Runs::of(table, used).enumerate() {
        if run_touches(run, a, b) {
            return before;
        }
    }
    used
}

// Inner, since the table must be shaped: how many runs stand up to the last that touches.
fn upto_last(table: &[u64], used: usize, a: WideTick, b: WideTick) -> usize
    requires { (shaped used table.now ≡ true) × (a.0 < b.0) }
    ensures { result ≡ upto_last (touches a.0 b.0) (runs_of used table.now) }
{
    // By place: Runs takes any number of words, so that no run need stand at their end.
    for j in (0..used).rev() {
        let run = runs::table::run_at(table, j * 3);
        if run_touches(run, a, b) {
            return j + 1;
        }
    }
    0
}

// Inner, since the table must be shaped: the words of the touching runs.
fn touched(table: &[u64], used: usize, a: WideTick, b: WideTick) -> Words
    requires { (shaped used table.now ≡ true) × (a.0 < b.0) }
    ensures { result ≡ touched_words a.0 b.0 (runs_of used table.now) }
{
    let upto = upto_last(table, used, a, b);
    if upto == 0 {
        return Words { from: 0, to: 0 };
    }
    let first = before_first(table, used, a, b);
    Words {
        from: 3 * first,
        to: 3 * upto,
    }
}

// Inner, since the words must lie in the table: the part that an answer names.
fn part<'a>(table: &'a [u64], words: Result<Words, Refusal>) -> &'a [u64]
    requires { InTable (length table.now) words }
    ensures { result.now ≡ part_of words table.now }
{
    match words {
        Ok(words) => &table[words.from..words.to],
        Err(_) => &[],
    }
}

// The words from the first to the last run that touches the ticks from a up to b, that one excluded,
// for any record, any words and any ticks.
pub fn touching_words(
    rec: Record,
    table: &[u64],
    a: WideTick,
    b: WideTick,
) -> Result<Words, Refusal>
    ensures { result ≡ touching_words rec table.now a b }
{
    if !rec.agrees(table) {
        return Err(Refusal::Disagreement);
    }
    if b.0 <= a.0 {
        return Err(Refusal::EmptySpan);
    }
    Ok(touched(table, rec.used, a, b))
}

// The same as a part of the caller's own words; empty where no run touches or the call is refused.
pub fn touching<'a>(rec: Record, table: &'a [u64], a: WideTick, b: WideTick) -> &'a [u64]
    ensures { result.now ≡ part_of (touching_words rec table.now a b) table.now }
{
    part(table, touching_words(rec, table, a, b))
}
