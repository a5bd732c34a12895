// The words of a table as runs: reading and writing a run, counting the references that have passed,
// dropping references from the front and storing them at the end.
ghost use Rattle.std.specs.Prelude.{◌≡◌, true, ◌+◌, ◌-◌, ◌≤◌, ◌<◌, length, drop, replicate};
ghost use Rattle.runs.specs.Words.{run_at, runs_of, capacity, kept_in};
ghost use Rattle.runs.specs.Encoding.{runs_for, table_of, canonical, needs_run};
ghost use Rattle.runs.specs.Shape.{shaped};
ghost use Rattle.runs.specs.Steps.{passed_upto, with_run, CutAt, kept_with, Storable};

use crate::{Run, Runs};
use units::{Span, Tick, WideTick};

// Where a drop cuts the runs: so many whole runs go, and so many references of the run behind them.
#[derive(Clone, Copy)]
struct Cut {
    whole: usize,
    into: u64,
}

// Inner, since its words must be there: the run whose first word stands at place i.
pub fn run_at(table: &[u64], i: usize) -> Run
    requires { i + 2 < length table.now }
    ensures { result ≡ run_at table.now i }
{
    Run {
        start: Tick(table[i]),
        span: Span(table[i + 1]),
        count: table[i + 2],
    }
}

// Inner, since the words must be there: writes a run over the three from place i on.
fn put_run(table: &mut [u64], i: usize, run: Run)
    requires { i + 2 < length table.old }
    ensures { table.new ≡ with_run table.old i run }
{
    table[i] = run.start.0;
    table[i + 1] = run.span.0;
    table[i + 2] = run.count;
}

// Inner, since the table must be shaped: how many kept references have passed by a tick. The first
// run that has not passed whole is the last to look at, since those behind it end later.
pub fn passed_upto(table: &[u64], used: usize, t: WideTick) -> u64
    requires { shaped used table.now ≡ true }
    ensures { result ≡ passed_upto t.0 (kept_in used table.now) }
{
    let mut passed = 0;
    for run in Runs::of(table, used) {
        let here = run.passed_by(t);
        if here < run.count {
            return passed + here;
        }
        passed += here;
    }
    passed
}

// Inner, since the table must be shaped: where a drop cuts the runs.
fn cut_at(table: &[u64], used: usize, dropped: u64) -> Cut
    requires { shaped used table.now ≡ true }
    ensures { CutAt dropped (runs_of used table.now) result.whole result.into }
{
    let mut into = dropped;
    for (whole, run) in Runs::of(table, used).enumerate() {
        if into < run.count {
            return Cut { whole, into };
        }
        into -= run.count;
    }
    Cut { whole: used, into }
}

// Inner, as a step of opening and dropping: sets every word to 0.
pub fn clear(words: &mut [u64])
    ensures { words.new ≡ replicate (length words.old) 0 }
{
    words.fill(0);
}

// Inner, since the table must be shaped and have the runs: removes whole runs from the front, and
// answers how many are left.
fn remove_runs(table: &mut [u64], used: usize, dropped: usize) -> usize
    requires table_value { shaped used table.old ≡ true }
    requires dropped_le_used { dropped ≤ used }
    ensures value { result ≡ used - dropped }
    ensures table_after { table.new ≡ table_of (length table.old) (drop dropped (runs_of used table.old)) }
{
    if dropped == 0 {
        return used;
    }
    let left = used - dropped;
    let words = left * 3;
    let end = used * 3;
    table.copy_within(dropped * 3..end, 0);
    clear(&mut table[words..end]);
    left
}

// Inner, since the table must be shaped: drops references from the front, and answers how many runs
// are left.
pub fn drop_front(table: &mut [u64], used: usize, dropped: u64) -> usize
    requires { shaped used table.old ≡ true }
    ensures value { result ≡ runs_for (drop dropped (kept_in used table.old)) }
    ensures table_after { table.new ≡ canonical (length table.old) (drop dropped (kept_in used table.old)) }
{
    let cut = cut_at(table, used, dropped);
    let left = remove_runs(table, used, cut.whole);
    if left == 0 {
        return 0;
    }
    let first = run_at(table, 0);
    put_run(table, 0, first.less_first(cut.into));
    left
}

// Inner, since the table must be shaped: whether references of a duration need a run of their own.
pub fn needs_run(table: &[u64], used: usize, span: Span) -> bool
    requires { shaped used table.now ≡ true }
    ensures { result ≡ needs_run used table.now span.0 }
{
    used == 0 || run_at(table, used * 3 - 3).span.0 != span.0
}

// Inner, since the references must join, be within the limits and find room: stores them behind those
// that are kept, and answers how many runs are used then.
pub fn store(table: &mut [u64], used: usize, start: Tick, span: Span, count: u64) -> usize
    requires storable { Storable used table.old start span count }
    requires count_bound { runs_for (kept_with used table.old start span count) ≤ capacity table.old }
    ensures value { result ≡ runs_for (kept_with used table.old start span count) }
    ensures table_after { table.new ≡ canonical (length table.old) (kept_with used table.old start span count) }
{
    if needs_run(table, used, span) {
        put_run(table, used * 3, Run { start, span, count });
        return used + 1;
    }
    let place = used * 3 - 3;
    let last = run_at(table, place);
    let count = last.count + count;
    put_run(table, place, Run { count, ..last });
    used
}
