// How many references are spent at a clock.
ghost use Rattle.std.specs.Prelude.{◌≡◌, true, ◌≤◌, length};
ghost use Rattle.runs.specs.Words.{repeated, kept_in};
ghost use Rattle.runs.specs.Shape.{shaped};
ghost use Rattle.keeping.specs.Steps.{count_passed};

use runs::Run;
use window::Passed;

// Inner: how many references of a run have passed. Callers show that a reference lasts.
pub(crate) fn count_passed_of(passed: Passed, run: Run) -> u64
    requires { 1 ≤ run.span.0 }
    ensures { result ≡ count_passed passed (repeated run.start.0 run.span.0 run.count) }
{
    match passed {
        Passed::All => run.count,
        Passed::Upto(t) => run.passed_by(t),
    }
}

// Inner: how many of the kept references, of which the caller has the total, have passed. Callers show
// that the table is shaped. One match for this and the above would take a closure: no plainer.
pub fn count_passed(passed: Passed, table: &[u64], used: usize, total: u64) -> u64
    requires { (shaped used table.now ≡ true) × (total ≡ length (kept_in used table.now)) }
    ensures { result ≡ count_passed passed (kept_in used table.now) }
{
    match passed {
        Passed::All => total,
        Passed::Upto(t) => runs::table::passed_upto(table, used, t),
    }
}
