// One pass over the words: the used runs, each held and joined to the one before it, then zeros.
ghost use Rattle.std.specs.Prelude.{◌≡◌, ◌*◌, ◌≤◌, ◌==◌, length};
ghost use Rattle.std.specs.List.{list_all};
ghost use Rattle.runs.specs.Words.{runs_of};
ghost use Rattle.agreement.specs.Finding.{found};

use crate::Found;
use runs::Runs;

// Inner: callers show that the used runs are there.
pub(crate) fn scan(table: &[u64], used: usize) -> Found
    requires { 3 * used ≤ length table.now }
    ensures { result ≡ found (runs_of used table.now) }
{
    let mut runs = Runs::of(table, used);
    let Some(first) = runs.next() else {
        return Found::Nothing;
    };
    if !first.held() {
        return Found::Unshaped;
    }
    let mut last = first;
    let mut total = first.count;
    for run in runs {
        if !last.joins(run) || !run.held() {
            return Found::Unshaped;
        }
        total += run.count;
        last = run;
    }
    Found::Kept(first.reference(0), last.reference(last.count - 1), total)
}

// Whether all words are 0.
pub(crate) fn all_zero(words: &[u64]) -> bool
    ensures { result ≡ list_all (λ w. w == 0) words.now }
{
    words.iter().all(|word| *word == 0)
}
