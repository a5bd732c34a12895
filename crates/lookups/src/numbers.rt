// The kept reference of a number: one walk over the runs, whatever their counts.
ghost use Rattle.std.specs.Prelude.{◌≡◌, true};
ghost use Rattle.runs.specs.Words.{kept_in};
ghost use Rattle.runs.specs.Shape.{shaped};
ghost use Rattle.agreement.specs.Agreement.{agrees};
ghost use Rattle.lookups.specs.Available.{numbered, kept_number};

use agreement::Record;
use runs::Runs;
use units::{Limited, Number, WideNumber};
use window::Reference;

// Inner, since the table must be shaped: the reference that stands behind n others.
fn nth(table: &[u64], used: usize, n: u64) -> Option<Reference>
    requires { shaped used table.now ≡ true }
    ensures { result ≡ numbered 0 (kept_in used table.now) n }
{
    let mut skip = n;
    for run in Runs::of(table, used) {
        if skip < run.count {
            return Some(run.reference(skip));
        }
        skip -= run.count;
    }
    None
}

// Inner, since record and table must agree: the kept reference of a number.
fn kept_number(rec: Record, table: &[u64], number: Number) -> Option<Reference>
    requires { agrees rec table.now ≡ true }
    ensures { result ≡ kept_number rec table.now number.0 }
{
    let first = rec.head.first.0 + rec.dropped;
    let place = number.0.checked_sub(first)?;
    nth(table, rec.used, place)
}

// Inner, since record and table must agree: the kept reference of any number. One beyond the limit is
// none that is kept.
pub(crate) fn asked_number(rec: Record, table: &[u64], number: WideNumber) -> Option<Reference>
    requires { agrees rec table.now ≡ true }
    ensures { result ≡ kept_number rec table.now number.0 }
{
    kept_number(rec, table, Number::new(number.0)?)
}
