// One call for a segment: an append by stamp, and then a trim. Agreement is tested once: an append,
// accepted or refused, leaves what agrees.
ghost use Rattle.std.specs.Prelude.{◌≡◌, true, ◌≤◌};
ghost use Rattle.units.specs.Limits.{largest_millis};
ghost use Rattle.units.specs.Standing.{stamp_standing};
ghost use Rattle.agreement.specs.Agreement.{agrees};
ghost use Rattle.keeping.specs.Keeping.{words_keeping, changed_by, words_by};
ghost use Rattle.timeline.specs.Trimming.{unspent_at, trimmed};
ghost use Rattle.timeline.specs.Pair.{pair_answer, pair_table};

use crate::appending::append_standing;
use crate::trimming::trim_agreeing;
use agreement::{Record, Refusal};
use keeping::Changed;
use units::{Limited, Millis, Stamp, Start, WideMillis};

// Inner: callers show that record and table agree and that the clock is held. A refused append stops it.
fn trim_appended(appended: Changed, table: &mut [u64], clock: Millis) -> Changed
    requires { (agrees appended.rec table.old ≡ true) × (clock.0 ≤ largest_millis) }
    ensures value { result ≡ changed_by appended.outcome (trimmed appended.rec table.old clock.0) appended.rec }
    ensures table_after { table.new ≡ words_by appended.outcome (words_keeping table.old (unspent_at appended.rec table.old clock.0)) table.old }
{
    let outcome = appended.outcome;
    match outcome {
        Ok(()) => Changed::accepted(trim_agreeing(appended.rec, table, clock)),
        Err(_) => appended,
    }
}

// Appends references whose start is a 32-bit stamp and trims at a clock, for any record, any words and
// any clock.
pub fn append_trim(
    rec: Record,
    table: &mut [u64],
    stamp: Stamp,
    duration: u32,
    count: u32,
    clock: WideMillis,
) -> Changed
    ensures value { result ≡ pair_answer rec table.old (stamp_standing stamp rec.next) duration count clock }
    ensures table_after { table.new ≡ pair_table rec table.old (stamp_standing stamp rec.next) duration count clock }
{
    if !rec.agrees(table) {
        return Changed::refused(Refusal::Disagreement, rec);
    }
    let Some(at) = Millis::new(clock.0) else {
        return Changed::refused(Refusal::ClockLimit, rec);
    };
    let appended = append_standing(rec, table, stamp.against(rec.next), duration, count);
    trim_appended(appended, table, at)
}
