// Trimming: the greatest clock rises, and what is spent then is dropped.
ghost use Rattle.std.specs.Prelude.{◌≡◌, true, ◌≤◌};
ghost use Rattle.units.specs.Limits.{largest_millis};
ghost use Rattle.agreement.specs.Agreement.{agrees};
ghost use Rattle.keeping.specs.Keeping.{words_keeping};
ghost use Rattle.timeline.specs.Trimming.{unspent_at, trimmed, trim_answer, trim_table};

use agreement::{Record, Refusal};
use keeping::{Changed, count_passed};
use units::{Limited, Millis, WideMillis};
use window::HeldHead;

// Inner: callers show that record and table agree and that the clock is held.
pub(crate) fn trim_agreeing(rec: Record, table: &mut [u64], clock: Millis) -> Record
    requires { (agrees rec table.old ≡ true) × (clock.0 ≤ largest_millis) }
    ensures value { result ≡ trimmed rec table.old clock.0 }
    ensures table_after { table.new ≡ words_keeping table.old (unspent_at rec table.old clock.0) }
{
    let greatest = Millis(rec.clock.0.max(clock.0));
    let head = HeldHead { head: rec.head };
    let passed = head.passed_ends(greatest);
    let used = rec.used;
    let spent = count_passed(passed, table, used, rec.accepted - rec.dropped);
    let then = runs::table::drop_front(table, used, spent);
    Record {
        dropped: rec.dropped + spent,
        clock: greatest,
        used: then,
        ..rec
    }
}

// Trims at a clock, for any record, any words and any clock.
pub fn trim(rec: Record, table: &mut [u64], clock: WideMillis) -> Changed
    ensures value { result ≡ trim_answer rec table.old clock }
    ensures table_after { table.new ≡ trim_table rec table.old clock }
{
    if !rec.agrees(table) {
        return Changed::refused(Refusal::Disagreement, rec);
    }
    let Some(at) = Millis::new(clock.0) else {
        return Changed::refused(Refusal::ClockLimit, rec);
    };
    Changed::accepted(trim_agreeing(rec, table, at))
}
