// One call for a segment, over a record that is lent.
ghost use Rattle.std.specs.Prelude.{◌≡◌};
ghost use Rattle.units.specs.Standing.{stamp_standing};
ghost use Rattle.timeline.specs.Pair.{pair_answer, pair_table};

use agreement::Record;
use keeping::Outcome;
use units::{Stamp, WideMillis};

// Appends references whose start is a 32-bit stamp, and trims at a clock.
pub fn append_trim(
    rec: &mut Record,
    table: &mut [u64],
    stamp: Stamp,
    duration: u32,
    count: u32,
    clock: WideMillis,
) -> Outcome
    ensures value { result ≡ (pair_answer rec.old table.old (stamp_standing stamp rec.old.next) duration count clock).outcome }
    ensures rec_after { rec.new ≡ (pair_answer rec.old table.old (stamp_standing stamp rec.old.next) duration count clock).rec }
    ensures table_after { table.new ≡ pair_table rec.old table.old (stamp_standing stamp rec.old.next) duration count clock }
{
    timeline::append_trim(*rec, table, stamp, duration, count, clock).store(rec)
}
