// Append, over a record that is lent.
ghost use Rattle.std.specs.Prelude.{◌≡◌};
ghost use Rattle.units.specs.Standing.{tick_standing, stamp_standing};
ghost use Rattle.timeline.specs.Appending.{append_answer, append_table};

use agreement::Record;
use keeping::Outcome;
use units::{Stamp, WideTick};

// Appends references whose start is a full tick.
pub fn append(
    rec: &mut Record,
    table: &mut [u64],
    start: WideTick,
    duration: u32,
    count: u32,
) -> Outcome
    ensures value { result ≡ (append_answer rec.old table.old (tick_standing start rec.old.next) duration count).outcome }
    ensures rec_after { rec.new ≡ (append_answer rec.old table.old (tick_standing start rec.old.next) duration count).rec }
    ensures table_after { table.new ≡ append_table rec.old table.old (tick_standing start rec.old.next) duration count }
{
    timeline::append(*rec, table, start, duration, count).store(rec)
}

// Appends references whose start is a 32-bit stamp.
pub fn append_stamp(
    rec: &mut Record,
    table: &mut [u64],
    stamp: Stamp,
    duration: u32,
    count: u32,
) -> Outcome
    ensures value { result ≡ (append_answer rec.old table.old (stamp_standing stamp rec.old.next) duration count).outcome }
    ensures rec_after { rec.new ≡ (append_answer rec.old table.old (stamp_standing stamp rec.old.next) duration count).rec }
    ensures table_after { table.new ≡ append_table rec.old table.old (stamp_standing stamp rec.old.next) duration count }
{
    timeline::append_stamp(*rec, table, stamp, duration, count).store(rec)
}
