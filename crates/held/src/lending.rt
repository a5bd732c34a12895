// The record is lent for one call, and comes back beside the outcome.
ghost use Rattle.std.specs.Prelude.{◌≡◌};
ghost use Rattle.units.specs.Standing.{tick_standing, stamp_standing};
ghost use Rattle.timeline.specs.Appending.{append_answer, append_table};
ghost use Rattle.timeline.specs.Trimming.{trim_answer, trim_table};
ghost use Rattle.timeline.specs.Pair.{pair_answer, pair_table};

use agreement::Record;
use keeping::Changed;
use units::{Stamp, WideMillis, WideTick};

// Appends references whose start is a full tick.
pub fn append(
    mut rec: Record,
    table: &mut [u64],
    start: WideTick,
    duration: u32,
    count: u32,
) -> Changed
    ensures value { result ≡ append_answer rec table.old (tick_standing start rec.next) duration count }
    ensures table_after { table.new ≡ append_table rec table.old (tick_standing start rec.next) duration count }
{
    let outcome = lent::append(&mut rec, table, start, duration, count);
    Changed { outcome, rec }
}

// Appends references whose start is a 32-bit stamp.
pub fn append_stamp(
    mut rec: Record,
    table: &mut [u64],
    stamp: Stamp,
    duration: u32,
    count: u32,
) -> Changed
    ensures value { result ≡ append_answer rec table.old (stamp_standing stamp rec.next) duration count }
    ensures table_after { table.new ≡ append_table rec table.old (stamp_standing stamp rec.next) duration count }
{
    let outcome = lent::append_stamp(&mut rec, table, stamp, duration, count);
    Changed { outcome, rec }
}

// Appends references whose start is a 32-bit stamp, and trims at a clock.
pub fn append_trim(
    mut rec: Record,
    table: &mut [u64],
    stamp: Stamp,
    duration: u32,
    count: u32,
    clock: WideMillis,
) -> Changed
    ensures value { result ≡ pair_answer rec table.old (stamp_standing stamp rec.next) duration count clock }
    ensures table_after { table.new ≡ pair_table rec table.old (stamp_standing stamp rec.next) duration count clock }
{
    let outcome = lent::append_trim(&mut rec, table, stamp, duration, count, clock);
    Changed { outcome, rec }
}

// Trims at a clock.
pub fn trim(mut rec: Record, table: &mut [u64], clock: WideMillis) -> Changed
    ensures value { result ≡ trim_answer rec table.old clock }
    ensures table_after { table.new ≡ trim_table rec table.old clock }
{
    let outcome = lent::trim(&mut rec, table, clock);
    Changed { outcome, rec }
}
