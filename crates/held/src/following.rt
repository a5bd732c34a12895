// A segment of a live channel as two calls over one record: an append by stamp, and then a trim, whatever the
// append answered.
ghost use Rattle.std.specs.Prelude.{◌≡◌};
ghost use Rattle.units.specs.Standing.{stamp_standing};
ghost use Rattle.held.specs.Following.{followed, followed_table};

use crate::lending::{append_stamp, trim};
use agreement::Record;
use keeping::Outcome;
use units::{Stamp, WideMillis};

// What came of the two, and the record to go on with: both are told, the second whatever the first was,
// so that neither is an error of the whole.
#[derive(Clone, Copy)]
pub struct Followed {
    pub appended: Outcome,
    pub trimmed: Outcome,
    pub rec: Record,
}

// Appends references whose start is a 32-bit stamp and then trims, for any record, any words and any clock.
pub fn follow(
    rec: Record,
    table: &mut [u64],
    stamp: Stamp,
    duration: u32,
    count: u32,
    clock: WideMillis,
) -> Followed
    ensures value { result ≡ followed rec table.old (stamp_standing stamp rec.next) duration count clock }
    ensures table_after { table.new ≡ followed_table rec table.old (stamp_standing stamp rec.next) duration count clock }
{
    let first = append_stamp(rec, table, stamp, duration, count);
    let second = trim(first.rec, table, clock);
    Followed {
        appended: first.outcome,
        trimmed: second.outcome,
        rec: second.rec,
    }
}
