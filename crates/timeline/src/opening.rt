// Opening a timeline over a lent table.
ghost use Rattle.std.specs.Prelude.{◌≡◌};
ghost use Rattle.units.specs.Limits.{tick_of};
ghost use Rattle.window.specs.Limits.{head_of};
ghost use Rattle.timeline.specs.Opening.{fresh_record, zero_record, open_answer, open_table};

use agreement::{Record, Refusal};
use keeping::Changed;
use units::{Limited, Tick, WideTick};
use window::{Head, HeadFields};

fn fresh(head: Head, first: Tick) -> Record
    ensures { result ≡ fresh_record head first }
{
    Record {
        head,
        next: first,
        ..Record::default()
    }
}

// The record of no timeline, which a refused opening and a refused reading answer. Unique of laws names it.
pub fn zero_record() -> Record
    ensures { result ≡ zero_record }
{
    Record::default()
}

// Opens a timeline, for any head fields and any first tick.
pub fn open(fields: HeadFields, first: WideTick, table: &mut [u64]) -> Changed
    ensures value { result ≡ open_answer (head_of fields) (tick_of first) }
    ensures table_after { table.new ≡ open_table (head_of fields) (tick_of first) table.old }
{
    let Some(head) = Head::new(fields) else {
        return Changed::refused(Refusal::OverLimit, zero_record());
    };
    let Some(next) = Tick::new(first.0) else {
        return Changed::refused(Refusal::OverLimit, zero_record());
    };
    runs::table::clear(table);
    Changed::accepted(fresh(head, next))
}
