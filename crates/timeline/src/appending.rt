// Appending: the refusals up to 5 in their order, then what joins is judged further and kept.
ghost use Rattle.std.specs.Prelude.{◌≡◌, true};
ghost use Rattle.units.specs.Standing.{tick_standing, stamp_standing};
ghost use Rattle.agreement.specs.Agreement.{agrees};
ghost use Rattle.timeline.specs.Appending.{append_answer, append_table};

use agreement::{Record, Refusal};
use keeping::{Changed, append_joined};
use units::{Limited, Span, Stamp, Standing, Start, WideTick};

// Inner: callers show that record and table agree. Judged from 3 on, by how the start stands.
pub(crate) fn append_standing(
    rec: Record,
    table: &mut [u64],
    standing: Standing,
    duration: u32,
    count: u32,
) -> Changed
    requires { agrees rec table.old ≡ true }
    ensures value { result ≡ append_answer rec table.old standing duration count }
    ensures table_after { table.new ≡ append_table rec table.old standing duration count }
{
    let Some(span) = Span::new(duration as u64) else {
        return Changed::refused(Refusal::NothingGiven, rec);
    };
    if count == 0 {
        return Changed::refused(Refusal::NothingGiven, rec);
    }
    match standing {
        Standing::Joins => append_joined(rec, table, span, count as u64),
        Standing::Gap(distance) => Changed::refused(Refusal::Gap(distance), rec),
        Standing::Overlap(distance) => Changed::refused(Refusal::Overlap(distance), rec),
    }
}

// Inner: an append at a start of either kind, for any record and any words.
fn append_from<S: Start>(
    rec: Record,
    table: &mut [u64],
    start: S,
    duration: u32,
    count: u32,
) -> Changed
    ensures value { result ≡ append_answer rec table.old (S.standing start rec.next) duration count }
    ensures table_after { table.new ≡ append_table rec table.old (S.standing start rec.next) duration count }
{
    if !rec.agrees(table) {
        return Changed::refused(Refusal::Disagreement, rec);
    }
    append_standing(rec, table, start.against(rec.next), duration, count)
}

// Appends references whose start is a full tick. It stands beside the next, since Unique of laws names
// the contracts of both.
pub fn append(rec: Record, table: &mut [u64], start: WideTick, duration: u32, count: u32) -> Changed
    ensures value { result ≡ append_answer rec table.old (tick_standing start rec.next) duration count }
    ensures table_after { table.new ≡ append_table rec table.old (tick_standing start rec.next) duration count }
{
    append_from(rec, table, start, duration, count)
}

// Appends references whose start is a 32-bit stamp.
pub fn append_stamp(
    rec: Record,
    table: &mut [u64],
    stamp: Stamp,
    duration: u32,
    count: u32,
) -> Changed
    ensures value { result ≡ append_answer rec table.old (stamp_standing stamp rec.next) duration count }
    ensures table_after { table.new ≡ append_table rec table.old (stamp_standing stamp rec.next) duration count }
{
    append_from(rec, table, stamp, duration, count)
}
