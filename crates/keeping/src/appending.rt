// An append that joins: the refusals from 6 on, then what is not spent at once is stored.
ghost use Rattle.std.specs.Prelude.{◌≡◌, true, ◌+◌, ◌*◌, ◌^◌, ◌≤◌, leb};
ghost use Rattle.units.specs.Limits.{largest_tick, span_held};
ghost use Rattle.window.specs.Limits.{Held};
ghost use Rattle.window.specs.Place.{before_end};
ghost use Rattle.runs.specs.Shape.{shaped};
ghost use Rattle.agreement.specs.Agreement.{every, agrees};
ghost use Rattle.keeping.specs.Keeping.{words_keeping, changed_by, words_by};
ghost use Rattle.keeping.specs.Steps.{room_for, Fitting};
ghost use Rattle.keeping.specs.Append.{given, unspent_of, room_outcome, fit_outcome, appended};

use crate::Changed;
use crate::spent::count_passed_of;
use agreement::{Record, Refusal, counts_held};
use runs::Run;
use units::{Limited, Span, Tick};
use window::HeldHead;

// Inner: whether references end within the limit. The sum may pass 64 bits, so it is compared by a
// division; callers show that the next tick is held and that a reference lasts.
fn ends_within(next: Tick, span: Span, count: u64) -> bool
    requires { (next.0 ≤ largest_tick) × (1 ≤ span.0) }
    ensures { result ≡ leb (next.0 + span.0 * count) largest_tick }
{
    count <= (Tick::LARGEST - next.0) / span.0
}

// Inner: whether all references given start before the period end: the last one speaks for all.
// Callers show the limits.
fn all_begin(rec: Record, span: Span, count: u64) -> bool
    requires { Held rec.head × (1 ≤ count) × (rec.next.0 + span.0 * count ≤ largest_tick) }
    ensures { result ≡ every (λ x. before_end rec.head x.start.0) (given rec span.0 count) }
{
    let head = HeldHead { head: rec.head };
    let last = Tick(rec.next.0 + span.0 * (count - 1));
    head.before_end(last)
}

// Inner: callers show that the table is shaped.
fn has_room(table: &[u64], used: usize, span: Span) -> bool
    requires { shaped used table.now ≡ true }
    ensures { result ≡ room_for used table.now span.0 }
{
    !runs::table::needs_run(table, used, span) || used < table.len() / 3
}

// Inner: the record that has accepted references, of which some are spent at once. Callers show that
// the sums are within the limits.
fn counted(rec: Record, span: Span, count: u64, spent: u64, used: usize) -> Record
    requires { (rec.next.0 + span.0 * count ≤ largest_tick) × (rec.accepted + count ≤ 2 ^ 31) × (rec.dropped + spent ≤ 2 ^ 31) }
    ensures { result ≡ record { head = rec.head; accepted = rec.accepted + count; dropped = rec.dropped + spent; next = record { 0 = rec.next.0 + span.0 * count }; clock = rec.clock; used = used } }
{
    Record {
        accepted: rec.accepted + count,
        dropped: rec.dropped + spent,
        next: Tick(rec.next.0 + span.0 * count),
        used,
        ..rec
    }
}

// Inner: callers show all but that there is room. What is spent at once is counted and not stored.
fn keep_new(rec: Record, table: &mut [u64], span: Span, count: u64) -> Changed
    requires { Fitting rec table.old span count }
    ensures value { result ≡ changed_by (room_outcome rec table.old span.0 count) (appended rec table.old span.0 count) rec }
    ensures table_after { table.new ≡ words_by (room_outcome rec table.old span.0 count) (words_keeping table.old (unspent_of rec table.old span.0 count)) table.old }
{
    let head = HeldHead { head: rec.head };
    let passed = head.passed_ends(rec.clock);
    let start = rec.next;
    let spent = count_passed_of(passed, Run { start, span, count });
    let used = rec.used;
    if spent == count {
        return Changed::accepted(counted(rec, span, count, spent, used));
    }
    if !has_room(table, used, span) {
        return Changed::refused(Refusal::NoRunLeft, rec);
    }
    let first = Tick(start.0 + span.0 * spent);
    let then = runs::table::store(table, used, first, span, count - spent);
    Changed::accepted(counted(rec, span, count, spent, then))
}

// Inner: callers show that record and table agree and that the append lasts and counts. Judged from 6
// on; the reader of a file goes by this call, so that it need not test agreement for each line.
pub fn append_joined(rec: Record, table: &mut [u64], span: Span, count: u64) -> Changed
    requires { (agrees rec table.old ≡ true) × (span_held span ≡ true) × (1 ≤ count) }
    ensures value { result ≡ changed_by (fit_outcome rec table.old span.0 count) (appended rec table.old span.0 count) rec }
    ensures table_after { table.new ≡ words_by (fit_outcome rec table.old span.0 count) (words_keeping table.old (unspent_of rec table.old span.0 count)) table.old }
{
    if !ends_within(rec.next, span, count) {
        return Changed::refused(Refusal::TickLimit, rec);
    }
    if !counts_held(rec.head.first, rec.accepted + count) {
        return Changed::refused(Refusal::CountLimit, rec);
    }
    if !all_begin(rec, span, count) {
        return Changed::refused(Refusal::PastEnd, rec);
    }
    keep_new(rec, table, span, count)
}
