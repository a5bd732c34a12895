// The verdict: kept references join, so they cover one range of ticks, and a window needs one range.
// The rest is arithmetic of two ranges, whatever the number of references.
ghost use Rattle.std.specs.Prelude.{◌≡◌, true, ◌<◌, min, max};
ghost use Rattle.window.specs.Ticks.{named, NamesSome};
ghost use Rattle.agreement.specs.Agreement.{agrees, kept};
ghost use Rattle.answers.specs.Judgement.{verdict_at, verdict_whole};
ghost use Rattle.answers.specs.Ranges.{in_range, verdict_by, past_named, Reach};

use crate::Verdict;
use agreement::{Record, Refusal};
use units::{Limited, Millis, WideMillis, WideTick};
use window::{HeldHead, Ticks};

// Inner, since record and table must agree: where the kept references begin, or the next tick if
// none is kept.
fn first_kept(rec: Record, table: &[u64]) -> WideTick
    requires { agrees rec table.now ≡ true }
    ensures { Reach result.0 rec.next.0 (kept rec table.now) }
{
    if rec.used == 0 {
        return WideTick(rec.next.0);
    }
    WideTick(table[0])
}

fn later(a: WideTick, b: WideTick) -> WideTick
    ensures { result.0 ≡ max a.0 b.0 }
{
    if a.0 < b.0 { b } else { a }
}

fn earlier(a: WideTick, b: WideTick) -> WideTick
    ensures { result.0 ≡ min a.0 b.0 }
{
    if a.0 < b.0 { a } else { b }
}

// Inner, since one tick at least must be needed: those from a up to b are, and those from `from` up
// to `to` are covered.
fn compare(a: WideTick, b: WideTick, from: WideTick, to: WideTick) -> Verdict
    requires { a.0 < b.0 }
    ensures { result ≡ verdict_by (in_range a.0 b.0) (in_range from.0 to.0) b.0 }
{
    let needed = b.0 - a.0;
    let low = later(a, from);
    let high = earlier(b, to);
    if high.0 <= low.0 {
        return Verdict::Lacking(needed, 0, a);
    }
    let covered = high.0 - low.0;
    if covered == needed {
        return Verdict::Complete(needed);
    }
    if a.0 < low.0 {
        return Verdict::Lacking(needed, covered, a);
    }
    Verdict::Lacking(needed, covered, high)
}

// Inner, since an answer that names ticks must name one at least.
fn judge(needed: Option<Ticks>, from: WideTick, to: WideTick) -> Verdict
    requires { NamesSome needed }
    ensures { result ≡ verdict_by (named needed) (in_range from.0 to.0) (past_named needed) }
{
    match needed {
        None => Verdict::Nothing,
        Some(ticks) => compare(ticks.first, ticks.end, from, to),
    }
}

// The verdict at a clock, for any record, any words and any clock.
pub fn verdict(rec: Record, table: &[u64], clock: WideMillis) -> Result<Verdict, Refusal>
    ensures { result ≡ verdict_at rec table.now clock }
{
    if !rec.agrees(table) {
        return Err(Refusal::Disagreement);
    }
    let Some(at) = Millis::new(clock.0) else {
        return Err(Refusal::ClockLimit);
    };
    if at.0 < rec.clock.0 {
        return Err(Refusal::EarlierClock);
    }
    let head = HeldHead { head: rec.head };
    let needed = head.needed_at(at);
    let from = first_kept(rec, table);
    Ok(judge(needed, from, WideTick(rec.next.0)))
}

// The verdict of the whole period, for any record and any words.
pub fn verdict_whole(rec: Record, table: &[u64]) -> Result<Verdict, Refusal>
    ensures { result ≡ verdict_whole rec table.now }
{
    if !rec.agrees(table) {
        return Err(Refusal::Disagreement);
    }
    if rec.head.duration.0 == 0 {
        return Err(Refusal::EndUnknown);
    }
    let head = HeldHead { head: rec.head };
    let needed = head.needed_whole();
    let from = first_kept(rec, table);
    Ok(judge(needed, from, WideTick(rec.next.0)))
}
