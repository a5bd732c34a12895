// When a reference is available. The points are computed moved on by the offset, so that they are
// natural numbers, and moved back into signed grains at the end.
ghost use Rattle.std.specs.Prelude.{◌≡◌, ◌≤◌, pos, ◌-ℤ◌};
ghost use Rattle.units.specs.Limits.{largest_millis, largest_grain};
ghost use Rattle.runs.specs.Ends.{Within};
ghost use Rattle.lookups.specs.Available.{available, availability_of, availability_in, available_in};
ghost use Rattle.lookups.specs.Steps.{Begins, Stops};

use crate::Availability;
use crate::numbers::asked_number;
use agreement::{Record, Refusal};
use units::{Grain, Grains, Limited, Millis, Tick, WideMillis, WideNumber};
use window::{HeldHead, Reference};

// Inner, since both points must be small: their difference in signed grains, which a grain holds then.
fn signed(from: Grains, to: Grains) -> Grain
    requires { (from.0 ≤ largest_grain) × (to.0 ≤ largest_grain) }
    ensures { result.0 ≡ pos to.0 -ℤ pos from.0 }
{
    Grain::between(from, to).unwrap()
}

// Inner, since the products must fit 64 bits: availability's start, moved on by the offset.
fn begins(head: HeldHead, at: Reference) -> Grains
    requires { Within at }
    ensures { Begins head.head at result.0 }
{
    let start = head.head.start.grains(head.head.timescale);
    let end = Tick(at.start.0 + at.span.0);
    let place = end.grains();
    Grains(start.0 + place.0)
}

// Inner, since the products must fit 64 bits: availability's end, moved on by the offset.
fn stops(head: HeldHead, at: Reference) -> Grains
    requires { Within at }
    ensures { Stops head.head at result.0 }
{
    let from = begins(head, at);
    let depth = head.head.depth.grains(head.head.timescale);
    let lasts = at.span.grains();
    Grains(from.0 + depth.0 + lasts.0)
}

// Inner, since the limits must be held: when one reference is available.
fn availability_of(head: HeldHead, at: Reference) -> Availability
    requires { Within at }
    ensures { result ≡ availability_of head.head at }
{
    let zero = head.head.offset.grains();
    let from = signed(zero, begins(head, at));
    if head.head.depth.0 == 0 {
        return Availability::NeverEnds(from);
    }
    let upto = signed(zero, stops(head, at));
    Availability::Ends(from, upto)
}

// Inner, since the limits must be held: whether one reference is available at a clock.
fn is_available(head: HeldHead, at: Reference, clock: Millis) -> bool
    requires { Within at × (clock.0 ≤ largest_millis) }
    ensures { result ≡ available head.head at clock.0 }
{
    let zero = head.head.offset.grains();
    let past = clock.grains(head.head.timescale);
    let point = past.0 + zero.0;
    begins(head, at).0 <= point && (head.head.depth.0 == 0 || point < stops(head, at).0)
}

// When the reference of a number is available, for any record, any words and any number.
pub fn availability(rec: Record, table: &[u64], number: WideNumber) -> Result<Availability, Refusal>
    ensures { result ≡ availability_in rec table.now number }
{
    if !rec.agrees(table) {
        return Err(Refusal::Disagreement);
    }
    let at = asked_number(rec, table, number).ok_or(Refusal::NotKept)?;
    let head = HeldHead { head: rec.head };
    Ok(availability_of(head, at))
}

// Whether the reference of a number is available at a clock, for any record, any words, any number
// and any clock.
pub fn available_at(
    rec: Record,
    table: &[u64],
    number: WideNumber,
    clock: WideMillis,
) -> Result<bool, Refusal>
    ensures { result ≡ available_in rec table.now number clock }
{
    if !rec.agrees(table) {
        return Err(Refusal::Disagreement);
    }
    let clock = Millis::new(clock.0).ok_or(Refusal::ClockLimit)?;
    let at = asked_number(rec, table, number).ok_or(Refusal::NotKept)?;
    let head = HeldHead { head: rec.head };
    Ok(is_available(head, at, clock))
}
