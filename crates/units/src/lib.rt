// The units of a timeline, a type each, so that a tick is never taken for a millisecond or a grain.
// A number from outside becomes a unit by its constructor, which refuses what lies beyond the limits.
// A type holds any number of its width: the words of a record or a table are judged by `held`.
#![tactic(auto)]

ghost use Rattle.std.specs.Prelude.{◌≡◌, ◌*◌, ◌≤◌};
ghost use Rattle.units.specs.Product.{Product};
ghost use Rattle.units.specs.Limits.{largest_tick, largest_millis, largest_timescale, largest_span, grains_between};

mod full;
mod limited;
mod standing;

pub use limited::Limited;
pub use standing::{Standing, Start};

// A tick position within the limit: an offset, a start or an end of a reference.
#[derive(Clone, Copy, PartialEq, Eq, Default)]
pub struct Tick(pub u64);

// A tick of any 64 bits: a start that a caller gives, an edge of a span, a needed tick.
#[derive(Clone, Copy)]
pub struct WideTick(pub u64);

// The low 32 bits of a tick, as some recorders send them.
#[derive(Clone, Copy)]
pub struct Stamp(pub u32);

// Whole milliseconds: period start, duration, depth, clock.
#[derive(Clone, Copy, Default)]
pub struct Millis(pub u64);

// A clock of any 64 bits, as a caller gives it.
#[derive(Clone, Copy)]
pub struct WideMillis(pub u64);

// Ticks a second.
#[derive(Clone, Copy, Default)]
pub struct Timescale(pub u64);

// A reference's duration in ticks.
#[derive(Clone, Copy, PartialEq, Eq)]
pub struct Span(pub u64);

// How many ticks lie between a start and the next tick.
#[derive(Clone, Copy)]
pub struct Distance(pub u64);

// The number of a reference.
#[derive(Clone, Copy, Default)]
pub struct Number(pub u64);

// A number of any 64 bits, as a caller gives it.
#[derive(Clone, Copy)]
pub struct WideNumber(pub u64);

// A point in grains, signed: a tick has 1000 of them, a millisecond has timescale.
#[derive(Clone, Copy)]
pub struct Grain(pub i64);

// An amount of grains: how far a point lies past another.
#[derive(Clone, Copy)]
pub struct Grains(pub u64);

impl Tick {
    // Inner, since a tick beyond the limit has more grains than 64 bits hold: callers show the limit.
    pub fn grains(self) -> Grains
        requires { self.0 ≤ largest_tick }
        ensures { Product result.0 self.0 1000 (largest_tick * 1000) }
    {
        Grains(self.0 * 1000)
    }
}

impl Millis {
    // Inner, since a millisecond or a timescale beyond its limit may have more grains than 64 bits
    // hold: callers show the limits.
    pub fn grains(self, rate: Timescale) -> Grains
        requires { (self.0 ≤ largest_millis) × (rate.0 ≤ largest_timescale) }
        ensures { Product result.0 self.0 rate.0 (largest_millis * largest_timescale) }
    {
        Grains(self.0 * rate.0)
    }
}

impl Span {
    // Inner, since callers show the limit: those of a tick as far from zero.
    pub fn grains(self) -> Grains
        requires { self.0 ≤ largest_span }
        ensures { Product result.0 self.0 1000 (largest_span * 1000) }
    {
        Tick(self.0).grains()
    }
}

impl Grain {
    // From one point to another, both counted from one zero: none that 63 bits do not hold.
    pub fn between(from: Grains, to: Grains) -> Option<Self>
        ensures { result ≡ grains_between from.0 to.0 }
    {
        if from.0 <= to.0 {
            let ahead = i64::try_from(to.0 - from.0).ok()?;
            return Some(Grain(ahead));
        }
        let behind = i64::try_from(from.0 - to.0).ok()?;
        Some(Grain(-behind))
    }
}
