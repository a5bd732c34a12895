// What a clock has passed, what a window needs, and how many references reach the period end: each
// by a division, and proved to be exactly what the definitions say.
ghost use Rattle.std.specs.Prelude.{◌≡◌, true, ◌*◌, ◌≤◌};
ghost use Rattle.units.specs.Limits.{largest_tick, largest_millis, largest_timescale, largest_span};
ghost use Rattle.window.specs.Place.{end_known, before_end};
ghost use Rattle.window.specs.Window.{window_at, whole_period};
ghost use Rattle.window.specs.Steps.{farthest, inside};
ghost use Rattle.window.specs.Ticks.{EndsPassed, NeededTicks, LeastCount};

use crate::{HeldHead, Passed, Ticks};
use units::{Grains, Millis, Span, Tick, WideTick};

impl HeldHead {
    // Inner: callers show the limits, so that the products fit 64 bits. Which ends are passed at a
    // clock.
    pub fn passed_ends(self, clock: Millis) -> Passed
        requires { clock.0 ≤ largest_millis }
        ensures { EndsPassed self.head clock.0 result }
    {
        let low = self.low(clock);
        if self.over_by(low) {
            return Passed::All;
        }
        Passed::Upto(WideTick(self.head.offset.0 + low.0 / 1000))
    }

    // The ticks that a window needs. A tick that it covers in part is needed, so the first is
    // rounded down and the end up.
    fn ticks_between(self, from: Grains, to: Grains) -> Option<Ticks>
        requires { to.0 ≤ farthest }
        ensures { NeededTicks self.head (inside from.0 to.0) result }
    {
        if to.0 <= from.0 {
            return None;
        }
        let first = self.head.offset.0 + from.0 / 1000;
        let end = self.head.offset.0 + to.0.div_ceil(1000);
        Some(Ticks {
            first: WideTick(first),
            end: WideTick(end),
        })
    }

    // Inner: callers show the limits. The ticks that the window at a clock needs.
    pub fn needed_at(self, clock: Millis) -> Option<Ticks>
        requires { clock.0 ≤ largest_millis }
        ensures { NeededTicks self.head (window_at self.head clock.0) result }
    {
        let from = self.low(clock);
        let to = self.high(clock);
        self.ticks_between(from, to)
    }

    // Inner: callers show the limits; of a period whose end is unknown nothing is said. The ticks that
    // the whole period needs.
    pub fn needed_whole(self) -> Option<Ticks>
        ensures { NeededTicks self.head (whole_period self.head) result }
    {
        let end = self.head.duration.grains(self.head.timescale);
        self.ticks_between(Grains(0), end)
    }

    // Inner: callers show the limits, and that the first starts before a known end. The least count of
    // references whose end reaches or passes the period end.
    pub fn least_count(self, start: Tick, span: Span) -> u64
        requires { (start.0 ≤ largest_tick) × (span.0 ≤ largest_span) × (1 ≤ span.0) × (end_known self.head ≡ true) × (before_end self.head start.0 ≡ true) }
        ensures { LeastCount self.head start.0 span.0 result }
    {
        let end = self.head.duration.grains(self.head.timescale);
        let zero = self.head.offset.grains();
        let at = start.grains();
        let left = end.0 + zero.0 - at.0;
        let each = span.grains();
        left.div_ceil(each.0)
    }
}
