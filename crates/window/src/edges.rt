// The edges of the window and the end of the period, in grains past the period start: no edge that
// matters lies before it.
ghost use Rattle.std.specs.Prelude.{◌≡◌, ◌≤◌};
ghost use Rattle.units.specs.Limits.{largest_tick, largest_millis};
ghost use Rattle.window.specs.Place.{before_end};
ghost use Rattle.window.specs.Steps.{Past, over_by};
ghost use Rattle.window.specs.Window.{low_edge, high_edge};

use crate::HeldHead;
use units::{Grains, Millis, Tick};

impl HeldHead {
    // Inner: callers show the limits, so that the products fit 64 bits. Whether a tick lies before
    // the period end.
    pub fn before_end(self, at: Tick) -> bool
        requires { at.0 ≤ largest_tick }
        ensures { result ≡ before_end self.head at.0 }
    {
        if self.head.duration.0 == 0 {
            return true;
        }
        let end = self.head.duration.grains(self.head.timescale);
        let zero = self.head.offset.grains();
        let place = at.grains();
        place.0 < zero.0 + end.0
    }

    // Whether the period is over by a point. Inner: callers show the limits, as above.
    pub(crate) fn over_by(self, at: Grains) -> bool
        ensures { result ≡ over_by self.head at.0 }
    {
        if self.head.duration.0 == 0 {
            return false;
        }
        let end = self.head.duration.grains(self.head.timescale);
        end.0 <= at.0
    }

    // The later of the period start and the clock less the depth. Inner: callers show the limits.
    pub(crate) fn low(self, clock: Millis) -> Grains
        requires { clock.0 ≤ largest_millis }
        ensures { Past result.0 (low_edge self.head clock.0) }
    {
        if self.head.depth.0 == 0 {
            return Grains(0);
        }
        let back = self.head.depth.0 + self.head.start.0;
        let past = Millis(clock.0.saturating_sub(back));
        past.grains(self.head.timescale)
    }

    // The earlier of the period end and the clock plus the update period. Inner: callers show the limits.
    pub(crate) fn high(self, clock: Millis) -> Grains
        requires { clock.0 ≤ largest_millis }
        ensures { Past result.0 (high_edge self.head clock.0) }
    {
        let at = clock.grains(self.head.timescale);
        let ahead = self.head.update.grains(self.head.timescale);
        let start = self.head.start.grains(self.head.timescale);
        let upto = (at.0 + ahead.0).saturating_sub(start.0);
        if self.head.duration.0 == 0 {
            return Grains(upto);
        }
        let end = self.head.duration.grains(self.head.timescale);
        Grains(end.0.min(upto))
    }
}
