// The full tick of a stamp: the one that shows it, within half a circle of the next tick. A recorder
// that sends stamps alone hears of a gap or an overlap as a whole tick.
ghost use Rattle.std.specs.Prelude.{◌≡◌};
ghost use Rattle.units.specs.Full.{full_tick};

use crate::standing::{CIRCLE, HALF};
use crate::{Limited, Stamp, Tick};

impl Stamp {
    pub fn full(self, next: Tick) -> Option<Tick>
        ensures { result ≡ full_tick self next }
    {
        let apart = self.apart(next);
        let distance = apart as u64;
        if apart < HALF {
            if Tick::LARGEST - distance < next.0 {
                return None;
            }
            return Some(Tick(next.0 + distance));
        }
        let back = CIRCLE - distance;
        if next.0 < back {
            return None;
        }
        if Tick::LARGEST < next.0 - back {
            return None;
        }
        Some(Tick(next.0 - back))
    }
}
