// How the start of an append stands to the next tick: it joins, or the operator hears of a gap or
// of an overlap, and how large it is.
ghost use Rattle.std.specs.Prelude.{◌≡◌};
ghost use Rattle.units.specs.declared.Tick.{Tick};
ghost use Rattle.units.specs.declared.standing.Standing.{Standing};
ghost use Rattle.units.specs.Standing.{less32, stamp_standing, tick_standing};

use crate::{Distance, Stamp, Tick, WideTick};

#[derive(Clone, Copy)]
pub enum Standing {
    Joins,
    Gap(Distance),
    Overlap(Distance),
}

// Half of the stamps lie ahead of any tick, and half behind it.
pub(crate) const HALF: u32 = 2_147_483_648;

// So many stamps there are, and the stamps go round in so many ticks.
pub(crate) const CIRCLE: u64 = 4_294_967_296;

// The start of an append, as a recorder gives it: a full tick, or a stamp.
pub trait Start: Copy {
    ghost standing: { Self → Tick → Standing };

    fn against(self, next: Tick) -> Standing
        ensures { result ≡ standing self next };
}

impl Stamp {
    // The stamp less the next tick, modulo 2^32.
    pub(crate) fn apart(self, next: Tick) -> u32
        ensures { result ≡ less32 self.0 next.0 }
    {
        let low = (next.0 % CIRCLE) as u32;
        std::num::wrapping_sub_u32(self.0, low)
    }
}

impl Start for Stamp {
    ghost standing = { stamp_standing };

    fn against(self, next: Tick) -> Standing {
        let apart = self.apart(next);
        if apart == 0 {
            return Standing::Joins;
        }
        let ahead = apart as u64;
        if apart < HALF {
            return Standing::Gap(Distance(ahead));
        }
        Standing::Overlap(Distance(CIRCLE - ahead))
    }
}

impl Start for WideTick {
    ghost standing = { tick_standing };

    fn against(self, next: Tick) -> Standing {
        if self.0 == next.0 {
            return Standing::Joins;
        }
        if next.0 < self.0 {
            return Standing::Gap(Distance(self.0 - next.0));
        }
        Standing::Overlap(Distance(next.0 - self.0))
    }
}
