// The words of each answer, in the order in which C reads them.
ghost use Rattle.words.specs.Tells.{words_of_verdict, words_of_availability, words_of_available, words_of_tick, words_of_touching, words_of_edge, words_of_length};

use crate::Told;
use answers::Verdict;
use lookups::{Availability, Words};
use units::{Millis, Tick};

impl Told<u64, 5> for Verdict {
    ghost shown = { words_of_verdict };

    #[tactic(auto, unfolding(crate::specs::Tells::words_of_verdict))]
    fn words(self) -> [u64; 5] {
        let percent = self.percent().unwrap_or(0);
        match self {
            Verdict::Nothing => [0, 0, 0, 0, percent],
            Verdict::Complete(needed) => [1, needed, needed, 0, percent],
            Verdict::Lacking(needed, covered, lowest) => [2, needed, covered, lowest.0, percent],
        }
    }
}

impl Told<i64, 3> for Availability {
    ghost shown = { words_of_availability };

    #[tactic(auto, unfolding(crate::specs::Tells::words_of_availability))]
    fn words(self) -> [i64; 3] {
        match self {
            Availability::NeverEnds(from) => [0, from.0, 0],
            Availability::Ends(from, upto) => [1, from.0, upto.0],
        }
    }
}

// Whether a reference is available at a clock.
impl Told<u64, 1> for bool {
    ghost shown = { words_of_available };

    #[tactic(auto, unfolding(crate::specs::Tells::words_of_available))]
    fn words(self) -> [u64; 1] {
        if self { [1] } else { [0] }
    }
}

// The full tick of a stamp, if there is one.
impl Told<u64, 2> for Option<Tick> {
    ghost shown = { words_of_tick };

    #[tactic(auto, unfolding(crate::specs::Tells::words_of_tick))]
    fn words(self) -> [u64; 2] {
        match self {
            Some(tick) => [1, tick.0],
            None => [0, 0],
        }
    }
}

impl Told<u64, 2> for Words {
    ghost shown = { words_of_touching };

    #[tactic(auto, unfolding(crate::specs::Tells::words_of_touching))]
    fn words(self) -> [u64; 2] {
        [self.from as u64, self.to as u64]
    }
}

// The covered edge, if there is one.
impl Told<u64, 2> for Option<Millis> {
    ghost shown = { words_of_edge };

    #[tactic(auto, unfolding(crate::specs::Tells::words_of_edge))]
    fn words(self) -> [u64; 2] {
        match self {
            Some(clock) => [1, clock.0],
            None => [0, 0],
        }
    }
}

// The length that was written.
impl Told<u64, 1> for usize {
    ghost shown = { words_of_length };

    #[tactic(auto, unfolding(crate::specs::Tells::words_of_length))]
    fn words(self) -> [u64; 1] {
        [self as u64]
    }
}
