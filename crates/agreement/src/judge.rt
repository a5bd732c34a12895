// Whether record and table agree: the limits, the shape of the table, and what it keeps.
ghost use Rattle.std.specs.Prelude.{◌≡◌, true};
ghost use Rattle.window.specs.Ticks.{is_passed};
ghost use Rattle.agreement.specs.Agreement.{counts_held, record_held, agrees};
ghost use Rattle.agreement.specs.Finding.{Sized, found_right};

use crate::scan::{all_zero, scan};
use crate::{Found, Record};
use units::{Limited, Number, WideTick};
use window::{HeldHead, Passed, Reference};

// How many references a timeline may ever accept.
const MOST_ACCEPTED: u64 = 2_147_483_648;

// Whether a count of accepted references is within its limits, for any first number.
pub fn counts_held(first: Number, accepted: u64) -> bool
    ensures { result ≡ counts_held first.0 accepted }
{
    accepted <= MOST_ACCEPTED && first.0 <= Number::LARGEST - accepted
}

// Whether an end is among those that are passed. No method, since `Passed` is another crate's.
pub fn is_passed(passed: Passed, end: WideTick) -> bool
    ensures { result ≡ is_passed passed end.0 }
{
    match passed {
        Passed::All => true,
        Passed::Upto(t) => end.0 <= t.0,
    }
}

impl Record {
    // Whether every limit of the record is held.
    pub fn held(self) -> bool
        ensures { result ≡ record_held self }
    {
        self.head.held()
            && self.next.held()
            && self.clock.held()
            && self.dropped <= self.accepted
            && counts_held(self.head.first, self.accepted)
    }

    // Inner: callers show that the limits are held, so that the sums fit.
    fn keeps(self, first: Reference, last: Reference, n: u64) -> bool
        requires { (record_held self ≡ true) × Sized (Found.Kept first last n) }
        ensures { result ≡ found_right self (Found.Kept first last n) }
    {
        if n != self.accepted - self.dropped || last.start.0 + last.span.0 != self.next.0 {
            return false;
        }
        let head = HeldHead { head: self.head };
        let passed = head.passed_ends(self.clock);
        let end = WideTick(first.start.0 + first.span.0);
        !is_passed(passed, end) && head.before_end(last.start)
    }

    // Inner: callers show that the limits are held.
    fn fits(self, found: Found) -> bool
        requires { (record_held self ≡ true) × Sized found }
        ensures { result ≡ found_right self found }
    {
        match found {
            Found::Unshaped => false,
            Found::Nothing => 0 == self.accepted - self.dropped,
            Found::Kept(first, last, n) => self.keeps(first, last, n),
        }
    }

    // Whether this record and a table agree, for any record and any words.
    pub fn agrees(self, table: &[u64]) -> bool
        ensures { result ≡ agrees self table.now }
    {
        if !self.held() || table.len() / 3 < self.used {
            return false;
        }
        all_zero(&table[3 * self.used..]) && self.fits(scan(table, self.used))
    }
}
