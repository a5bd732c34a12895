// A unit whose number lies within limits. What is held and what the constructor answers is one rule
// for all of them; each unit gives its least and its largest number.
ghost use Rattle.std.specs.Prelude.{◌≡◌, ℕ, Bool, cond, ◌&&◌, Option, Some, None, nat_le};
ghost use Rattle.std.proofs.Common.{rules};
ghost use Rattle.units.specs.Limits.{largest_tick, largest_millis, largest_timescale, largest_span, largest_number};
ghost use Rattle.units.specs.Limits.{tick_held, millis_held, timescale_held, span_held, number_held};
ghost use Rattle.units.specs.Limits.{tick_made, millis_made, timescale_made, span_made, number_made};

use crate::{Millis, Number, Span, Tick, Timescale};

pub trait Limited: Copy {
    ghost LEAST: { ℕ };

    ghost LARGEST: { ℕ };

    ghost unit: { ℕ → Self };

    ghost number: { Self → ℕ };

    ghost is_held: { Self → Bool };

    ghost made: { ℕ → Option Self };

    const LEAST: u64;

    const LARGEST: u64;

    // The unit of any 64 bits, as the words of a record or a table have it: held or not.
    fn of(n: u64) -> Self
        ensures { result ≡ unit n };

    fn number(self) -> u64
        ensures { result ≡ number self };

    // Not final, nor is `new`: the theorem Unique of laws cites the contract at each unit.
    fn held(self) -> bool
        ensures { result ≡ is_held self }
    {
        let number = self.number();
        Self::LEAST <= number && number <= Self::LARGEST
    }

    fn new(n: u64) -> Option<Self>
        ensures { result ≡ made n }
    {
        let unit = Self::of(n);
        unit.held().then_some(unit)
    }

    ghost held_within: { (x : Self)
        → is_held x ≡ (nat_le LEAST (number x) && nat_le (number x) LARGEST) };

    ghost made_where_held: { (n : ℕ) → made n ≡ cond (is_held (unit n)) (Some (unit n)) None };
}

impl Limited for Tick {
    ghost LEAST = { 0 };

    ghost LARGEST = { largest_tick };

    ghost unit = { λ n. record { 0 = n } };

    ghost number = { λ x. x.0 };

    ghost is_held = { tick_held };

    ghost made = { tick_made };

    const LEAST: u64 = 0;

    const LARGEST: u64 = 4_503_599_627_370_495;

    fn of(n: u64) -> Self {
        Tick(n)
    }

    fn number(self) -> u64 {
        self.0
    }

    ghost held_within = { λ x. Prim.search rules };

    ghost made_where_held = { λ n. Prim.search rules };
}

impl Limited for Millis {
    ghost LEAST = { 0 };

    ghost LARGEST = { largest_millis };

    ghost unit = { λ n. record { 0 = n } };

    ghost number = { λ x. x.0 };

    ghost is_held = { millis_held };

    ghost made = { millis_made };

    const LEAST: u64 = 0;

    const LARGEST: u64 = 100_000_000_000;

    fn of(n: u64) -> Self {
        Millis(n)
    }

    fn number(self) -> u64 {
        self.0
    }

    ghost held_within = { λ x. Prim.search rules };

    ghost made_where_held = { λ n. Prim.search rules };
}

impl Limited for Timescale {
    ghost LEAST = { 1 };

    ghost LARGEST = { largest_timescale };

    ghost unit = { λ n. record { 0 = n } };

    ghost number = { λ x. x.0 };

    ghost is_held = { timescale_held };

    ghost made = { timescale_made };

    const LEAST: u64 = 1;

    const LARGEST: u64 = 10_000_000;

    fn of(n: u64) -> Self {
        Timescale(n)
    }

    fn number(self) -> u64 {
        self.0
    }

    ghost held_within = { λ x. Prim.search rules };

    ghost made_where_held = { λ n. Prim.search rules };
}

impl Limited for Span {
    ghost LEAST = { 1 };

    ghost LARGEST = { largest_span };

    ghost unit = { λ n. record { 0 = n } };

    ghost number = { λ x. x.0 };

    ghost is_held = { span_held };

    ghost made = { span_made };

    const LEAST: u64 = 1;

    const LARGEST: u64 = 4_294_967_295;

    fn of(n: u64) -> Self {
        Span(n)
    }

    fn number(self) -> u64 {
        self.0
    }

    ghost held_within = { λ x. Prim.search rules };

    ghost made_where_held = { λ n. Prim.search rules };
}

impl Limited for Number {
    ghost LEAST = { 0 };

    ghost LARGEST = { largest_number };

    ghost unit = { λ n. record { 0 = n } };

    ghost number = { λ x. x.0 };

    ghost is_held = { number_held };

    ghost made = { number_made };

    const LEAST: u64 = 0;

    const LARGEST: u64 = 4_294_967_295;

    fn of(n: u64) -> Self {
        Number(n)
    }

    fn number(self) -> u64 {
        self.0
    }

    ghost held_within = { λ x. Prim.search rules };

    ghost made_where_held = { λ n. Prim.search rules };
}
