// The covered edge: up to which clock the window ends in what was appended.
ghost use Rattle.std.specs.Prelude.{◌≡◌, ◌≤◌};
ghost use Rattle.units.specs.Limits.{largest_tick};
ghost use Rattle.answers.specs.Edge.{edge_of, covered_edge};

use agreement::{Record, Refusal};
use units::{Limited, Millis, Tick};
use window::HeldHead;

// Inner, since the products must fit 64 bits: the edge by the next tick. Where that lies before the
// period end, the clock and the update period decide the upper edge; both sides are moved on by the
// offset and the period start, so that they are natural numbers.
fn edge_of(head: HeldHead, next: Tick) -> Option<Millis>
    requires { next.0 ≤ largest_tick }
    ensures { result ≡ edge_of head.head next.0 }
{
    if !head.before_end(next) {
        return Some(Millis(Millis::LARGEST));
    }
    let head = head.head;
    let start = head.start.grains(head.timescale);
    let place = next.grains();
    let zero = head.offset.grains();
    let ahead = head.update.grains(head.timescale);
    let upto = start.0 + place.0;
    let from = zero.0 + ahead.0;
    if upto < from {
        return None;
    }
    let clock = (upto - from) / head.timescale.0;
    if Millis::LARGEST < clock {
        return Some(Millis(Millis::LARGEST));
    }
    Some(Millis(clock))
}

// The covered edge, or that there is none, for any record and any words.
pub fn covered_edge(rec: Record, table: &[u64]) -> Result<Option<Millis>, Refusal>
    ensures { result ≡ covered_edge rec table.now }
{
    if !rec.agrees(table) {
        return Err(Refusal::Disagreement);
    }
    let head = HeldHead { head: rec.head };
    Ok(edge_of(head, rec.next))
}
