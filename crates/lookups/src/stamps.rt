// The full tick of a stamp. Where an append by stamp is a gap or an overlap, the caller learns from it
// which ticks are missing or came twice, and widens no stamp by hand.
ghost use Rattle.std.specs.Prelude.{◌≡◌};
ghost use Rattle.lookups.specs.Stamps.{full_tick_in};

use agreement::{Record, Refusal};
use units::{Stamp, Tick};

// The tick that the stamp names by the next tick; or none, where it would lie below 0 or over the limit
// of a tick. For any record, any words and any stamp.
pub fn full_tick(rec: Record, table: &[u64], stamp: Stamp) -> Result<Option<Tick>, Refusal>
    ensures { result ≡ full_tick_in rec table.now stamp }
{
    if !rec.agrees(table) {
        return Err(Refusal::Disagreement);
    }
    Ok(stamp.full(rec.next))
}
