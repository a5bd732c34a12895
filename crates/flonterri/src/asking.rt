// Two more calls that look: whether a number is available at a clock, and the full tick of a stamp.
// What is told goes into the caller's `out`, which a refused call leaves as it came.
ghost use Rattle.std.specs.Prelude.{◌≡◌};
ghost use Rattle.flonterri.specs.Face.{tells_available, tells_full_tick};

use lookups::{stamps, times};
use units::{Stamp, WideMillis, WideNumber};
use words::{record_beside, tell};

const AVAILABLE_WORDS: usize = 1;

const FULL_TICK_WORDS: usize = 2;

// Whether the reference of a number is available at a clock. A number is kept or it is not, whatever
// its size.
pub fn flonterri_available_at(
    record: &[u64],
    table: &[u64],
    number: u64,
    clock: u64,
    out: &mut [u64],
) -> u32
    ensures value { result ≡ (tells_available «record».now table.now number clock out.old).number }
    ensures out_after { out.new ≡ (tells_available «record».now table.now number clock out.old).out }
{
    match record_beside(record, out.len(), AVAILABLE_WORDS) {
        Ok(rec) => tell(
            out,
            times::available_at(rec, table, WideNumber(number), WideMillis(clock)),
        ),
        Err(why) => why.number(),
    }
}

// The full tick of a stamp by the next tick.
pub fn flonterri_full_tick(record: &[u64], table: &[u64], stamp: u32, out: &mut [u64]) -> u32
    ensures value { result ≡ (tells_full_tick «record».now table.now stamp out.old).number }
    ensures out_after { out.new ≡ (tells_full_tick «record».now table.now stamp out.old).out }
{
    match record_beside(record, out.len(), FULL_TICK_WORDS) {
        Ok(rec) => tell(out, stamps::full_tick(rec, table, Stamp(stamp))),
        Err(why) => why.number(),
    }
}
