// The calls that look: verdicts, availability, the runs that touch a span, the covered edge. What is
// told goes into the caller's `out`, which a refused call leaves as it came.
ghost use Rattle.std.specs.Prelude.{◌≡◌};
ghost use Rattle.flonterri.specs.Face.{tells_verdict, tells_whole, tells_availability, tells_touching, tells_edge};

use answers::{edges, verdicts};
use lookups::{spans, times};
use units::{WideMillis, WideNumber, WideTick};
use words::{record_beside, tell};

const VERDICT_WORDS: usize = 5;

const AVAILABILITY_WORDS: usize = 3;

const TOUCHING_WORDS: usize = 2;

const EDGE_WORDS: usize = 2;

// The verdict at a clock.
pub fn flonterri_verdict(record: &[u64], table: &[u64], clock: u64, out: &mut [u64]) -> u32
    ensures value { result ≡ (tells_verdict «record».now table.now clock out.old).number }
    ensures out_after { out.new ≡ (tells_verdict «record».now table.now clock out.old).out }
{
    match record_beside(record, out.len(), VERDICT_WORDS) {
        Ok(rec) => tell(out, verdicts::verdict(rec, table, WideMillis(clock))),
        Err(why) => why.number(),
    }
}

// The verdict of the whole period.
pub fn flonterri_verdict_whole(record: &[u64], table: &[u64], out: &mut [u64]) -> u32
    ensures value { result ≡ (tells_whole «record».now table.now out.old).number }
    ensures out_after { out.new ≡ (tells_whole «record».now table.now out.old).out }
{
    match record_beside(record, out.len(), VERDICT_WORDS) {
        Ok(rec) => tell(out, verdicts::verdict_whole(rec, table)),
        Err(why) => why.number(),
    }
}

// When the reference of a number is available. A number is kept or it is not, whatever its size.
pub fn flonterri_availability(record: &[u64], table: &[u64], number: u64, out: &mut [i64]) -> u32
    ensures value { result ≡ (tells_availability «record».now table.now number out.old).number }
    ensures out_after { out.new ≡ (tells_availability «record».now table.now number out.old).out }
{
    match record_beside(record, out.len(), AVAILABILITY_WORDS) {
        Ok(rec) => tell(out, times::availability(rec, table, WideNumber(number))),
        Err(why) => why.number(),
    }
}

// The words of the runs that touch the ticks from a up to b, that one excluded.
pub fn flonterri_touching(record: &[u64], table: &[u64], a: u64, b: u64, out: &mut [u64]) -> u32
    ensures value { result ≡ (tells_touching «record».now table.now a b out.old).number }
    ensures out_after { out.new ≡ (tells_touching «record».now table.now a b out.old).out }
{
    match record_beside(record, out.len(), TOUCHING_WORDS) {
        Ok(rec) => tell(
            out,
            spans::touching_words(rec, table, WideTick(a), WideTick(b)),
        ),
        Err(why) => why.number(),
    }
}

// The covered edge: the latest clock at which the window's upper edge has not passed the next tick.
pub fn flonterri_covered_edge(record: &[u64], table: &[u64], out: &mut [u64]) -> u32
    ensures value { result ≡ (tells_edge «record».now table.now out.old).number }
    ensures out_after { out.new ≡ (tells_edge «record».now table.now out.old).out }
{
    match record_beside(record, out.len(), EDGE_WORDS) {
        Ok(rec) => tell(out, edges::covered_edge(rec, table)),
        Err(why) => why.number(),
    }
}
