// A record as words, and words as a record.
ghost use Rattle.std.specs.Prelude.{◌≡◌, length};
ghost use Rattle.words.specs.Words.{words_of};
ghost use Rattle.words.specs.Lengths.{record_in};

use agreement::{Record, Refusal};
use units::{Millis, Number, Tick, Timescale};
use window::Head;

// The record that 12 words mean, each field any word: agreement judges them. Words of another length are
// none.
#[tactic(auto, unfolding(crate::specs::Lengths::record_in, crate::specs::Words::record_of))]
pub fn record_in(words: &[u64]) -> Result<Record, Refusal>
    ensures { result ≡ record_in words.now }
{
    let [
        timescale,
        offset,
        start,
        duration,
        depth,
        first,
        update,
        accepted,
        dropped,
        next,
        clock,
        used,
    ] = words
    else {
        return Err(Refusal::Disagreement);
    };
    Ok(Record {
        head: Head {
            timescale: Timescale(*timescale),
            offset: Tick(*offset),
            start: Millis(*start),
            duration: Millis(*duration),
            depth: Millis(*depth),
            first: Number(*first),
            update: Millis(*update),
        },
        accepted: *accepted,
        dropped: *dropped,
        next: Tick(*next),
        clock: Millis(*clock),
        used: *used as usize,
    })
}

// Inner, since there must be 12 words: writes a record over them.
#[tactic(auto, unfolding(crate::specs::Words::words_of))]
pub(crate) fn put_record(words: &mut [u64], rec: Record)
    requires { length words.old ≡ 12 }
    ensures { words.new ≡ words_of rec }
{
    words.copy_from_slice(&[
        rec.head.timescale.0,
        rec.head.offset.0,
        rec.head.start.0,
        rec.head.duration.0,
        rec.head.depth.0,
        rec.head.first.0,
        rec.head.update.0,
        rec.accepted,
        rec.dropped,
        rec.next.0,
        rec.clock.0,
        rec.used as u64,
    ]);
}
