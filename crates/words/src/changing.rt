// What a call that changes gives back: its record over the words that it came in, the distance of an
// append, and the number.
ghost use Rattle.std.specs.Prelude.{◌≡◌, length};
ghost use Rattle.agreement.specs.Numbers.{answer_number};
ghost use Rattle.words.specs.Words.{words_of};
ghost use Rattle.words.specs.Tells.{distance_out};

use crate::packing::put_record;
use agreement::{Refusal, number_of};
use keeping::{Changed, Outcome};

// Inner, since there must be 12 words: writes back the record that a call answers, and answers the
// number of its outcome.
pub fn give_back(words: &mut [u64], changed: Changed) -> u32
    requires { length words.old ≡ 12 }
    ensures value { result ≡ answer_number changed.outcome }
    ensures words_after { words.new ≡ words_of changed.rec }
{
    put_record(words, changed.rec);
    let outcome = changed.outcome;
    number_of(&outcome)
}

// Inner, since out must have its length: puts the distance of a gap or an overlap there.
#[tactic(auto, unfolding(crate::specs::Tells::distance_out))]
fn put_distance(out: &mut [u64], outcome: Outcome)
    requires { length out.old ≡ 1 }
    ensures { out.new ≡ distance_out outcome out.old }
{
    if let Err(Refusal::Gap(distance) | Refusal::Overlap(distance)) = outcome {
        out[0] = distance.0;
    }
}

// Inner, since record and out must have their lengths: writes back the record that an append answers and
// its distance, and answers the number of its outcome.
pub fn give_appended(words: &mut [u64], out: &mut [u64], changed: Changed) -> u32
    requires { (length words.old ≡ 12) × (length out.old ≡ 1) }
    ensures value { result ≡ answer_number changed.outcome }
    ensures words_after { words.new ≡ words_of changed.rec }
    ensures out_after { out.new ≡ distance_out changed.outcome out.old }
{
    let outcome = changed.outcome;
    put_distance(out, outcome);
    give_back(words, changed)
}
