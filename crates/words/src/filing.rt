// What a reading gives back: the record, the line, the distance.
ghost use Rattle.std.specs.Prelude.{◌≡◌, [], ◌∷◌, length};
ghost use Rattle.agreement.specs.Numbers.{answer_distance, answer_number};
ghost use Rattle.words.specs.Words.{words_of};

use crate::packing::put_record;
use agreement::{distance_of, number_of};
use file::ReadAnswer;

// Inner, since record and out must have their lengths: writes back the record of a reading, its line and
// its distance, and answers the number of its outcome.
pub fn give_read(words: &mut [u64], out: &mut [u64], answer: ReadAnswer) -> u32
    requires { (length words.old ≡ 12) × (length out.old ≡ 2) }
    ensures value { result ≡ answer_number answer.outcome }
    ensures words_after { words.new ≡ words_of answer.rec }
    ensures out_after { out.new ≡ answer.line ∷ answer_distance answer.outcome ∷ [] }
{
    put_record(words, answer.rec);
    let outcome = answer.outcome;
    out[0] = answer.line;
    out[1] = distance_of(&outcome);
    number_of(&outcome)
}
