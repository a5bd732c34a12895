// What an answer puts into `out`: its words, where it is not refused, and nothing where it is.
ghost use Rattle.std.specs.Prelude.{◌≡◌, length, IfOk};
ghost use Rattle.agreement.specs.Numbers.{answer_number};
ghost use Rattle.words.specs.Tells.{told};

use crate::Told;
use agreement::Refusal;

// Inner, since out must have its length wherever the answer is told: puts its words there, and answers
// its number.
#[tactic(auto, unfolding(crate::specs::Tells::told))]
pub fn tell<W: Copy, const N: usize, T: Told<W, N> + Copy>(
    out: &mut [W],
    answer: Result<T, Refusal>,
) -> u32
    requires { IfOk answer (λ _. length out.old ≡ N) }
    ensures value { result ≡ answer_number answer }
    ensures out_after { out.new ≡ told T.shown answer out.old }
{
    match answer {
        Ok(told) => {
            out.copy_from_slice(&told.words());
            0
        }
        Err(why) => why.number(),
    }
}
