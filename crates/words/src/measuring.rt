// The lengths of a record and of `out`: where one is wrong, a call is refused for it before all else.
ghost use Rattle.std.specs.Prelude.{◌≡◌};
ghost use Rattle.words.specs.Lengths.{record_beside};

use crate::packing::record_in;
use agreement::{Record, Refusal};

// The record that words mean, beside an `out` of so many words that must have its size.
#[tactic(auto, unfolding(crate::specs::Lengths::record_in, crate::specs::Lengths::record_beside))]
pub fn record_beside(words: &[u64], out: usize, size: usize) -> Result<Record, Refusal>
    ensures { result ≡ record_beside words.now out size }
{
    let rec = record_in(words)?;
    if out != size {
        return Err(Refusal::ShortOutput);
    }
    Ok(rec)
}
