// Percent, rounded down: 9,999 of 10,000 is 99.
ghost use Rattle.std.specs.Prelude.{◌≡◌, ◌*◌, ◌/◌, ◌≤◌, ◌<◌};
ghost use Rattle.answers.specs.Shares.{percent_of, share_of};

use crate::Verdict;

// Inner, as below, where the product may pass 64 bits: covered is added a hundred times, and needed is
// taken off whenever it is reached. A division of 128 bits would need a library that C may not link.
fn counted(needed: u64, covered: u64) -> u64
    requires { (0 < needed) × (covered ≤ needed) }
    ensures { result ≡ 100 * covered / needed }
{
    let short = needed - covered;
    let mut whole = 0;
    let mut left = 0;
    for _ in 0..100u64 {
        if left < short {
            left += covered;
        } else {
            left -= short;
            whole += 1;
        }
    }
    whole
}

// Inner, since no more may be covered than needed: covered x 100 / needed.
fn hundredths(needed: u64, covered: u64) -> u64
    requires { (0 < needed) × (covered ≤ needed) }
    ensures { result ≡ covered * 100 / needed }
{
    match covered.checked_mul(100) {
        Some(product) => product / needed,
        None => counted(needed, covered),
    }
}

// The percent of any two counts: none where nothing is needed, or less than is covered.
pub fn percent(needed: u64, covered: u64) -> Option<u64>
    ensures { result ≡ percent_of needed covered }
{
    if needed == 0 {
        return None;
    }
    if needed < covered {
        return None;
    }
    Some(hundredths(needed, covered))
}

impl Verdict {
    // The percent of any verdict: none where nothing is needed.
    pub fn percent(self) -> Option<u64>
        ensures { result ≡ share_of self }
    {
        match self {
            Verdict::Nothing => None,
            Verdict::Complete(needed) => percent(needed, needed),
            Verdict::Lacking(needed, covered, _) => percent(needed, covered),
        }
    }
}
