// What the clock line asks.
ghost use Rattle.std.specs.Prelude.{◌≡◌};
ghost use Rattle.file.specs.SoFar.{first_bytes};
ghost use Rattle.report.specs.Clock.{asked_on};

use crate::Asked;
use agreement::Refusal;
use file::LineSoFar;
use frames::Frame;
use units::{Limited, Millis};

// A clock of all ones is the whole period.
const WHOLE: u64 = u64::MAX;

// What a line asks that is ended, by its first bytes.
#[tactic(auto, unfolding(crate::specs::Clock::asked_on))]
pub(crate) fn asked_on(line: LineSoFar) -> Result<Asked, Refusal>
    ensures { result ≡ asked_on (first_bytes line) }
{
    let Some(Frame::Clock(clock)) = frames::read_line(line.first_bytes()) else {
        return Err(Refusal::BadLine);
    };
    if clock.0 == WHOLE {
        return Ok(Asked::Whole);
    }
    let at = Millis::new(clock.0).ok_or(Refusal::ClockLimit)?;
    Ok(Asked::At(at))
}
