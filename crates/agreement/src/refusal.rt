// Why a call is refused, a case for each of the paper's numbers. A gap and an overlap say how far the
// start lies from the next tick.
ghost use Rattle.std.specs.Prelude.{◌≡◌};
ghost use Rattle.agreement.specs.Numbers.{refusal_number, refusal_distance, answer_number, answer_distance};

use units::Distance;

#[derive(Clone, Copy)]
pub enum Refusal {
    OverLimit,
    Disagreement,
    NothingGiven,
    Gap(Distance),
    Overlap(Distance),
    TickLimit,
    CountLimit,
    PastEnd,
    NoRunLeft,
    ClockLimit,
    EarlierClock,
    NothingKept,
    NotKept,
    EmptySpan,
    ShortOutput,
    BadLine,
    BadOrder,
    NoEndToReach,
    EndUnknown,
}

impl Refusal {
    pub fn number(self) -> u32
        ensures { result ≡ refusal_number self }
    {
        match self {
            Refusal::OverLimit => 1,
            Refusal::Disagreement => 2,
            Refusal::NothingGiven => 3,
            Refusal::Gap(_) => 4,
            Refusal::Overlap(_) => 5,
            Refusal::TickLimit => 6,
            Refusal::CountLimit => 7,
            Refusal::PastEnd => 8,
            Refusal::NoRunLeft => 9,
            Refusal::ClockLimit => 10,
            Refusal::EarlierClock => 11,
            Refusal::NothingKept => 12,
            Refusal::NotKept => 13,
            Refusal::EmptySpan => 14,
            Refusal::ShortOutput => 15,
            Refusal::BadLine => 16,
            Refusal::BadOrder => 17,
            Refusal::NoEndToReach => 18,
            Refusal::EndUnknown => 19,
        }
    }

    // How far the start of a refused append lies from the next tick, 0 where that is not why.
    pub fn distance(self) -> u64
        ensures { result ≡ refusal_distance self }
    {
        match self {
            Refusal::Gap(distance) | Refusal::Overlap(distance) => distance.0,
            _ => 0,
        }
    }
}

// The number of the refusal that an answer is, 0 where the call was not refused.
pub fn number_of<T>(answer: &Result<T, Refusal>) -> u32
    ensures { result ≡ answer_number answer.now }
{
    match answer {
        Ok(_) => 0,
        Err(why) => why.number(),
    }
}

// Its distance, 0 where the call was not refused.
pub fn distance_of<T>(answer: &Result<T, Refusal>) -> u64
    ensures { result ≡ answer_distance answer.now }
{
    match answer {
        Ok(_) => 0,
        Err(why) => why.distance(),
    }
}
