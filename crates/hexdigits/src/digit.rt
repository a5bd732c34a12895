// One digit: a byte and what it means.
ghost use Rattle.std.specs.Prelude.{◌≡◌, ◌<◌};
ghost use Rattle.hexdigits.specs.Digits.{is_digit, value_of, digit_of};

// '0' to '9' or 'a' to 'f'.
#[tactic(auto, unfolding(crate::specs::Digits::is_digit, crate::specs::Digits::between))]
pub(crate) fn is_digit(b: u8) -> bool
    ensures { result ≡ is_digit b }
{
    matches!(b, b'0'..=b'9' | b'a'..=b'f')
}

// What a digit means; a byte that is none counts 0.
#[tactic(auto, unfolding(crate::specs::Digits::value_of, crate::specs::Digits::between))]
pub(crate) fn value(b: u8) -> u64
    ensures { result ≡ value_of b }
{
    match b {
        b'0'..=b'9' => (b - b'0') as u64,
        b'a'..=b'f' => (b - b'a') as u64 + 10,
        _ => 0,
    }
}

// Inner: sixteen and more have no digit. The digit that means v.
#[tactic(auto, unfolding(crate::specs::Digits::digit_of))]
pub(crate) fn digit_of(v: u64) -> u8
    requires { v < 16 }
    ensures { result ≡ digit_of v }
{
    match v {
        0..=9 => b'0' + v as u8,
        _ => b'a' + (v - 10) as u8,
    }
}
