// Lower-case hexadecimal digits, on lent parts of slices.
#![tactic(auto)]

ghost use Rattle.std.specs.Prelude.{◌≡◌, ◌≤◌, length};
ghost use Rattle.hexdigits.specs.Digits.{are_digits, number_of, digits_of};

mod digit;

// Whether every byte is a lower-case hexadecimal digit.
pub fn are_digits(s: &[u8]) -> bool
    ensures { result ≡ are_digits s.now }
{
    s.iter().all(|b| digit::is_digit(*b))
}

// Inner: the number of more than 16 digits need not fit a word. What the digits mean.
pub fn number(s: &[u8]) -> u64
    requires { length s.now ≤ 16 }
    ensures { result ≡ number_of s.now }
{
    let mut n: u64 = 0;
    for b in s {
        n = n * 16 + digit::value(*b);
    }
    n
}

// Writes the last digits of x over the whole part, as many as it has room for. They come from the
// end: each is the remainder of what is left.
pub fn write_digits(s: &mut [u8], x: u64)
    ensures { s.new ≡ digits_of (length s.old) x }
{
    let mut rest = x;
    for at in (0..s.len()).rev() {
        s[at] = digit::digit_of(rest % 16);
        rest /= 16;
    }
}
