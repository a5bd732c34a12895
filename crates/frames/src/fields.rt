// The fields of a line over a row of widths in bytes, the kind's own byte among them.
ghost use Rattle.std.specs.Prelude.{◌≡◌, ◌∷◌, ◌++◌, ◌+◌, ◌≤◌, ◌<◌, length, drop};
ghost use Rattle.frames.specs.Fields.{digit_count, field_digits, field_values, Narrow};

// Inner: the line has the digits of the row, and no field is wider than a word: so it is for every
// kind.
pub(crate) fn read_fields<const N: usize>(line: &[u8], widths: &[usize; N]) -> [u64; N]
    requires { (digit_count widths.now ≤ length line.now) × (Narrow widths.now) }
    ensures { result ≡ field_values widths.now line.now }
{
    let mut values = [0; N];
    let mut rest = line;
    for (i, width) in widths.iter().enumerate() {
        let (field, behind) = rest.split_at(2 * width);
        values[i] = hexdigits::number(field);
        rest = behind;
    }
    values
}

// Inner: there is room for the line and its feed. The length written.
pub(crate) fn write_fields<const N: usize>(
    out: &mut [u8],
    widths: &[usize; N],
    values: &[u64; N],
) -> usize
    requires { digit_count widths.now < length out.old }
    ensures { (result ≡ digit_count widths.now + 1) × (out.new ≡ field_digits widths.now values.now ++ 10 ∷ drop (digit_count widths.now + 1) out.old) }
{
    let mut at = 0;
    for (width, value) in widths.iter().zip(values) {
        let end = at + 2 * width;
        hexdigits::write_digits(&mut out[at..end], *value);
        at = end;
    }
    out[at] = b'\n';
    at + 1
}
