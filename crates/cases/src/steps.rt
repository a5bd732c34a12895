// A step is a line: the name of the call, then its numbers in decimal digits, a blank before each.
use units::{Stamp, WideMillis, WideNumber, WideTick};
use window::HeadFields;

// A call that changes record and table, with its words: a start or a stamp, duration, count, a clock.
#[derive(Clone, Copy)]
pub(crate) enum Change {
    Append(WideTick, u32, u32),
    Stamp(Stamp, u32, u32),
    Pair(Stamp, u32, u32, WideMillis),
    Trim(WideMillis),
}

// A call that looks at them.
#[derive(Clone, Copy)]
pub(crate) enum Look {
    Verdict(WideMillis),
    Whole,
    Number(WideNumber),
    Runs(WideTick, WideTick),
    Clock(WideNumber, WideMillis),
}

#[derive(Clone, Copy)]
pub(crate) enum Call {
    Open(HeadFields, WideTick),
    Change(Change),
    // The record is lent to the call.
    Lent(Change),
    Follow(Stamp, u32, u32, WideMillis),
    Look(Look),
}

// The longest call, open, has eight numbers; place 0 is that of the name.
const PLACES: usize = 9;

type Numbers = [u64; PLACES];

// One digit more. A number that 64 bits do not hold, or a byte that is no digit, changes nothing.
fn with_digit(number: u64, byte: u8) -> u64 {
    if !byte.is_ascii_digit() {
        return number;
    }
    let digit = u64::from(byte - b'0');
    number
        .checked_mul(10)
        .and_then(|tens| tens.checked_add(digit))
        .unwrap_or(number)
}

// A blank begins the next number, and the last goes on.
fn numbers(line: &[u8]) -> Numbers {
    let mut numbers = [0; PLACES];
    let parts = line.splitn(PLACES, |byte| *byte == b' ');
    for (number, part) in numbers.iter_mut().zip(parts) {
        *number = part
            .iter()
            .fold(0, |so_far, byte| with_digit(so_far, *byte));
    }
    numbers
}

fn low(word: u64) -> u32 {
    (word & 0xffff_ffff) as u32
}

fn open(numbers: Numbers) -> Call {
    let [
        _,
        timescale,
        offset,
        start,
        duration,
        depth,
        first,
        update,
        tick,
    ] = numbers;
    let fields = HeadFields {
        timescale,
        offset,
        start,
        duration,
        depth,
        first,
        update,
    };
    Call::Open(fields, WideTick(tick))
}

// The first letter of a step's name. An empty line is no step, and neither is a comment, which begins
// with '#'.
pub(crate) fn name_of(line: &[u8]) -> Option<u8> {
    match line.first() {
        None | Some(b'#') => None,
        Some(name) => Some(*name),
    }
}

impl Call {
    // By the first letter of its name.
    pub(crate) fn of(name: u8, line: &[u8]) -> Call {
        let numbers = numbers(line);
        let [_, a, b, c, d, ..] = numbers;
        let append = Change::Append(WideTick(a), low(b), low(c));
        let stamp = Change::Stamp(Stamp(low(a)), low(b), low(c));
        let pair = Change::Pair(Stamp(low(a)), low(b), low(c), WideMillis(d));
        let trim = Change::Trim(WideMillis(a));
        match name {
            b'o' => open(numbers),
            b'a' => Call::Change(append),
            b's' => Call::Change(stamp),
            b'p' => Call::Change(pair),
            b't' => Call::Change(trim),
            b'A' => Call::Lent(append),
            b'S' => Call::Lent(stamp),
            b'P' => Call::Lent(pair),
            b'T' => Call::Lent(trim),
            b'f' => Call::Follow(Stamp(low(a)), low(b), low(c), WideMillis(d)),
            b'v' => Call::Look(Look::Verdict(WideMillis(a))),
            b'w' => Call::Look(Look::Whole),
            b'n' => Call::Look(Look::Number(WideNumber(a))),
            b'r' => Call::Look(Look::Runs(WideTick(a), WideTick(b))),
            _ => Call::Look(Look::Clock(WideNumber(a), WideMillis(b))),
        }
    }
}
