// The answers of the calls that look, printed: the number of the refusal, 0 where there is none, and
// the words of the answer.
use crate::steps::Look;
use agreement::{Record, Refusal, number_of};
use answers::Verdict;
use lookups::Availability;
use std::io;
use units::WideTick;

fn row(out: &impl Print, number: u32, words: [u64; 5]) -> io::Result<()> {
    print!(out; " {number} |")?;
    for word in words {
        print!(out; " {word}")?;
    }
    Ok(())
}

fn put_verdict(out: &impl Print, answer: Result<Verdict, Refusal>) -> io::Result<()> {
    let number = number_of(&answer);
    let Ok(verdict) = answer else {
        return row(out, number, [0; 5]);
    };
    let percent = verdict.percent().unwrap_or(0);
    match verdict {
        Verdict::Nothing => row(out, number, [0, 0, 0, 0, percent]),
        Verdict::Complete(n) => row(out, number, [1, n, n, 0, percent]),
        Verdict::Lacking(n, m, k) => row(out, number, [2, n, m, k.0, percent]),
    }
}

// Whether it is so, 0 where it is not and where the call was refused.
fn put_whether(out: &impl Print, answer: Result<bool, Refusal>) -> io::Result<()> {
    let so = u64::from(answer.unwrap_or(false));
    row(out, number_of(&answer), [so, 0, 0, 0, 0])
}

// Whether it ends; its points are asked by `clock`, at the clocks around them.
fn put_availability(out: &impl Print, answer: Result<Availability, Refusal>) -> io::Result<()> {
    put_whether(
        out,
        answer.map(|when| matches!(when, Availability::Ends(_, _))),
    )
}

fn touch(out: &impl Print, rec: Record, table: &[u64], a: WideTick, b: WideTick) -> io::Result<()> {
    let part = lookups::spans::touching(rec, table, a, b).len() as u64;
    let answer = lookups::spans::touching_words(rec, table, a, b);
    let number = number_of(&answer);
    match answer {
        Ok(words) => row(
            out,
            number,
            [words.from as u64, words.to as u64, part, 0, 0],
        ),
        Err(_) => row(out, number, [0, 0, part, 0, 0]),
    }
}

pub(crate) fn look(out: &impl Print, call: Look, rec: Record, table: &[u64]) -> io::Result<()> {
    match call {
        Look::Verdict(at) => put_verdict(out, answers::verdicts::verdict(rec, table, at)),
        Look::Whole => put_verdict(out, answers::verdicts::verdict_whole(rec, table)),
        Look::Number(n) => put_availability(out, lookups::times::availability(rec, table, n)),
        Look::Runs(a, b) => touch(out, rec, table, a, b),
        Look::Clock(n, at) => put_whether(out, lookups::times::available_at(rec, table, n, at)),
    }?;
    println!(out;)
}
