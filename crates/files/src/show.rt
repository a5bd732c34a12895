// What a reading came to and what a writing gives, printed.
use agreement::{Record, Refusal};
use file::ReadAnswer;
use std::io;

fn put_words(out: &impl Print, words: &[u64]) -> io::Result<()> {
    for word in words {
        print!(out; " {word}")?;
    }
    Ok(())
}

// How far the start of a refused line lies from the next tick, where that is why.
fn put_distance(out: &impl Print, distance: u64) -> io::Result<()> {
    if distance != 0 {
        print!(out; " by {distance}")?;
    }
    Ok(())
}

fn put_accepted(out: &impl Print, rec: Record) -> io::Result<()> {
    print!(out; " accepted {} dropped {}", rec.accepted, rec.dropped)?;
    print!(out; " next {} runs {}", rec.next.0, rec.used)
}

fn put_refused(out: &impl Print, why: Refusal, line: u64) -> io::Result<()> {
    print!(out; " refused {} line {line}", why.number())?;
    put_distance(out, why.distance())
}

pub(crate) fn put_answer(out: &impl Print, answer: ReadAnswer, table: &[u64]) -> io::Result<()> {
    match answer.outcome {
        Ok(()) => put_accepted(out, answer.rec)?,
        Err(why) => put_refused(out, why, answer.line)?,
    }
    put_words(out, table)?;
    print!(out; ";")
}

// The file of what is kept, or why there is none.
pub(crate) fn put_file(out: &impl Print, rec: Record, table: &[u64]) -> io::Result<()> {
    let mut bytes = [0u8; 256];
    match writing::write(rec, table, &mut bytes) {
        Ok(length) => out.write_all(&bytes[..length]),
        Err(why) => println!(out; "refused {}", why.number()),
    }
}
