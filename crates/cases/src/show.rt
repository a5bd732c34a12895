// What a call that changes came to, printed: the number of its outcome, the twelve words of the record,
// the table.
use agreement::{Record, distance_of, number_of};
use keeping::Changed;
use std::io;
use window::HeadFields;

// How far the start of a refused append lies from the next tick, where that is why.
fn put_distance(out: &impl Print, distance: u64) -> io::Result<()> {
    if distance != 0 {
        print!(out; " by {distance}")?;
    }
    Ok(())
}

fn put_head(out: &impl Print, head: HeadFields) -> io::Result<()> {
    print!(out; " {} {} {}", head.timescale, head.offset, head.start)?;
    print!(out; " {} {}", head.duration, head.depth)?;
    print!(out; " {} {}", head.first, head.update)
}

fn put_record(out: &impl Print, rec: Record) -> io::Result<()> {
    put_head(out, HeadFields::from(rec.head))?;
    print!(out; " {} {}", rec.accepted, rec.dropped)?;
    print!(out; " {} {} {}", rec.next.0, rec.clock.0, rec.used)
}

fn put_words(out: &impl Print, words: &[u64]) -> io::Result<()> {
    for word in words {
        print!(out; " {word}")?;
    }
    Ok(())
}

pub(crate) fn show(out: &impl Print, changed: Changed, table: &[u64]) -> io::Result<()> {
    let rec = changed.rec;
    let outcome = changed.outcome;
    print!(out; " {}", number_of(&outcome))?;
    put_distance(out, distance_of(&outcome))?;
    print!(out; " |")?;
    put_record(out, rec)?;
    print!(out; " |")?;
    put_words(out, table)?;
    println!(out;)
}
