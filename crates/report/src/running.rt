// The program's reads and its one write. No contract can say which bytes the system brings or takes.
// Stated is what lies between, for any reader: the loop ends and leaves desk and table where some pieces of
// input bring them, and the line that is made then is the answer to all the bytes of those pieces; where the
// loop stopped because the answer is settled, to those bytes with any more behind them. Of a reader whose bytes
// are known, as one over memory, the line is the answer to them. `run` hands the line to the write, unless a
// read failed, tells what failed on standard error and ends with it.
ghost use Rattle.std.specs.Prelude.{◌≡◌, IfOk, IfSome, OnErr};
ghost use Rattle.std.specs.Io.{ReadsAtMost};
ghost use Rattle.report.specs.Running.{Reads, ReadsKnown, Left, Tells, Answered, AnswersKnown};

use crate::{Desk, Fed, Made, Stopped, feeding, replying};
use std::fs::File;
use std::io;
use std::io::{ErrorKind, Input, Read};
use std::rt::Files;

// A read, again while a signal comes first. A proved loop has to end, and nothing says that this one
// does: so the turns are counted, up to a number that no run uses up.
fn read_once<R: Read>(input: &mut R, buffer: &mut [u8]) -> io::Result<usize>
    ensures { ReadsAtMost result buffer.new }
{
    for _ in 0..u64::MAX {
        match input.read(buffer) {
            Ok(count) => return Ok(count),
            Err(failure) => {
                if failure.kind() != ErrorKind::Interrupted {
                    return Err(failure);
                }
            }
        }
    }
    Err(io::Error::from(ErrorKind::Interrupted))
}

// Standard input. A descriptor that does not block may have no bytes yet: then the same input is opened
// as one that does, so that the read waits for them.
#[derive(Drop)]
struct StandardInput<'a, R: Input + Files> {
    rt: &'a R,
    reader: R::Reader,
}

impl<'a, R: Input + Files> Read for StandardInput<'a, R> {
    fn read(&mut self, buffer: &mut [u8]) -> io::Result<usize> {
        let got = read_once(&mut self.reader, buffer);
        if let Err(failure) = &got {
            if failure.kind() == ErrorKind::WouldBlock {
                return read_once(&mut File::open(self.rt, "/dev/stdin")?, buffer);
            }
        }
        got
    }
}

// A read that brings nothing ends the input. One that fails never passes for that end, and neither do
// turns that are used up, which are counted as above: both are errors.
fn feed_all<R: Read>(input: &mut R, table: &mut [u64]) -> io::Result<Fed>
    ensures fed { IfOk result (λ fed. Reads table.old fed table.new) }
    ensures known { IfOk result (λ fed. IfSome (R.remaining input.old) (λ known. ReadsKnown known table.old fed table.new)) }
    ensures failed { OnErr result (Left table.old table.new) }
{
    let mut buffer = [0u8; 65536];
    let mut desk = feeding::begin();
    for _ in 0..u64::MAX {
        let count = input.read(&mut buffer)?;
        if count == 0 {
            return Ok(Fed {
                desk,
                stopped: Stopped::Ended,
            });
        }
        desk = feeding::feed(desk, table, &buffer[..count]);
        if feeding::settled(desk) {
            return Ok(Fed {
                desk,
                stopped: Stopped::Settled,
            });
        }
    }
    Err(io::Error::from(ErrorKind::TimedOut))
}

// The line to the pieces that brought desk and table where they stand, whichever they are.
fn tell(desk: Desk, table: &mut [u64], out: &mut [u8; 93]) -> usize
    ensures { Tells desk table.old out.new result }
{
    replying::answer(desk, table, out)
}

// Reads an input until its answer is certain, and makes the line.
fn answer_input<R: Read>(input: &mut R, out: &mut [u8; 93]) -> io::Result<Made>
    ensures answered { IfOk result (λ made. Answered made.stopped out.new made.count) }
    ensures known { IfOk result (λ made. IfSome (R.remaining input.old) (λ known. AnswersKnown known out.new made.count)) }
    ensures failed { OnErr result (out.new ≡ out.old) }
{
    let mut table = [0u64; 3072];
    let Fed { desk, stopped } = feed_all(input, &mut table)?;
    let count = tell(desk, &mut table, out);
    Ok(Made { count, stopped })
}

fn read_and_answer<R: Input + Files>(rt: &R, out: &mut [u8; 93]) -> io::Result<Made>
    ensures answered { IfOk result (λ made. Answered made.stopped out.new made.count) }
    ensures failed { OnErr result (out.new ≡ out.old) }
{
    let reader = rt.reader();
    answer_input(&mut StandardInput { rt, reader }, out)
}

// Tells a failure on standard error, and hands it on.
fn tell_failure(rt: &impl Eprint, what: &str, failure: io::Error) -> io::Error {
    let _ = eprintln!(rt; "desk: {what}: {failure}");
    failure
}

// Reads standard input until its answer is certain, and writes the answer to standard output. Where a
// read failed there is none. What failed is told on standard error, and is what the program ends with.
pub fn run<R: Input + Files + Print + Eprint>(rt: &R) -> io::Result<()> {
    let mut line = [0u8; 93];
    let read = read_and_answer(rt, &mut line);
    let made = read.map_err(|failure| tell_failure(rt, "reading standard input", failure))?;
    let written = rt.write_all(&line[..made.count]);
    written.map_err(|failure| tell_failure(rt, "writing standard output", failure))
}
