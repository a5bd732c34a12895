// The end of the input: the file is read to its end, the verdict is asked, and the reply is written.
ghost use Rattle.std.specs.Prelude.{◌≡◌, length};
ghost use Rattle.wording.specs.Text.{text_of, over};
ghost use Rattle.report.specs.Answer.{refused_at, verdict_asked, table_in, answer_in};
ghost use Rattle.report.specs.Feeding.{reply_by, table_by};

use crate::{Asked, Desk, feeding};
use agreement::{Record, Refusal};
use answers::Verdict;
use units::WideMillis;
use wording::{RefusedLine, Reply};

impl Asked {
    // The verdict that is asked.
    fn verdict(self, rec: Record, table: &[u64]) -> Result<Verdict, Refusal>
        ensures { result ≡ verdict_asked self rec table.now }
    {
        match self {
            Asked::At(clock) => answers::verdicts::verdict(rec, table, WideMillis(clock.0)),
            Asked::Whole => answers::verdicts::verdict_whole(rec, table),
        }
    }
}

fn refused_at(why: Refusal, line: u64) -> Reply
    ensures { result ≡ refused_at why line }
{
    Err(RefusedLine { why, line })
}

// A refused clock line and a refused verdict are told at line 0, a refused file at its line.
#[tactic(auto, unfolding(crate::specs::Feeding::reply_by, crate::specs::Feeding::table_by, crate::specs::Answer::reply_on))]
fn reply(desk: Desk, table: &mut [u64]) -> Reply
    ensures value { result ≡ reply_by desk table.old }
    ensures table_after { table.new ≡ table_by desk table.old }
{
    let asked = match desk.asked {
        Some(Ok(asked)) => asked,
        Some(Err(why)) => return refused_at(why, 0),
        None => return refused_at(Refusal::BadLine, 0),
    };
    let read = file::finish(desk.reader, table);
    match read.outcome {
        Ok(()) => asked
            .verdict(read.rec, table)
            .or_else(|why| refused_at(why, 0)),
        Err(why) => refused_at(why, read.line),
    }
}

// The input ends here: the answer's line at the front of the output, the rest as it came, and its
// length, for any desk and any table.
pub fn answer(desk: Desk, table: &mut [u64], out: &mut [u8; 93]) -> usize
    ensures value { result ≡ length (text_of (reply_by desk table.old)) }
    ensures out_after { out.new ≡ over (text_of (reply_by desk table.old)) out.old }
    ensures table_after { table.new ≡ table_by desk table.old }
{
    let told = reply(desk, table);
    wording::put_line(out, told)
}

// The answer to a whole input, in any table.
pub fn answer_whole(input: &[u8], table: &mut [u64], out: &mut [u8; 93]) -> usize
    ensures value { result ≡ length (answer_in table.old input.now) }
    ensures out_after { out.new ≡ over (answer_in table.old input.now) out.old }
    ensures table_after { table.new ≡ table_in table.old input.now }
{
    let desk = feeding::feed(feeding::begin(), table, input);
    answer(desk, table, out)
}
