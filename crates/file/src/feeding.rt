// Reading a file: up to a feed the line so far grows, and then the line is judged. A whole file is one
// piece.
ghost use Rattle.std.specs.Prelude.{◌≡◌, ◌≤◌};
ghost use Rattle.keeping.specs.Keeping.{words_by};
ghost use Rattle.timeline.specs.Opening.{zero_record};
ghost use Rattle.file.specs.Judging.{take_line, stop_outcome, answered_by, zeroed, read_answer, read_table};
ghost use Rattle.file.specs.Sound.{Sound};
ghost use Rattle.file.specs.SoFar.{first_bytes};
ghost use Rattle.file.specs.Settled.{reader_settled};
ghost use Rattle.file.specs.Feeding.{most_lines, lines_held, stage_held, belongs, begun_reader, fed_reader, fed_table, finish_answer, finish_table};

use crate::{LineSoFar, ReadAnswer, Reader, Reading, Stage, lines};
use agreement::Refusal;
use keeping::Outcome;

// A head, an S line for each of at most 2^31 references, and an end.
const MOST_LINES: u64 = 2_147_483_650;

// A reader that has been fed nothing.
#[tactic(auto, unfolding(crate::specs::Feeding::begun_reader))]
pub fn begin() -> Reader
    ensures { result ≡ begun_reader }
{
    let reading = Reading {
        stage: Stage::Nothing,
        lines: 0,
        rec: timeline::zero_record(),
    };
    Reader {
        reading,
        line: LineSoFar::none(),
    }
}

impl Reading {
    // Whether record and table agree, the head is taken, and each S line gave a reference at least.
    fn lines_held(self, table: &[u64]) -> bool
        ensures { result ≡ lines_held self table.now }
    {
        self.rec.agrees(table) && 1 <= self.lines && self.lines - 1 <= self.rec.accepted
    }

    // Whether what the stage asks holds.
    #[tactic(auto, unfolding(crate::specs::Feeding::stage_held))]
    fn stage_held(self, table: &[u64]) -> bool
        ensures { result ≡ stage_held self.stage self table.now }
    {
        match self.stage {
            Stage::Nothing => self.lines == 0,
            Stage::Headed => self.rec.head.held() && self.lines == 1,
            Stage::Open | Stage::Filled => self.lines_held(table),
            Stage::Ended => self.rec.agrees(table) && self.lines <= MOST_LINES,
            Stage::Refused(_) => self.lines <= MOST_LINES,
        }
    }
}

impl Reader {
    // Whether reader and table belong together.
    #[tactic(auto, unfolding(crate::specs::Feeding::belongs))]
    fn belongs(self, table: &[u64]) -> bool
        ensures { result ≡ belongs self table.now }
    {
        self.line.proper() && self.reading.stage_held(table)
    }
}

// Feeds one piece more. A reader that does not belong to the table comes back as it came. Each round takes
// what is left up to a feed, and counts no place; one that belongs has a proper line, so a part goes behind it.
pub fn feed(reader: Reader, table: &mut [u64], piece: &[u8]) -> Reader
    ensures value { result ≡ fed_reader reader table.old piece.now }
    ensures table_after { table.new ≡ fed_table reader table.old piece.now }
{
    if !reader.belongs(table) {
        return reader;
    }
    let Reader {
        mut reading,
        mut line,
    } = reader;
    let mut left = piece;
    while let Some(end) = lines::feed_at(left) {
        line = line.with(&left[..end]);
        reading = reading.take_line(table, line.first_bytes());
        line = LineSoFar::none();
        left = &left[end + 1..];
    }
    if !left.is_empty() {
        line = line.with(left);
    }
    Reader { reading, line }
}

// Whether the answer is settled: whatever is fed yet, `finish` answers as it would now.
#[tactic(auto, unfolding(crate::specs::Settled::reader_settled))]
pub fn settled(reader: Reader) -> bool
    ensures { result ≡ reader_settled reader }
{
    if reader.line.too_long() {
        return true;
    }
    match reader.reading.stage {
        Stage::Nothing | Stage::Headed | Stage::Open | Stage::Filled => false,
        Stage::Ended => 1 <= reader.line.count,
        Stage::Refused(_) => true,
    }
}

impl Stage {
    // By how many bytes stand after the last feed.
    fn stop_outcome(self, after: usize) -> Outcome
        ensures { result ≡ stop_outcome self after }
    {
        match self {
            Stage::Ended if after == 0 => Ok(()),
            Stage::Refused(why) => Err(why),
            _ => Err(Refusal::BadLine),
        }
    }
}

impl ReadAnswer {
    fn refused(why: Refusal, line: u64) -> ReadAnswer
        ensures { result ≡ record { outcome = Err why; rec = zero_record; line = line } }
    {
        ReadAnswer {
            outcome: Err(why),
            rec: timeline::zero_record(),
            line,
        }
    }
}

impl Reading {
    // Inner: callers show that the lines are few enough to count one more. What the reading comes to.
    fn answered(self, outcome: Outcome) -> ReadAnswer
        requires { self.lines ≤ most_lines }
        ensures { result ≡ answered_by outcome self }
    {
        match outcome {
            Ok(()) => ReadAnswer {
                outcome,
                rec: self.rec,
                line: 0,
            },
            Err(why) => ReadAnswer::refused(why, self.lines + 1),
        }
    }
}

// A refused reading leaves a zeroed table.
#[tactic(auto, unfolding(keeping::specs::Keeping::words_by))]
fn settle_words(outcome: Outcome, table: &mut [u64])
    ensures { table.new ≡ words_by outcome table.old (zeroed table.old) }
{
    if outcome.is_err() {
        runs::table::clear(table);
    }
}

// The file stops here. A reader that does not belong to the table is refused, and no word changes.
#[tactic(auto, using(crate::proofs::Stopping::stop_lines), unfolding(crate::specs::Feeding::finish_answer, crate::specs::Feeding::finish_table))]
pub fn finish(reader: Reader, table: &mut [u64]) -> ReadAnswer
    ensures value { result ≡ finish_answer reader table.old }
    ensures table_after { table.new ≡ finish_table reader table.old }
{
    if !reader.belongs(table) {
        return ReadAnswer::refused(Refusal::Disagreement, 0);
    }
    let reading = reader.reading;
    let outcome = reading.stage.stop_outcome(reader.line.count);
    settle_words(outcome, table);
    reading.answered(outcome)
}

// Reads a whole file into a table.
pub fn read(bytes: &[u8], table: &mut [u64]) -> ReadAnswer
    ensures value { result ≡ read_answer bytes.now table.old }
    ensures table_after { table.new ≡ read_table bytes.now table.old }
{
    let reader = feed(begin(), table, bytes);
    finish(reader, table)
}
