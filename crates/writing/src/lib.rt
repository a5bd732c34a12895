// Writing a file: the head, an S line for each used run, the end, each into the rest of the output.
#![tactic(auto)]

ghost use Rattle.std.specs.Prelude.{◌≡◌, true, cond, ◌++◌, ◌+◌, ◌*◌, ◌≤◌, ◌^◌, length, drop};
ghost use Rattle.units.specs.Limits.{largest_number};
ghost use Rattle.window.specs.Limits.{fields_of};
ghost use Rattle.runs.specs.Words.{runs_of, kept_in};
ghost use Rattle.runs.specs.Shape.{shaped};
ghost use Rattle.agreement.specs.Agreement.{agrees};
ghost use Rattle.frames.specs.Fields.{all_ones};
ghost use Rattle.frames.specs.Frames.{ended_length, head_line};
ghost use Rattle.writing.specs.Writing.{kept_head, s_frame, s_frames, bytes_of, file_for, write_answer, output_by};

use agreement::{Record, Refusal};
use frames::{Frame, HeadLine, SFields};
use runs::{Run, Runs};
use units::{Number, WideTick};
use window::{Head, HeadFields};

// The bytes of a head line and an end line, and of an S line, each with its feed.
const HEAD_AND_END_BYTES: usize = frames::HEAD_DIGITS + 1 + frames::END_DIGITS + 1;

const S_BYTES: usize = frames::S_DIGITS + 1;

// Inner: callers show that the number is held. The line of the head, with the number of the first kept
// reference.
fn head_line(rec: Record) -> HeadLine
    requires { rec.head.first.0 + rec.dropped ≤ largest_number }
    ensures { result ≡ head_line (fields_of (kept_head rec)) }
{
    let first = Number(rec.head.first.0 + rec.dropped);
    let head = Head { first, ..rec.head };
    HeadLine::from(HeadFields::from(head))
}

// Inner: callers show that the run counts. The S line of a run, with t on the first.
fn s_frame(run: Run, first: bool) -> Frame
    requires { 1 ≤ run.count }
    ensures { result ≡ s_frame (cond first run.start.0 all_ones) run }
{
    let t = if first { run.start.0 } else { SFields::ABSENT };
    Frame::S(SFields {
        t: WideTick(t),
        d: run.span.0,
        r: run.count - 1,
    })
}

// Inner: callers show that the table is shaped, keeps few enough references, and that there is room.
fn write_runs(table: &[u64], used: usize, out: &mut [u8]) -> usize
    requires { (shaped used table.now ≡ true) × (length (kept_in used table.now) ≤ 2 ^ 31) × (ended_length 2 * used ≤ length out.old) }
    ensures { (result ≡ ended_length 2 * used) × (out.new ≡ bytes_of (s_frames (runs_of used table.now)) ++ drop (ended_length 2 * used) out.old) }
{
    let mut at = 0;
    for (i, run) in Runs::of(table, used).enumerate() {
        at += frames::write_line(&mut out[at..], s_frame(run, i == 0));
    }
    at
}

// Inner: callers show that record and table agree and that there is room for the whole file.
fn write_all(rec: Record, table: &[u64], out: &mut [u8]) -> usize
    requires { (agrees rec table.now ≡ true) × (length (file_for rec table.now) ≤ length out.old) }
    ensures { (result ≡ length (file_for rec table.now)) × (out.new ≡ file_for rec table.now ++ drop result out.old) }
{
    let mut at = frames::write_line(out, Frame::Head(head_line(rec)));
    at += write_runs(table, rec.used, &mut out[at..]);
    at + frames::write_line(&mut out[at..], Frame::End(rec.used as u64))
}

// Writes the file of what record and table keep: the length written, or why nothing was.
pub fn write(rec: Record, table: &[u64], out: &mut [u8]) -> Result<usize, Refusal>
    ensures value { result ≡ write_answer rec table.now (length out.old) }
    ensures out_after { out.new ≡ output_by (write_answer rec table.now (length out.old)) (file_for rec table.now) out.old }
{
    if !rec.agrees(table) {
        return Err(Refusal::Disagreement);
    }
    let used = rec.used;
    if used == 0 {
        return Err(Refusal::NothingKept);
    }
    if out.len() < HEAD_AND_END_BYTES + S_BYTES * used {
        return Err(Refusal::ShortOutput);
    }
    Ok(write_all(rec, table, out))
}
