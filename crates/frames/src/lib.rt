// One line of the file as a frame, read and written. A line here is the bytes before its line feed.
#![tactic(auto)]

ghost use Rattle.std.specs.Prelude.{◌≡◌, ◌<◌, length};
ghost use Rattle.frames.specs.Frames.{Fits, Written, fields_in, frame_of, head_kind, head_line, kind_of, line_length};

mod fields;
mod kinds;

use kinds::Kind;
pub use kinds::{END_DIGITS, HEAD_DIGITS, LONGEST_LINE, S_DIGITS};
use units::{WideMillis, WideTick};
use window::HeadFields;

// The fields of an S line as they stand in the file: what an absent t and a negative r mean, and
// whether d is a duration, is judged above.
#[derive(Clone, Copy)]
pub struct SFields {
    pub t: WideTick,
    pub d: u64,
    pub r: u64,
}

impl SFields {
    // A t of all ones is absent.
    pub const ABSENT: u64 = 18_446_744_073_709_551_615;
}

// The fields of a head line as they stand in the file: a line of kind 01 has no update period.
#[derive(Clone, Copy)]
pub struct HeadLine {
    pub timescale: u64,
    pub offset: u64,
    pub start: u64,
    pub duration: u64,
    pub depth: u64,
    pub first: u64,
    pub update: Option<u64>,
}

// The fields of the head that a line has: an update period that is absent is 0.
impl From<HeadLine> for HeadFields {
    ghost from_gives = { λ line fields. fields ≡ fields_in line };

    fn from(line: HeadLine) -> HeadFields {
        HeadFields {
            timescale: line.timescale,
            offset: line.offset,
            start: line.start,
            duration: line.duration,
            depth: line.depth,
            first: line.first,
            update: line.update.unwrap_or(0),
        }
    }
}

// The line that is written of the fields of a head: it always has the update period.
impl From<HeadFields> for HeadLine {
    ghost from_gives = { λ fields line. line ≡ head_line fields };

    fn from(fields: HeadFields) -> HeadLine {
        HeadLine {
            timescale: fields.timescale,
            offset: fields.offset,
            start: fields.start,
            duration: fields.duration,
            depth: fields.depth,
            first: fields.first,
            update: Some(fields.update),
        }
    }
}

// A frame by its kind. Its fields are any that its widths hold.
#[derive(Clone, Copy)]
pub enum Frame {
    Head(HeadLine),
    S(SFields),
    End(u64),
    Clock(WideMillis),
}

// How many digits a line of a kind has; of an unknown kind, those of the kind alone.
pub fn line_length(kind: u64) -> usize
    ensures { result ≡ line_length kind }
{
    Kind::of(kind).map_or(2, |known| known.digits())
}

// What frame a line is, whatever its bytes; none where it is no frame.
pub fn read_line(line: &[u8]) -> Option<Frame>
    ensures { result ≡ frame_of line.now }
{
    if !hexdigits::are_digits(line) {
        return None;
    }
    let kind = Kind::of(hexdigits::number(line.get(..2)?))?;
    if line.len() != kind.digits() {
        return None;
    }
    Some(kind.frame(line))
}

// Inner, as below: the line of a head, of the kind that its update period asks for.
fn write_head(out: &mut [u8], h: HeadLine) -> usize
    requires { line_length (head_kind h.update) < length out.old }
    ensures { Written (Frame.Head h) out.old out.new result }
{
    let HeadLine {
        timescale,
        offset,
        start,
        duration,
        depth,
        first,
        update,
    } = h;
    match update {
        None => {
            let kind = Kind::OlderHead.number();
            let values = [kind, timescale, offset, start, duration, depth, first];
            fields::write_fields(out, &kinds::OLDER_WIDTHS, &values)
        }
        Some(update) => {
            let kind = Kind::Head.number();
            let values = [
                kind, timescale, offset, start, duration, depth, first, update,
            ];
            fields::write_fields(out, &kinds::HEAD_WIDTHS, &values)
        }
    }
}

// Inner: the frame is one that fits its widths, and the output has room for its line and feed.
// Writes both at the front; the length written.
pub fn write_line(out: &mut [u8], frame: Frame) -> usize
    requires { (Fits frame) × (line_length (kind_of frame) < length out.old) }
    ensures { Written frame out.old out.new result }
{
    match frame {
        Frame::Head(h) => write_head(out, h),
        Frame::S(s) => {
            let values = [Kind::S.number(), s.t.0, s.d, s.r];
            fields::write_fields(out, &kinds::S_WIDTHS, &values)
        }
        Frame::End(count) => {
            let values = [Kind::End.number(), count];
            fields::write_fields(out, &kinds::END_WIDTHS, &values)
        }
        Frame::Clock(clock) => {
            let values = [Kind::Clock.number(), clock.0];
            fields::write_fields(out, &kinds::CLOCK_WIDTHS, &values)
        }
    }
}
