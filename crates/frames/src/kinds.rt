// The kinds of line: the number and the row of widths of each, the byte of the kind first, and how the
// values of a line make a frame.
ghost use Rattle.std.specs.Prelude.{◌≡◌, length};
ghost use Rattle.frames.specs.Frames.{frame_as, kind_number, kind_numbered, line_length};

use crate::{Frame, HeadLine, SFields, fields};
use units::{WideMillis, WideTick};

// A head with its update period, and one without.
pub(crate) const HEAD_WIDTHS: [usize; 8] = [1, 4, 8, 8, 8, 8, 4, 8];

pub(crate) const OLDER_WIDTHS: [usize; 7] = [1, 4, 8, 8, 8, 8, 4];

pub(crate) const S_WIDTHS: [usize; 4] = [1, 8, 4, 4];

pub(crate) const END_WIDTHS: [usize; 2] = [1, 4];

pub(crate) const CLOCK_WIDTHS: [usize; 2] = [1, 8];

// The digits of a line of each kind, two for each byte of its row: `line_length` is proved to give
// them, so that every bound that is made of them follows from the definition of the frame.
pub const HEAD_DIGITS: usize = 2 * (1 + 4 + 8 + 8 + 8 + 8 + 4 + 8);

pub(crate) const OLDER_DIGITS: usize = 2 * (1 + 4 + 8 + 8 + 8 + 8 + 4);

pub const S_DIGITS: usize = 2 * (1 + 8 + 4 + 4);

pub const END_DIGITS: usize = 2 * (1 + 4);

pub(crate) const CLOCK_DIGITS: usize = 2 * (1 + 8);

// No line of a known kind is longer than a head with its update period.
pub const LONGEST_LINE: usize = HEAD_DIGITS;

// A kind of line; an older head is one without an update period.
#[derive(Clone, Copy)]
pub(crate) enum Kind {
    OlderHead,
    S,
    End,
    Clock,
    Head,
}

impl Kind {
    // The kind that a line's first byte names.
    pub(crate) fn of(number: u64) -> Option<Kind>
        ensures { result ≡ kind_numbered number }
    {
        match number {
            1 => Some(Kind::OlderHead),
            2 => Some(Kind::S),
            3 => Some(Kind::End),
            4 => Some(Kind::Clock),
            5 => Some(Kind::Head),
            _ => None,
        }
    }

    // That byte.
    pub(crate) fn number(self) -> u64
        ensures { result ≡ kind_number self }
    {
        match self {
            Kind::OlderHead => 1,
            Kind::S => 2,
            Kind::End => 3,
            Kind::Clock => 4,
            Kind::Head => 5,
        }
    }

    // How many digits a line of this kind has.
    pub(crate) fn digits(self) -> usize
        ensures { result ≡ line_length (kind_number self) }
    {
        match self {
            Kind::OlderHead => OLDER_DIGITS,
            Kind::S => S_DIGITS,
            Kind::End => END_DIGITS,
            Kind::Clock => CLOCK_DIGITS,
            Kind::Head => HEAD_DIGITS,
        }
    }

    // Inner: the line has as many digits as its kind asks, which `read_line` tests. The frame that its
    // values make.
    pub(crate) fn frame(self, line: &[u8]) -> Frame
        requires { length line.now ≡ line_length (kind_number self) }
        ensures { Some result ≡ frame_as (kind_number self) line.now }
    {
        match self {
            Kind::OlderHead => Frame::Head(older_head(line)),
            Kind::S => {
                let [_, t, d, r] = fields::read_fields(line, &S_WIDTHS);
                let t = WideTick(t);
                Frame::S(SFields { t, d, r })
            }
            Kind::End => {
                let [_, count] = fields::read_fields(line, &END_WIDTHS);
                Frame::End(count)
            }
            Kind::Clock => {
                let [_, clock] = fields::read_fields(line, &CLOCK_WIDTHS);
                Frame::Clock(WideMillis(clock))
            }
            Kind::Head => Frame::Head(head(line)),
        }
    }
}

// Inner, as below, for a head without its update period.
fn older_head(line: &[u8]) -> HeadLine
    requires { length line.now ≡ line_length 1 }
    ensures { Some (Frame.Head result) ≡ frame_as 1 line.now }
{
    let [_, timescale, offset, start, duration, depth, first] = fields::read_fields(
        line,
        &OLDER_WIDTHS,
    );
    HeadLine {
        timescale,
        offset,
        start,
        duration,
        depth,
        first,
        update: None,
    }
}

// Inner: the line has the digits of a head. What its values make.
fn head(line: &[u8]) -> HeadLine
    requires { length line.now ≡ line_length 5 }
    ensures { Some (Frame.Head result) ≡ frame_as 5 line.now }
{
    let [_, timescale, offset, start, duration, depth, first, update] = fields::read_fields(
        line,
        &HEAD_WIDTHS,
    );
    HeadLine {
        timescale,
        offset,
        start,
        duration,
        depth,
        first,
        update: Some(update),
    }
}
