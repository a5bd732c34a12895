// A line while it comes: where it ends, and its first bytes until it does.
ghost use Rattle.std.specs.Prelude.{◌≡◌, List, [], ◌++◌, ℕ, min, length};
ghost use Rattle.file.specs.Lines.{feed_at, first_line};
ghost use Rattle.file.specs.SoFar.{most_bytes, so_far, first_bytes, goes_on, proper, too_long};

use crate::LineSoFar;

// As many as the longest frame has, and one more.
pub const MOST_BYTES: usize = frames::LONGEST_LINE + 1;

// Where the first line feed stands, if there is one.
pub(crate) fn feed_at(bytes: &[u8]) -> Option<usize>
    ensures { result ≡ feed_at bytes.now }
{
    bytes.iter().position(|b| *b == b'\n')
}

// How many bytes stand before the first line feed.
pub fn line_end(bytes: &[u8]) -> usize
    ensures { result ≡ length (first_line bytes.now) }
{
    feed_at(bytes).unwrap_or(bytes.len())
}

impl LineSoFar {
    // Of which nothing has come.
    #[tactic(auto, unfolding(crate::specs::SoFar::so_far))]
    pub fn none() -> LineSoFar
        ensures { result ≡ so_far [] }
    {
        LineSoFar {
            bytes: [0u8; MOST_BYTES],
            count: 0,
        }
    }

    // How many first bytes there are, for any count.
    pub fn len(self) -> usize
        ensures { result ≡ min self.count most_bytes }
    {
        self.count.min(MOST_BYTES)
    }

    // The first bytes, for any count.
    pub fn first_bytes(&self) -> &[u8]
        ensures { result.now ≡ first_bytes self.now }
    {
        &self.bytes[..self.len()]
    }

    // Whether no more bytes are counted than there is room for, and those behind them are 0.
    pub(crate) fn proper(&self) -> bool
        ensures { result ≡ proper self.now }
    {
        self.count <= MOST_BYTES && self.bytes[self.count..].iter().all(|b| *b == 0)
    }

    // Whether the line has more bytes than any frame.
    pub fn too_long(self) -> bool
        ensures { result ≡ too_long self }
    {
        MOST_BYTES <= self.count
    }

    // A part behind a line so far, as much of it as there is room for.
    pub(crate) fn with(self, part: &[u8]) -> LineSoFar
        ensures { (come : List ℕ) → self ≡ so_far come → result ≡ so_far (come ++ part.now) }
    {
        let mut bytes = self.bytes;
        let count = self.len();
        let end = count + part.len().min(MOST_BYTES - count);
        bytes[count..end].copy_from_slice(&part[..end - count]);
        LineSoFar { bytes, count: end }
    }

    // More of the line has come, for any count and any bytes.
    pub fn more(self, part: &[u8]) -> LineSoFar
        ensures { result ≡ goes_on self part.now }
    {
        LineSoFar::none().with(self.first_bytes()).with(part)
    }
}
