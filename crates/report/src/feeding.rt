// The desk, fed piece by piece: first the clock line, and what stands behind it goes to the reader of
// the file as it comes.
ghost use Rattle.std.specs.Prelude.{◌≡◌};
ghost use Rattle.report.specs.Settled.{settled};
ghost use Rattle.report.specs.Feeding.{begun_desk, read_on, line_on, fed};

use crate::{Desk, asking};
use file::LineSoFar;

// A desk that has been fed nothing.
pub fn begin() -> Desk
    ensures { result ≡ begun_desk }
{
    Desk {
        asked: None,
        line: LineSoFar::none(),
        reader: file::begin(),
    }
}

// A piece of the file: a refused clock line leaves it unread.
#[tactic(auto, unfolding(crate::specs::Feeding::read_on))]
fn read_on(desk: Desk, table: &mut [u64], piece: &[u8]) -> Desk
    ensures { record { desk = result; words = table.new } ≡ read_on desk table.old piece.now }
{
    let Some(Ok(_)) = desk.asked else {
        return desk;
    };
    let reader = file::feed(desk.reader, table, piece);
    Desk { reader, ..desk }
}

// A piece that comes while the clock line is not ended.
fn feed_clock_line(desk: Desk, table: &mut [u64], piece: &[u8]) -> Desk
    ensures { record { desk = result; words = table.new } ≡ line_on desk table.old piece.now }
{
    let end = file::line_end(piece);
    let line = desk.line.more(&piece[..end]);
    if end == piece.len() {
        return Desk { line, ..desk };
    }
    let asked = Some(asking::asked_on(line));
    let ended = Desk {
        asked,
        line,
        ..desk
    };
    read_on(ended, table, &piece[end + 1..])
}

// Feeds one piece more of the input, for any desk, any table and any piece.
#[tactic(auto, unfolding(crate::specs::Feeding::fed))]
pub fn feed(desk: Desk, table: &mut [u64], piece: &[u8]) -> Desk
    ensures value { result ≡ (fed desk table.old piece.now).desk }
    ensures table_after { table.new ≡ (fed desk table.old piece.now).words }
{
    match desk.asked {
        None => feed_clock_line(desk, table, piece),
        Some(_) => read_on(desk, table, piece),
    }
}

// Whether the answer is settled: whatever is fed yet, it is the same.
#[tactic(auto, unfolding(crate::specs::Settled::settled))]
pub fn settled(desk: Desk) -> bool
    ensures { result ≡ settled desk }
{
    match desk.asked {
        None => desk.line.too_long(),
        Some(Ok(_)) => file::settled(desk.reader),
        Some(Err(_)) => true,
    }
}
