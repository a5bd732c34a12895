// The line while it is written, part behind part. It is no Display: there is no heap, and `put_line` promises
// every byte of its output, those behind the text too (`out_after`).
ghost use Rattle.std.specs.Prelude.{◌+◌, ◌≤◌, length};
ghost use Rattle.wording.specs.Text.{decimal, distance_text, share_text};
ghost use Rattle.wording.specs.Placing.{Put};

// The output, and the place behind what is written of it.
#[derive(Clone, Copy)]
pub(crate) struct Line {
    pub(crate) bytes: [u8; 93],
    pub(crate) at: usize,
}

// Inner, since there must be room.
impl Line {
    // A text.
    pub(crate) fn put(&mut self, text: &[u8])
        requires { self.old.at + length text.now ≤ 93 }
        ensures { Put self.old.bytes self.old.at text.now self.new.bytes self.new.at }
    {
        let next = self.at + text.len();
        self.bytes[self.at..next].copy_from_slice(text);
        self.at = next;
    }

    // A number in decimal.
    pub(crate) fn put_number(&mut self, n: u64)
        requires { self.old.at + 20 ≤ 93 }
        ensures put { Put self.old.bytes self.old.at (decimal n) self.new.bytes self.new.at }
        ensures upper_bound { self.new.at ≤ self.old.at + 20 }
    {
        let mut digits = [0u8; 20];
        let count = io::decimal(n, &mut digits);
        self.put(&digits[..count]);
    }

    // Covered and needed, and the percent.
    pub(crate) fn put_share(&mut self, needed: u64, covered: u64)
        requires { self.old.at + 64 ≤ 93 }
        ensures { Put self.old.bytes self.old.at (share_text needed covered) self.new.bytes self.new.at }
    {
        let percent = answers::shares::percent(needed, covered).unwrap_or(0);
        self.put_number(covered);
        self.put(b"/");
        self.put_number(needed);
        self.put(b" ");
        self.put_number(percent);
        self.put(b"%\n");
    }

    // The distance of a gap or an overlap, nothing where there is none.
    #[tactic(auto, unfolding(crate::specs::Text::distance_text))]
    pub(crate) fn put_distance(&mut self, distance: u64)
        requires { self.old.at + 24 ≤ 93 }
        ensures put { Put self.old.bytes self.old.at (distance_text distance) self.new.bytes self.new.at }
        ensures upper_bound { self.new.at ≤ self.old.at + 24 }
    {
        if distance == 0 {
            return;
        }
        self.put(b" by ");
        self.put_number(distance);
    }
}
