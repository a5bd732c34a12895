// The answer's one line. The longest has four numbers of at most 20 digits, and 13 bytes besides.
ghost use Rattle.std.specs.Prelude.{◌≡◌, length};
ghost use Rattle.answers.specs.declared.Verdict.TheVariants.{Complete, Lacking};
ghost use Rattle.wording.specs.Text.{refused_text, verdict_text, text_of, over};
ghost use Rattle.wording.specs.Placing.{Put};

use crate::parts::Line;
use crate::{RefusedLine, Reply};
use answers::Verdict;
use units::WideTick;

// Inner, since there must be room: nothing is written yet.
impl Line {
    fn put_refused(&mut self, refused: RefusedLine)
        requires { self.old.at ≡ 0 }
        ensures { Put self.old.bytes self.old.at (refused_text refused) self.new.bytes self.new.at }
    {
        let why = refused.why;
        self.put(b"refused ");
        self.put_number(u64::from(why.number()));
        self.put(b" line ");
        self.put_number(refused.line);
        self.put_distance(why.distance());
        self.put(b"\n");
    }

    fn put_complete(&mut self, needed: u64)
        requires { self.old.at ≡ 0 }
        ensures { Put self.old.bytes self.old.at (verdict_text (Complete needed)) self.new.bytes self.new.at }
    {
        self.put(b"complete ");
        self.put_share(needed, needed);
    }

    fn put_lacking(&mut self, needed: u64, covered: u64, lowest: WideTick)
        requires { self.old.at ≡ 0 }
        ensures { Put self.old.bytes self.old.at (verdict_text (Lacking needed covered lowest)) self.new.bytes self.new.at }
    {
        self.put(b"lacking ");
        self.put_number(lowest.0);
        self.put(b" ");
        self.put_share(needed, covered);
    }

    #[tactic(auto, unfolding(crate::specs::Text::verdict_text, hexdigits::specs::Ascii::ascii))]
    fn put_verdict(&mut self, verdict: Verdict)
        requires { self.old.at ≡ 0 }
        ensures { Put self.old.bytes self.old.at (verdict_text verdict) self.new.bytes self.new.at }
    {
        match verdict {
            Verdict::Nothing => self.put(b"nothing needed\n"),
            Verdict::Complete(needed) => self.put_complete(needed),
            Verdict::Lacking(needed, covered, lowest) => self.put_lacking(needed, covered, lowest),
        }
    }

    #[tactic(auto, unfolding(crate::specs::Text::text_of))]
    fn put_reply(&mut self, reply: Reply)
        requires { self.old.at ≡ 0 }
        ensures { Put self.old.bytes self.old.at (text_of reply) self.new.bytes self.new.at }
    {
        match reply {
            Ok(verdict) => self.put_verdict(verdict),
            Err(refused) => self.put_refused(refused),
        }
    }
}

// The line of a reply at the front of the output, the rest as it came, and its length.
pub fn put_line(out: &mut [u8; 93], reply: Reply) -> usize
    ensures value { result ≡ length (text_of reply) }
    ensures out_after { out.new ≡ over (text_of reply) out.old }
{
    let mut line = Line { bytes: *out, at: 0 };
    line.put_reply(reply);
    *out = line.bytes;
    line.at
}
