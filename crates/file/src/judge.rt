// The judgement of one line: whether it is a frame, whether its kind may stand here, then its fields.
ghost use Rattle.std.specs.Prelude.{◌≡◌, Some, true, List, ℕ, ◌+◌, ◌≤◌, ◌^◌};
ghost use Rattle.units.specs.Limits.{largest_span, span_held};
ghost use Rattle.file.specs.Judging.{File, settled_reading, misplaced, first_tick, later_standing, reaches_by, take_s, take_end, on_nothing, on_headed, on_open, on_filled, take_line};
ghost use Rattle.file.specs.Feeding.{most_lines};
ghost use Rattle.file.specs.Sound.{Running, Begins, Narrow, Sound};

use crate::{Reading, Stage};
use agreement::{Record, Refusal};
use frames::{Frame, SFields};
use keeping::Changed;
use units::{Limited, Span, Standing, Start, Tick, WideTick};
use window::{Head, HeadFields, HeldHead};

// As a signed number r is negative from here on.
const FIRST_NEGATIVE: u64 = 2_147_483_648;

// What a line that may not stand here is refused with. A function, as the two below: a frame and a tick
// are types of other crates.
fn misplaced(frame: Frame) -> Refusal
    ensures { result ≡ misplaced (Some frame) }
{
    match frame {
        Frame::Head(_) | Frame::S(_) | Frame::End(_) => Refusal::BadOrder,
        Frame::Clock(_) => Refusal::BadLine,
    }
}

fn first_tick(t: WideTick) -> WideTick
    ensures { result ≡ first_tick t }
{
    if t.0 == SFields::ABSENT {
        WideTick(0)
    } else {
        t
    }
}

fn later_standing(t: WideTick, next: Tick) -> Standing
    ensures { result ≡ later_standing t next }
{
    if t.0 == SFields::ABSENT {
        Standing::Joins
    } else {
        t.against(next)
    }
}

impl Reading {
    // The next line is refused: nothing of it is taken.
    fn refused(self, why: Refusal) -> Reading
        ensures { result ≡ record { stage = Stage.Refused why; lines = self.lines; rec = self.rec } }
    {
        Reading {
            stage: Stage::Refused(why),
            ..self
        }
    }

    // Inner: callers show that the lines are few enough to count one more.
    fn taken(self, stage: Stage, rec: Record) -> Reading
        requires { self.lines ≤ most_lines }
        ensures { result ≡ record { stage = stage; lines = self.lines + 1; rec = rec } }
    {
        Reading {
            stage,
            lines: self.lines + 1,
            rec,
        }
    }

    // Inner: callers show that the lines are few enough. Takes the line if what it asked was accepted.
    #[tactic(auto, unfolding(crate::specs::Judging::settled_reading))]
    fn settled(self, stage: Stage, changed: Changed) -> Reading
        requires { self.lines ≤ most_lines }
        ensures { result ≡ settled_reading changed.outcome stage self changed.rec }
    {
        match changed.outcome {
            Ok(()) => self.taken(stage, changed.rec),
            Err(why) => self.refused(why),
        }
    }

    // Inner: callers show that record and table agree and that a reference lasts. A negative r: the
    // references reach the period end.
    fn reach_end(self, table: &mut [u64], span: Span) -> Reading
        requires { Running self table.old × (span_held span ≡ true) }
        ensures { record { reading = result; words = table.new } ≡ reaches_by self table.old Standing.Joins span.0 }
    {
        let Record { head, next, .. } = self.rec;
        if head.duration.0 == 0 {
            return self.refused(Refusal::NoEndToReach);
        }
        let head = HeldHead { head };
        if !head.before_end(next) {
            return self.refused(Refusal::PastEnd);
        }
        let count = head.least_count(next, span);
        let changed = keeping::append_joined(self.rec, table, span, count);
        self.settled(Stage::Filled, changed)
    }

    // Inner: callers show that record and table agree and that the duration is one of 32 bits. What an S
    // line that joins gives is appended.
    fn take_s(self, table: &mut [u64], standing: Standing, s: SFields) -> Reading
        requires { Running self table.old × (s.d ≤ largest_span) }
        ensures { record { reading = result; words = table.new } ≡ take_s self table.old standing s }
    {
        let Some(span) = Span::new(s.d) else {
            return self.refused(Refusal::NothingGiven);
        };
        match standing {
            Standing::Joins => {
                if FIRST_NEGATIVE <= s.r {
                    return self.reach_end(table, span);
                }
                let changed = keeping::append_joined(self.rec, table, span, s.r + 1);
                self.settled(Stage::Open, changed)
            }
            Standing::Gap(distance) => self.refused(Refusal::Gap(distance)),
            Standing::Overlap(distance) => self.refused(Refusal::Overlap(distance)),
        }
    }

    // Inner: callers show that an S line is taken.
    #[tactic(auto, unfolding(crate::specs::Judging::take_end))]
    fn take_end(self, count: u64) -> Reading
        requires { (1 ≤ self.lines) × (self.lines ≤ 2 ^ 31 + 1) }
        ensures { (ws : List ℕ) → ◌≡◌ {A = File} (record { reading = result; words = ws }) (take_end self ws count) }
    {
        let s_lines = self.lines - 1;
        if count != s_lines {
            return self.refused(Refusal::BadOrder);
        }
        self.taken(Stage::Ended, self.rec)
    }

    // Inner: callers show that no line is taken yet. Only a head may come, with its fields in their limits.
    #[tactic(auto, unfolding(crate::specs::Judging::on_nothing, crate::specs::Judging::take_head))]
    fn on_nothing(self, frame: Frame) -> Reading
        requires { self.lines ≡ 0 }
        ensures { (ws : List ℕ) → ◌≡◌ {A = File} (record { reading = result; words = ws }) (on_nothing self ws (Some frame)) }
    {
        let Frame::Head(line) = frame else {
            return self.refused(misplaced(frame));
        };
        let Some(head) = Head::new(HeadFields::from(line)) else {
            return self.refused(Refusal::OverLimit);
        };
        let rec = Record {
            head,
            ..timeline::zero_record()
        };
        self.taken(Stage::Headed, rec)
    }

    // Inner: callers show that the head is held and an S line's duration is one of 32 bits. Only an S line
    // may come: it opens the timeline, and then what it gives is appended.
    #[tactic(auto, unfolding(crate::specs::Judging::on_headed))]
    fn on_headed(self, table: &mut [u64], frame: Frame) -> Reading
        requires { Begins self × Narrow (Some frame) }
        ensures { record { reading = result; words = table.new } ≡ on_headed self table.old (Some frame) }
    {
        let Frame::S(s) = frame else {
            return self.refused(misplaced(frame));
        };
        let opened = timeline::open(HeadFields::from(self.rec.head), first_tick(s.t), table);
        match opened.outcome {
            Ok(()) => {
                let fresh = Reading {
                    stage: Stage::Headed,
                    rec: opened.rec,
                    ..self
                };
                fresh.take_s(table, Standing::Joins, s)
            }
            Err(why) => self.refused(why),
        }
    }

    // Inner: callers show that record and table agree, and as above. An S line may come, or the end.
    #[tactic(auto, using(crate::proofs::Places::running_lines), unfolding(crate::specs::Judging::on_open))]
    fn on_open(self, table: &mut [u64], frame: Frame) -> Reading
        requires { Running self table.old × Narrow (Some frame) }
        ensures { record { reading = result; words = table.new } ≡ on_open self table.old (Some frame) }
    {
        match frame {
            Frame::S(s) => {
                let standing = later_standing(s.t, self.rec.next);
                self.take_s(table, standing, s)
            }
            Frame::End(count) => self.take_end(count),
            _ => self.refused(misplaced(frame)),
        }
    }

    // Inner: callers show that an S line is taken. After a negative r only the end may come.
    #[tactic(auto, unfolding(crate::specs::Judging::on_filled))]
    fn on_filled(self, frame: Frame) -> Reading
        requires { (1 ≤ self.lines) × (self.lines ≤ 2 ^ 31 + 1) }
        ensures { (ws : List ℕ) → ◌≡◌ {A = File} (record { reading = result; words = ws }) (on_filled self ws (Some frame)) }
    {
        let Frame::End(count) = frame else {
            return self.refused(misplaced(frame));
        };
        self.take_end(count)
    }

    // Inner: callers show what holds at the reading's stage.
    #[tactic(auto, using(crate::proofs::Places::running_lines), unfolding(crate::specs::Judging::take_line, crate::specs::Sound::Sound))]
    pub(crate) fn take_line(self, table: &mut [u64], line: &[u8]) -> Reading
        requires { Sound self.stage self table.old }
        ensures { record { reading = result; words = table.new } ≡ take_line (record { reading = self; words = table.old }) line.now }
    {
        match (self.stage, frames::read_line(line)) {
            (Stage::Refused(_), _) => self,
            (Stage::Ended, _) => self.refused(Refusal::BadLine),
            (_, None) => self.refused(Refusal::BadLine),
            (Stage::Nothing, Some(frame)) => self.on_nothing(frame),
            (Stage::Headed, Some(frame)) => self.on_headed(table, frame),
            (Stage::Open, Some(frame)) => self.on_open(table, frame),
            (Stage::Filled, Some(frame)) => self.on_filled(frame),
        }
    }
}
