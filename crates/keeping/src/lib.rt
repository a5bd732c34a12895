// What a timeline keeps: which references a clock leaves, and the append that joins. Here is what stands
// under the calls that change and under the reader of a file.
#![tactic(auto)]

ghost use Rattle.std.specs.Prelude.{◌≡◌};

use agreement::{Record, Refusal};

mod appending;
mod spent;

pub use appending::append_joined;
pub use spent::count_passed;

// What came of a call that changes: nothing, where it is accepted, or why it is refused.
pub type Outcome = Result<(), Refusal>;

// The outcome, and the record to go on with. It stands beside a refusal too, since the paper has a refused
// call return the record as it came, and a refused opening a zero record (`changed_by`, `open_answer`).
#[derive(Clone, Copy)]
pub struct Changed {
    pub outcome: Outcome,
    pub rec: Record,
}

impl Changed {
    pub fn accepted(rec: Record) -> Changed
        ensures { result ≡ record { outcome = Ok tt; rec = rec } }
    {
        Changed {
            outcome: Ok(()),
            rec,
        }
    }

    pub fn refused(why: Refusal, rec: Record) -> Changed
        ensures { result ≡ record { outcome = Err why; rec = rec } }
    {
        Changed {
            outcome: Err(why),
            rec,
        }
    }

    // Stores the record over one that is lent, and answers the outcome alone.
    pub fn store(self, rec: &mut Record) -> Outcome
        ensures value { result ≡ self.outcome }
        ensures stored { rec.new ≡ self.rec }
    {
        *rec = self.rec;
        self.outcome
    }
}
