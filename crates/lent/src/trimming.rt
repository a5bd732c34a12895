// Trim, over a record that is lent.
ghost use Rattle.std.specs.Prelude.{◌≡◌};
ghost use Rattle.timeline.specs.Trimming.{trim_answer, trim_table};

use agreement::Record;
use keeping::Outcome;
use units::WideMillis;

// Trims at a clock.
pub fn trim(rec: &mut Record, table: &mut [u64], clock: WideMillis) -> Outcome
    ensures value { result ≡ (trim_answer rec.old table.old clock).outcome }
    ensures rec_after { rec.new ≡ (trim_answer rec.old table.old clock).rec }
    ensures table_after { table.new ≡ trim_table rec.old table.old clock }
{
    timeline::trim(*rec, table, clock).store(rec)
}
