// The calls that change: open, append, trim, and append then trim in one. The record and the table are the caller's words.
ghost use Rattle.std.specs.Prelude.{◌≡◌};
ghost use Rattle.flonterri.specs.Face.{opens, appends, appends_stamp, appends_trim, trims};

use units::{Stamp, WideMillis, WideTick};
use window::HeadFields;
use words::{give_appended, give_back, record_beside, record_in};

// Opens a timeline over a table.
pub fn flonterri_open(
    record: &mut [u64],
    table: &mut [u64],
    timescale: u32,
    offset: u64,
    start: u64,
    duration: u64,
    depth: u64,
    first_number: u32,
    update: u64,
    first_tick: u64,
) -> u32
    ensures value { result ≡ (opens «record».old table.old timescale offset start duration depth first_number «update» first_tick).number }
    ensures record_after { «record».new ≡ (opens «record».old table.old timescale offset start duration depth first_number «update» first_tick).words }
    ensures table_after { table.new ≡ (opens «record».old table.old timescale offset start duration depth first_number «update» first_tick).table }
{
    let fields = HeadFields {
        timescale: timescale as u64,
        offset,
        start,
        duration,
        depth,
        first: first_number as u64,
        update,
    };
    match record_in(record) {
        Ok(_) => give_back(record, timeline::open(fields, WideTick(first_tick), table)),
        Err(why) => why.number(),
    }
}

const DISTANCE_WORDS: usize = 1;

// Appends references whose start is a full tick.
pub fn flonterri_append(
    record: &mut [u64],
    table: &mut [u64],
    start: u64,
    duration: u32,
    count: u32,
    out: &mut [u64],
) -> u32
    ensures value { result ≡ (appends «record».old table.old out.old start duration count).number }
    ensures record_after { «record».new ≡ (appends «record».old table.old out.old start duration count).words }
    ensures table_after { table.new ≡ (appends «record».old table.old out.old start duration count).table }
    ensures out_after { out.new ≡ (appends «record».old table.old out.old start duration count).out }
{
    match record_beside(record, out.len(), DISTANCE_WORDS) {
        Ok(rec) => {
            let changed = timeline::append(rec, table, WideTick(start), duration, count);
            give_appended(record, out, changed)
        }
        Err(why) => why.number(),
    }
}

// Appends references whose start is a 32-bit stamp.
pub fn flonterri_append_stamp(
    record: &mut [u64],
    table: &mut [u64],
    stamp: u32,
    duration: u32,
    count: u32,
    out: &mut [u64],
) -> u32
    ensures value { result ≡ (appends_stamp «record».old table.old out.old stamp duration count).number }
    ensures record_after { «record».new ≡ (appends_stamp «record».old table.old out.old stamp duration count).words }
    ensures table_after { table.new ≡ (appends_stamp «record».old table.old out.old stamp duration count).table }
    ensures out_after { out.new ≡ (appends_stamp «record».old table.old out.old stamp duration count).out }
{
    match record_beside(record, out.len(), DISTANCE_WORDS) {
        Ok(rec) => {
            let changed = timeline::append_stamp(rec, table, Stamp(stamp), duration, count);
            give_appended(record, out, changed)
        }
        Err(why) => why.number(),
    }
}

// Raises the greatest clock and drops what is spent then.
pub fn flonterri_trim(record: &mut [u64], table: &mut [u64], clock: u64) -> u32
    ensures value { result ≡ (trims «record».old table.old clock).number }
    ensures record_after { «record».new ≡ (trims «record».old table.old clock).words }
    ensures table_after { table.new ≡ (trims «record».old table.old clock).table }
{
    match record_in(record) {
        Ok(rec) => give_back(record, timeline::trim(rec, table, WideMillis(clock))),
        Err(why) => why.number(),
    }
}

// Appends references whose start is a 32-bit stamp, and trims at a clock.
pub fn flonterri_append_trim(
    record: &mut [u64],
    table: &mut [u64],
    stamp: u32,
    duration: u32,
    count: u32,
    clock: u64,
    out: &mut [u64],
) -> u32
    ensures value { result ≡ (appends_trim «record».old table.old out.old stamp duration count clock).number }
    ensures record_after { «record».new ≡ (appends_trim «record».old table.old out.old stamp duration count clock).words }
    ensures table_after { table.new ≡ (appends_trim «record».old table.old out.old stamp duration count clock).table }
    ensures out_after { out.new ≡ (appends_trim «record».old table.old out.old stamp duration count clock).out }
{
    match record_beside(record, out.len(), DISTANCE_WORDS) {
        Ok(rec) => {
            let changed = timeline::append_trim(
                rec,
                table,
                Stamp(stamp),
                duration,
                count,
                WideMillis(clock),
            );
            give_appended(record, out, changed)
        }
        Err(why) => why.number(),
    }
}
