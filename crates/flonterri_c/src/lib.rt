// The archive for C: each function of `flonterri` under its C name, with the same clauses. A slice is a
// pointer and a length, as include/flonterri.h declares it; that page says what a caller owes.
#![tactic(auto)]

ghost use Rattle.std.specs.Prelude.{◌≡◌};
ghost use Rattle.flonterri.specs.Face.{opens, appends, appends_stamp, appends_trim, trims, tells_verdict, tells_whole, tells_availability, tells_touching, tells_edge, tells_available, tells_full_tick, reads, writes};

// Opens a timeline over a table.
#[unsafe(no_mangle)]
pub extern "C" fn flonterri_open(
    record: &mut [u64],
    table: &mut [u64],
    timescale: u32,
    offset: u64,
    start: u64,
    duration: u64,
    depth: u64,
    first_number: u32,
    update: u64,
    first_tick: u64,
) -> u32
    ensures value { result ≡ (opens «record».old table.old timescale offset start duration depth first_number «update» first_tick).number }
    ensures record_after { «record».new ≡ (opens «record».old table.old timescale offset start duration depth first_number «update» first_tick).words }
    ensures table_after { table.new ≡ (opens «record».old table.old timescale offset start duration depth first_number «update» first_tick).table }
{
    flonterri::flonterri_open(
        record,
        table,
        timescale,
        offset,
        start,
        duration,
        depth,
        first_number,
        update,
        first_tick,
    )
}

// Appends references whose start is a full tick.
#[unsafe(no_mangle)]
pub extern "C" fn flonterri_append(
    record: &mut [u64],
    table: &mut [u64],
    start: u64,
    duration: u32,
    count: u32,
    out: &mut [u64],
) -> u32
    ensures value { result ≡ (appends «record».old table.old out.old start duration count).number }
    ensures record_after { «record».new ≡ (appends «record».old table.old out.old start duration count).words }
    ensures table_after { table.new ≡ (appends «record».old table.old out.old start duration count).table }
    ensures out_after { out.new ≡ (appends «record».old table.old out.old start duration count).out }
{
    flonterri::flonterri_append(record, table, start, duration, count, out)
}

// Appends references whose start is a 32-bit stamp.
#[unsafe(no_mangle)]
pub extern "C" fn flonterri_append_stamp(
    record: &mut [u64],
    table: &mut [u64],
    stamp: u32,
    duration: u32,
    count: u32,
    out: &mut [u64],
) -> u32
    ensures value { result ≡ (appends_stamp «record».old table.old out.old stamp duration count).number }
    ensures record_after { «record».new ≡ (appends_stamp «record».old table.old out.old stamp duration count).words }
    ensures table_after { table.new ≡ (appends_stamp «record».old table.old out.old stamp duration count).table }
    ensures out_after { out.new ≡ (appends_stamp «record».old table.old out.old stamp duration count).out }
{
    flonterri::flonterri_append_stamp(record, table, stamp, duration, count, out)
}

// Raises the greatest clock and drops what is spent then.
#[unsafe(no_mangle)]
pub extern "C" fn flonterri_trim(record: &mut [u64], table: &mut [u64], clock: u64) -> u32
    ensures value { result ≡ (trims «record».old table.old clock).number }
    ensures record_after { «record».new ≡ (trims «record».old table.old clock).words }
    ensures table_after { table.new ≡ (trims «record».old table.old clock).table }
{
    flonterri::flonterri_trim(record, table, clock)
}

// Appends references whose start is a 32-bit stamp, and trims at a clock.
#[unsafe(no_mangle)]
pub extern "C" fn flonterri_append_trim(
    record: &mut [u64],
    table: &mut [u64],
    stamp: u32,
    duration: u32,
    count: u32,
    clock: u64,
    out: &mut [u64],
) -> u32
    ensures value { result ≡ (appends_trim «record».old table.old out.old stamp duration count clock).number }
    ensures record_after { «record».new ≡ (appends_trim «record».old table.old out.old stamp duration count clock).words }
    ensures table_after { table.new ≡ (appends_trim «record».old table.old out.old stamp duration count clock).table }
    ensures out_after { out.new ≡ (appends_trim «record».old table.old out.old stamp duration count clock).out }
{
    flonterri::flonterri_append_trim(record, table, stamp, duration, count, clock, out)
}

// The verdict at a clock.
#[unsafe(no_mangle)]
pub extern "C" fn flonterri_verdict(
    record: &[u64],
    table: &[u64],
    clock: u64,
    out: &mut [u64],
) -> u32
    ensures value { result ≡ (tells_verdict «record».now table.now clock out.old).number }
    ensures out_after { out.new ≡ (tells_verdict «record».now table.now clock out.old).out }
{
    flonterri::flonterri_verdict(record, table, clock, out)
}

// The verdict of the whole period.
#[unsafe(no_mangle)]
pub extern "C" fn flonterri_verdict_whole(record: &[u64], table: &[u64], out: &mut [u64]) -> u32
    ensures value { result ≡ (tells_whole «record».now table.now out.old).number }
    ensures out_after { out.new ≡ (tells_whole «record».now table.now out.old).out }
{
    flonterri::flonterri_verdict_whole(record, table, out)
}

// When the reference of a number is available. A number is kept or it is not, whatever its size.
#[unsafe(no_mangle)]
pub extern "C" fn flonterri_availability(
    record: &[u64],
    table: &[u64],
    number: u64,
    out: &mut [i64],
) -> u32
    ensures value { result ≡ (tells_availability «record».now table.now number out.old).number }
    ensures out_after { out.new ≡ (tells_availability «record».now table.now number out.old).out }
{
    flonterri::flonterri_availability(record, table, number, out)
}

// The words of the runs that touch the ticks from a up to b, that one excluded.
#[unsafe(no_mangle)]
pub extern "C" fn flonterri_touching(
    record: &[u64],
    table: &[u64],
    a: u64,
    b: u64,
    out: &mut [u64],
) -> u32
    ensures value { result ≡ (tells_touching «record».now table.now a b out.old).number }
    ensures out_after { out.new ≡ (tells_touching «record».now table.now a b out.old).out }
{
    flonterri::flonterri_touching(record, table, a, b, out)
}

// The covered edge: the latest clock at which the window's upper edge has not passed the next tick.
#[unsafe(no_mangle)]
pub extern "C" fn flonterri_covered_edge(record: &[u64], table: &[u64], out: &mut [u64]) -> u32
    ensures value { result ≡ (tells_edge «record».now table.now out.old).number }
    ensures out_after { out.new ≡ (tells_edge «record».now table.now out.old).out }
{
    flonterri::flonterri_covered_edge(record, table, out)
}

// Whether the reference of a number is available at a clock. A number is kept or it is not, whatever
// its size.
#[unsafe(no_mangle)]
pub extern "C" fn flonterri_available_at(
    record: &[u64],
    table: &[u64],
    number: u64,
    clock: u64,
    out: &mut [u64],
) -> u32
    ensures value { result ≡ (tells_available «record».now table.now number clock out.old).number }
    ensures out_after { out.new ≡ (tells_available «record».now table.now number clock out.old).out }
{
    flonterri::flonterri_available_at(record, table, number, clock, out)
}

// The full tick of a stamp by the next tick.
#[unsafe(no_mangle)]
pub extern "C" fn flonterri_full_tick(
    record: &[u64],
    table: &[u64],
    stamp: u32,
    out: &mut [u64],
) -> u32
    ensures value { result ≡ (tells_full_tick «record».now table.now stamp out.old).number }
    ensures out_after { out.new ≡ (tells_full_tick «record».now table.now stamp out.old).out }
{
    flonterri::flonterri_full_tick(record, table, stamp, out)
}

// Reads a whole file into the record and the table.
#[unsafe(no_mangle)]
pub extern "C" fn flonterri_read(
    bytes: &[u8],
    record: &mut [u64],
    table: &mut [u64],
    out: &mut [u64],
) -> u32
    ensures value { result ≡ (reads bytes.now «record».old table.old out.old).number }
    ensures record_after { «record».new ≡ (reads bytes.now «record».old table.old out.old).words }
    ensures table_after { table.new ≡ (reads bytes.now «record».old table.old out.old).table }
    ensures out_after { out.new ≡ (reads bytes.now «record».old table.old out.old).out }
{
    flonterri::flonterri_read(bytes, record, table, out)
}

// Writes the whole file of what record and table keep.
#[unsafe(no_mangle)]
pub extern "C" fn flonterri_write(
    record: &[u64],
    table: &[u64],
    bytes: &mut [u8],
    out: &mut [u64],
) -> u32
    ensures value { result ≡ (writes «record».now table.now bytes.old out.old).number }
    ensures bytes_after { bytes.new ≡ (writes «record».now table.now bytes.old out.old).bytes }
    ensures out_after { out.new ≡ (writes «record».now table.now bytes.old out.old).out }
{
    flonterri::flonterri_write(record, table, bytes, out)
}
