// The file: read whole from the caller's bytes, or written into them.
ghost use Rattle.std.specs.Prelude.{◌≡◌};
ghost use Rattle.flonterri.specs.Face.{reads, writes};

use words::{give_read, record_beside, tell};

const LINE_WORDS: usize = 2;

const LENGTH_WORDS: usize = 1;

// Reads a whole file into the record and the table.
pub fn flonterri_read(bytes: &[u8], record: &mut [u64], table: &mut [u64], out: &mut [u64]) -> u32
    ensures value { result ≡ (reads bytes.now «record».old table.old out.old).number }
    ensures record_after { «record».new ≡ (reads bytes.now «record».old table.old out.old).words }
    ensures table_after { table.new ≡ (reads bytes.now «record».old table.old out.old).table }
    ensures out_after { out.new ≡ (reads bytes.now «record».old table.old out.old).out }
{
    match record_beside(record, out.len(), LINE_WORDS) {
        Ok(_) => give_read(record, out, file::read(bytes, table)),
        Err(why) => why.number(),
    }
}

// Writes the whole file of what record and table keep.
pub fn flonterri_write(record: &[u64], table: &[u64], bytes: &mut [u8], out: &mut [u64]) -> u32
    ensures value { result ≡ (writes «record».now table.now bytes.old out.old).number }
    ensures bytes_after { bytes.new ≡ (writes «record».now table.now bytes.old out.old).bytes }
    ensures out_after { out.new ≡ (writes «record».now table.now bytes.old out.old).out }
{
    match record_beside(record, out.len(), LENGTH_WORDS) {
        Ok(rec) => tell(out, writing::write(rec, table, bytes)),
        Err(why) => why.number(),
    }
}
