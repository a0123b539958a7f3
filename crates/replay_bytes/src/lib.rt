// The records that the program replay reads: their bytes, what a record is answered with, and the tally of what came out right.
// The format is that of oracle/compare/src/rows.rs: a header and records of 64 bytes each.
#![tactic(auto)]

ghost use Rattle.std.specs.Prelude.{◌≡◌, ◌&&◌, true, false};

pub mod record;
pub mod report;
pub mod tag;

use record::Row;

// A record as it is answered anew: its bytes, and whether the calls kept what no byte shows: the given position, the history, the buffers.
// Kept: two values and no Option. The bytes are compared and written on where `kept` is false too.
#[derive(Clone, Copy)]
pub struct Answer {
    pub bytes: Row,
    pub kept: bool,
}

impl Answer {
    // Bytes of which nothing more was to be kept.
    pub fn new(bytes: Row) -> Answer
        ensures { (result.bytes ≡ bytes) × (result.kept ≡ true) }
    {
        Answer { bytes, kept: true }
    }

    // A record that has no tag, or asks for more room than there is, counts as wrong.
    pub fn unasked(bytes: Row) -> Answer
        ensures { (result.bytes ≡ bytes) × (result.kept ≡ false) }
    {
        Answer { bytes, kept: false }
    }

    // An answer of which something more was to be kept.
    pub fn marked(self, kept: bool) -> Answer
        ensures { (result.bytes ≡ self.bytes) × (result.kept ≡ (self.kept && kept)) }
    {
        Answer {
            bytes: self.bytes,
            kept: self.kept && kept,
        }
    }

    // The same with bytes written from a place on.
    pub fn put_all(self, at: usize, bytes: &[u8]) -> Answer {
        Answer {
            bytes: self.bytes.put_all(at, bytes),
            kept: self.kept,
        }
    }
}
