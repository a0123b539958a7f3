// Replays the oracle's answers, which stand in its standard input, over the calls that C links. Each record is answered anew from its inputs, and must come out byte for byte.
// The format is that of oracle/compare/src/rows.rs: a header and records of 64 bytes each. Here the calls are made. The bytes and the report are in crate `replay_bytes`, the layout of an answer in `replay_rows`.
// Kept: the C interface. A refusal is a number and an answer stands beside it, and a room and a count stand beside a buffer, as the calls of `panel` give them to C and as the records hold them.
#![tactic(auto)]

mod entries;
mod lists;
mod plays;
mod starts;
mod views;

use replay_bytes::record::Row;
use replay_bytes::report::Tally;
use replay_bytes::tag::{NoTag, Tag};
use replay_bytes::{Answer, record, report};
use replay_rows::set;
use replay_rows::table::Table;
use std::io;
use std::io::Read;

// The header's first bytes: a letter and the version.
const LETTER: u8 = b'R';

const VERSION: u8 = 1;

// Answers a record anew. `out` has its tag and its inputs: the other bytes are to be found.
fn answered(t: Table, row: Row) -> Table {
    let out = row.inputs();
    let p = t.position;
    match row.tag() {
        Ok(Tag::Deal) => starts::deal(t, row, out),
        Ok(Tag::Resume) => starts::resume(t, row, out),
        Ok(Tag::Move) => plays::make(t, row, out),
        Ok(Tag::Undo) => plays::undo(t, row, out),
        Ok(Tag::Masks) => t.with(views::masks(p, row, out)),
        Ok(Tag::Listing) => t.with(lists::list(p, row, out)),
        Ok(Tag::Piles) => t.with(lists::face_up(p, row, out)),
        Ok(Tag::View) => t.with(views::view(p, out)),
        Ok(Tag::Tests) => t.with(entries::tests(p, row, out)),
        Ok(Tag::Finds) => t.with(entries::finds(p, row, out)),
        Ok(Tag::Offsets) => t.with(entries::offsets(p, row, out)),
        Ok(Tag::Ladder) => t.with(starts::ladder(p, row, out)),
        Ok(Tag::Cursors) => t.with(entries::cursors(row, out)),
        Ok(Tag::Set) => set::set(t, row, out),
        Err(NoTag) => t.with(Answer::unasked(out)),
    }
}

// So many records, or as many as there are.
fn replay<R: Read>(input: &mut R, records: u64) -> io::Result<Tally> {
    let mut t = Table::new();
    let mut tally = Tally::default();
    for _ in 0..records {
        let Some(row) = record::read(input)? else {
            break;
        };
        t = answered(t, row);
        tally = tally.counted(row, t.answer);
    }
    Ok(tally)
}

// As many records as the header says, and no more.
fn all<R: Read>(rt: &impl Print, input: &mut R, records: u64) -> io::Result<()> {
    let tally = replay(input, records)?;
    report::print(rt, tally)?;
    if tally.records() != records {
        return println!(rt; "cut short");
    }
    if !record::at_end(input)? {
        return println!(rt; "more than the header says");
    }
    Ok(())
}

fn main(rt: HostRuntime) -> io::Result<()> {
    let mut input = rt.stdin();
    match record::read(&mut input)? {
        Some(head) if head.byte(0) == LETTER => {
            if head.byte(1) != VERSION {
                return println!(rt; "another version");
            }
            all(&rt, &mut input, head.long(4))
        }
        _ => println!(rt; "no header"),
    }
}
