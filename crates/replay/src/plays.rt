// Tags 3 and 4: a move and an undo over the history.
ghost use Rattle.std.specs.Prelude.{◌≤◌};

use crate::starts;
use panel::MovedNumbers;
use replay_bytes::Answer;
use replay_bytes::record::Row;
use replay_rows::history::N_SLOTS;
use replay_rows::laid::put_move;
use replay_rows::table::Table;
use replay_rows::{history, read};
use rules::Position;

// What a move and an undo both answer. After a refusal the position must have come back, and the code and the visible mask stay 0.
fn arrived(before: Position, refusal: u8, p: Position, out: Row, count: usize) -> Answer {
    let bytes = out.put(1, refusal).put_size(8, count);
    if refusal != 0 {
        return read(bytes, before, p);
    }
    starts::coded(p, refusal, bytes.put_long(24, p.visible), 16)
}

// A move's answer, and the history and the position after it.
fn made(
    t: Table,
    m: MovedNumbers,
    after: [u16; N_SLOTS],
    written: u16,
    count: usize,
    out: Row,
) -> Table {
    let bytes = put_move(out, m.byte, m.turned, written);
    let a = arrived(t.position, m.refusal, m.position, bytes, m.count);
    let kept = history::kept(t.history, after, count, m.refusal);
    t.moved(m.refusal, m.position, after, a.marked(kept))
}

// A move over the slots that the record lends.
fn tried(t: Table, room: usize, count: usize, row: Row, out: Row) -> Table
    requires { room ≤ 64 }
{
    let mut after = t.history;
    let m = panel::gravyhelm_do_move(
        t.position,
        &mut after[..room],
        count,
        row.byte(2),
        row.byte(3),
    );
    let written = history::slot(&after[..room], count);
    made(t, m, after, written, count, out)
}

pub fn make(t: Table, row: Row, out: Row) -> Table {
    let room = usize::from(row.short(4));
    if N_SLOTS < room {
        return t.with(Answer::unasked(out));
    }
    tried(t, room, usize::from(row.short(6)), row, out)
}

// An undo of the last entry, which leaves the history.
pub fn undo(t: Table, row: Row, out: Row) -> Table {
    let room = usize::from(row.short(4));
    let count = usize::from(row.short(6));
    if N_SLOTS < room {
        return t.with(Answer::unasked(out));
    }
    let history = history::with_entry(t.history, room, count, row.short(2));
    let u = panel::gravyhelm_undo_move(t.position, &history[..room], count);
    let a = arrived(t.position, u.refusal, u.position, out, u.count);
    t.moved(u.refusal, u.position, history, a)
}
