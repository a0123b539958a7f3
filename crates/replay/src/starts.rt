// Tags 1, 2 and 12: a deal, a resume, and the ladder with a resumed position.
use replay_bytes::Answer;
use replay_bytes::record::Row;
use replay_rows::set::Field;
use replay_rows::table::Table;
use replay_rows::{read, set};
use rules::Position;

// The save code of a position, and 0 after a refusal. The call hands the position back.
pub fn coded(p: Position, refusal: u8, out: Row, at: usize) -> Answer {
    if refusal != 0 {
        return Answer::new(out);
    }
    let s = panel::gravyhelm_save(p);
    read(out.put_long(at, s.code), p, s.position)
}

pub fn deal(t: Table, row: Row, out: Row) -> Table {
    let n = usize::from(row.byte(3));
    let s = panel::gravyhelm_deal(row.byte(2), row.part(4, n));
    let a = coded(s.position, s.refusal, out.put(1, s.refusal), 56);
    t.started(s.refusal, s.position, a)
}

// The position's deal, of which a place may have another card.
pub fn resume(t: Table, row: Row, out: Row) -> Table {
    let place = row.byte(20);
    let card = row.byte(21);
    let q = set::with(t.position, Field::Deal, usize::from(place), card);
    let n = usize::from(row.byte(3));
    let cards = q.deal;
    let s = panel::gravyhelm_resume(row.byte(2), cards.get(..n).unwrap_or(&[]), row.long(4));
    let p = s.position;
    let bytes = out
        .put(1, s.refusal)
        .put_all(20, &[place, card])
        .put_long(12, p.visible);
    t.started(s.refusal, p, Answer::new(bytes))
}

// The position of a code of the same deal.
fn other(p: Position, row: Row) -> Position {
    let cards = p.deal;
    panel::gravyhelm_resume(row.byte(3), &cards, row.long(4)).position
}

// The ladder hands both positions back.
fn ranked(p: Position, q: Position, out: Row) -> Answer {
    let a = panel::gravyhelm_ladder(p, q);
    read(out.put_all(1, &[a.refusal, u8::from(a.same)]), p, a.first).marked(a.second == q)
}

// Both ways must answer alike.
pub fn ladder(p: Position, row: Row, out: Row) -> Answer {
    let q = other(p, row);
    let there = ranked(p, q, out);
    let back = ranked(q, p, out);
    there.marked(back.kept).marked(there.bytes == back.bytes)
}
