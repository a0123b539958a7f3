// Tags 9, 10, 11 and 13: a few calls in one record, each with its own entry.
ghost use Rattle.std.specs.Prelude.{◌<◌};

use replay_bytes::Answer;
use replay_bytes::record::{Row, SIZE};
use rules::{Cursor, Position};

// The first entry's place.
const FIRST: usize = 4;

// The places of the entries, each of so many bytes, from first to last: `one` adds what a call makes of the entry there.
fn several<F: Fn(Answer, usize) -> Answer>(row: Row, out: Row, width: usize, one: F) -> Answer
    requires width { 0 < width }
    requires one { F.IsAlwaysCallable one }
{
    let mut a = Answer::new(out);
    for at in (FIRST..SIZE).step_by(width).take(usize::from(row.byte(2))) {
        a = one(a, at);
    }
    a
}

pub fn tests(p: Position, row: Row, out: Row) -> Answer {
    several(row, out, 4, |a, at| {
        let [kind, card]: [u8; 2] = row.bytes(at);
        let t = panel::gravyhelm_test(p, kind, card);
        a.put_all(at, &[kind, card, t.refusal, u8::from(t.yes)])
            .marked(t.position == p)
    })
}

pub fn finds(p: Position, row: Row, out: Row) -> Answer {
    several(row, out, 4, |a, at| {
        let card = row.byte(at);
        let f = panel::gravyhelm_find(p, card);
        a.put_all(at, &[card, f.refusal, u8::from(f.found), f.place])
            .marked(f.position == p)
    })
}

pub fn offsets(p: Position, row: Row, out: Row) -> Answer {
    several(row, out, 3, |a, at| {
        let n = row.byte(at);
        let o = panel::gravyhelm_offset(p, n);
        a.put_all(at, &[n, o.refusal, o.offset])
            .marked(o.position == p)
    })
}

pub fn cursors(row: Row, out: Row) -> Answer {
    several(row, out, 5, |a, at| {
        let [len, step, offset]: [u8; 3] = row.bytes(at);
        let d = panel::gravyhelm_deal_once(Cursor { len, step, offset });
        let c = d.cursor;
        a.put_all(at, &[c.len, c.step, offset, d.refusal, c.offset])
    })
}
