// Tags 5 and 8: the masks, and what can be seen at once.
use replay_bytes::Answer;
use replay_bytes::record::Row;
use replay_rows::laid::{put_deck, put_masks};
use replay_rows::read;
use rules::Position;

pub fn masks(p: Position, row: Row, out: Row) -> Answer {
    let a = panel::gravyhelm_masks(p, u8::from(row.byte(2) == 1));
    read(put_masks(out.put(1, a.refusal), a.masks), p, a.position)
}

// Each call hands the position back, and all refuse as the first, whose refusal is byte 1.
pub fn view(p: Position, out: Row) -> Answer {
    let h = panel::gravyhelm_heights(p);
    let d = panel::gravyhelm_deck(p);
    let win = panel::gravyhelm_is_win(p);
    let sure = panel::gravyhelm_is_sure_win(p);
    let s = panel::gravyhelm_save(p);
    let seen = out.put(1, h.refusal).put_all(2, &h.heights);
    let bytes = put_deck(seen, d.left, d.offset, &d.cards)
        .put_all(32, &[u8::from(win.yes), u8::from(sure.yes)])
        .put_long(40, s.code);
    let alike = |refusal: u8, back: Position| refusal == h.refusal && back == p;
    Answer::new(bytes)
        .marked(h.position == p)
        .marked(alike(d.refusal, d.position))
        .marked(alike(win.refusal, win.position))
        .marked(alike(sure.refusal, sure.position))
        .marked(alike(s.refusal, s.position))
}
