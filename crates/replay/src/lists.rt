// Tags 6 and 7: the move listing and the face-up piles, in lent buffers.
use replay_bytes::Answer;
use replay_bytes::record::Row;
use replay_rows::laid::{FILL, FILL_SLOT, N_BYTES, N_LIST, put_front, put_shown};
use replay_rows::read;
use rules::Position;

// The twin gives the refusal, and must count alike.
fn counted(p: Position, pruned: u8, room: usize, count: usize, out: Row) -> Answer {
    let twin = panel::gravyhelm_list_count(p, pruned, room);
    let bytes = out.put(1, twin.refusal).put_size(4, count);
    read(bytes, p, twin.position).marked(count == twin.count)
}

pub fn list(p: Position, row: Row, out: Row) -> Answer {
    let pruned = u8::from(row.byte(2) == 1);
    let room = usize::from(row.byte(3));
    if N_LIST < room {
        return Answer::unasked(out);
    }
    let mut slots = [FILL_SLOT; N_LIST];
    let count = panel::list(p, pruned, &mut slots[..room]).len();
    put_front(counted(p, pruned, room, count, out), slots, count)
}

pub fn face_up(p: Position, row: Row, out: Row) -> Answer {
    let room = usize::from(row.byte(2));
    if N_BYTES < room {
        return Answer::unasked(out);
    }
    let mut bytes = [FILL; N_BYTES];
    let a = panel::gravyhelm_piles(p, &mut bytes[..room]);
    let lengths = a.lengths;
    put_shown(out, a.refusal, lengths, bytes).marked(a.position == p)
}
