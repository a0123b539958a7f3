// The position and the history that the records' calls act on, and the answer to the record at hand.
// It goes from function to function by value: that proves faster than lent memory.
use crate::history::N_SLOTS;
use replay_bytes::Answer;
use replay_bytes::record::Row;
use rules::Position;

#[derive(Clone, Copy)]
pub struct Table {
    pub position: Position,
    pub history: [u16; N_SLOTS],
    pub answer: Answer,
}

// What a refused deal or resume must give: all numbers 0. It is the program's own, so that the calls are not held to themselves.
fn blank() -> Position {
    Position {
        deal: [0; 52],
        step: 0,
        counts: [0; 7],
        heights: [0; 4],
        deck: [0; 24],
        left: 0,
        offset: 0,
        visible: 0,
    }
}

impl Table {
    // A position with nothing done.
    fn begun(position: Position, answer: Answer) -> Table {
        Table {
            position,
            history: [0; N_SLOTS],
            answer,
        }
    }

    pub fn new() -> Table {
        Table::begun(blank(), Answer::unasked(Row::default()))
    }

    // After a call that changes nothing.
    pub fn with(mut self, a: Answer) -> Table {
        self.answer = a;
        self
    }

    // After a deal or a resume: the new position with nothing done, or the old one, and then the call's position must be blank.
    pub fn started(self, refusal: u8, p: Position, a: Answer) -> Table {
        if refusal != 0 {
            return self.with(a.marked(p == blank()));
        }
        Table::begun(p, a)
    }

    // After a move or an undo: the new position, or the old one.
    pub fn moved(self, refusal: u8, p: Position, history: [u16; N_SLOTS], answer: Answer) -> Table {
        Table {
            position: if refusal == 0 { p } else { self.position },
            history,
            answer,
        }
    }
}
