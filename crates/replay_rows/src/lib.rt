// What the program replay knows of a record's answer without the engine: how it is laid out in the bytes, and what a call is to keep.
// Kept: the C interface. A room and a count stand beside a buffer, refusals are numbers and what was turned up is a case and a card, as the calls of `panel` give them to C and as the records hold them.
#![tactic(auto)]

pub mod history;
pub mod laid;
pub mod set;
pub mod table;

use replay_bytes::Answer;
use replay_bytes::record::Row;
use rules::Position;

// The answer of a call that only reads: it hands the position back.
pub fn read(bytes: Row, given: Position, back: Position) -> Answer {
    Answer::new(bytes).marked(back == given)
}
