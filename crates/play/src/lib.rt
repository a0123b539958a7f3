// Making a move and going back over one, and the entries of a history: the work behind the engine's move and undo.
#![tactic(auto)]

// Kept: a kind and a card are bytes, and the byte of an entry stands beside them: `undo` takes them from an entry that anybody may have written, and each function answers for every byte.
mod entries;
mod make;
mod parts;
mod unmake;

pub use entries::{entry, same_deal, undo};
pub use make::do_move;
use rules::{Position, TurnedUp};
pub use unmake::{has_way, undo_move};

// What a move leads to: the position, the byte that undo needs, and what the move turned up.
#[derive(Clone, Copy)]
pub struct Made {
    pub position: Position,
    pub byte: u8,
    pub turned: TurnedUp,
}
