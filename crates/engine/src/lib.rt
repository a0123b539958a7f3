// The public calls. Here are those that save and compare a game; the others are elsewhere, and their names are passed on, so that this crate has every public call: `deal` and `code::resume`
// begin a game, `engine_history` takes it on and back, `engine_lists` tells the moves, `engine_table` the foundations and piles, `engine_deck` the deck.
// A call that only handed a deal's position on would copy it once more.
// Each judges its own input, asks nothing of its caller, and refuses in the document's order: an `Err` has the reason. Each contract says that the Result, told as the plain
// answer that crosses to C, is the call's answer. A refused call leaves lent memory as it was. `list` is the exception, by the language: it hands back the front of
// its buffer, and what the buffer holds later is said by `list_into`, which it calls.
#![tactic(auto)]

ghost use Rattle.std.specs.Prelude.{◌≡◌};
ghost use Rattle.rules.specs.Answers.{save_answer, ladder_answer};
ghost use Rattle.rules.specs.Results.{saved_of, compared_of};

pub use code::resume;
pub use deal::deal;
pub use engine_deck::{deck, find, offset};
pub use engine_history::{do_move, undo_move};
pub use engine_lists::{list, list_count, list_into, masks, test};
pub use engine_table::{PILE_BYTES, heights, is_sure_win, is_win, piles};
use rules::{Position, Refusal};

// The save code.
pub fn save(p: Position) -> Result<u64, Refusal>
    ensures { saved_of p result ≡ save_answer p }
{
    let judged = proper::judge(p)?;
    Ok(code::encode(judged))
}

// Whether two positions are the same on the ladder: of one deal and step, with one code.
pub fn ladder(p: Position, q: Position) -> Result<bool, Refusal>
    ensures { compared_of p q result ≡ ladder_answer p q }
{
    let first = proper::judge(p)?;
    let second = proper::judge(q)?;
    if !play::same_deal(p, q) || p.step != q.step {
        return Ok(false);
    }
    Ok(code::encode(first) == code::encode(second))
}
