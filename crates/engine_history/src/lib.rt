// The public calls that take a game on and back: a move and an undo, over a lent history and a count. Crate `engine` passes these names on.
#![tactic(auto)]

ghost use Rattle.std.specs.Prelude.{◌≡◌};
ghost use Rattle.rules.specs.Answers.{move_answer, move_history, undo_answer};
ghost use Rattle.rules.specs.Results.{moved_of, undone_of};

use rules::{Position, Refusal, Step, StepBack};

// Kept: the history is a lent slice and a count beside it, as C lends it (include/gravyhelm.h); a kind and a card are bytes, since nothing of them is trusted.

// Makes a move and writes its entry at the count. Refused, the history is left as it is.
pub fn do_move(
    p: Position,
    history: &mut [u16],
    count: usize,
    kind: u8,
    card: u8,
) -> Result<Step, Refusal>
    ensures { (moved_of p count result ≡ move_answer p history.old count kind card) × (history.new ≡ move_history p history.old count kind card) }
{
    let judged = proper::judge(p)?;
    if history.len() < count {
        return Err(Refusal::WrongCount);
    }
    moves::admit(kind, card)?;
    if !legal::is_valid_move(judged, kind, card) {
        return Err(Refusal::NotLegal);
    }
    if count == history.len() {
        return Err(Refusal::HistoryFull);
    }
    let next = count + 1;
    let made = play::do_move(judged, kind, card);
    history[count] = play::entry(made.byte, kind, card);
    Ok(Step {
        position: made.position,
        count: next,
        byte: made.byte,
        turned: made.turned,
    })
}

// Goes back over the last entry. The history is left as it is.
pub fn undo_move(p: Position, history: &[u16], count: usize) -> Result<StepBack, Refusal>
    ensures { undone_of p count result ≡ undo_answer p history.now count }
{
    let judged = proper::judge(p)?;
    if history.len() < count {
        return Err(Refusal::WrongCount);
    }
    if count == 0 {
        return Err(Refusal::NothingToUndo);
    }
    let Some(before) = play::undo(judged, history[count - 1]) else {
        return Err(Refusal::WrongEntry);
    };
    Ok(StepBack {
        position: before,
        count: count - 1,
    })
}
