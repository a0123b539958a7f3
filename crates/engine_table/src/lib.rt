// The public calls that tell what lies on the table: the foundations, the face-up piles, whether the game is won. Crate `engine` passes these names on.
#![tactic(auto)]

ghost use Rattle.std.specs.Prelude.{◌≡◌, length};
ghost use Rattle.rules.specs.Answers.{win_answer, sure_win_answer, heights_answer, piles_answer, piles_buffer};
ghost use Rattle.rules.specs.Results.{told_of, heights_of, piled_of};

use rules::{Position, Refusal};

// The bytes that the face-up piles need.
pub const PILE_BYTES: usize = card::N_PILES * card::N_RANKS;

// Whether every foundation is full.
pub fn is_win(p: Position) -> Result<bool, Refusal>
    ensures { told_of p result ≡ win_answer p }
{
    proper::judge(p)?;
    Ok(stack::is_full(p.heights))
}

// Whether at most one card is in the deck and nothing is buried.
pub fn is_sure_win(p: Position) -> Result<bool, Refusal>
    ensures { told_of p result ≡ sure_win_answer p }
{
    proper::judge(p)?;
    Ok(p.left <= 1 && hidden::is_all_up(&p.counts))
}

// The foundation heights.
pub fn heights(p: Position) -> Result<[u8; 4], Refusal>
    ensures { heights_of p result ≡ heights_answer p }
{
    proper::judge(p)?;
    Ok(p.heights)
}

// Writes the face-up piles into 91 bytes, 13 for each, and gives their lengths. Later bytes stay; refused, all do.
pub fn piles(p: Position, out: &mut [u8]) -> Result<[u8; 7], Refusal>
    ensures { (piled_of p result ≡ piles_answer p (length out.old)) × (out.new ≡ piles_buffer p out.old) }
{
    let judged = proper::judge(p)?;
    if out.len() < PILE_BYTES {
        return Err(Refusal::TooShort);
    }
    Ok(piles::compute_visible_piles(judged, out))
}
