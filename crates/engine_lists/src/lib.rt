// The public calls that tell the moves of a position: their masks, the test of one, their list. Crate `engine` passes these names on.
#![tactic(auto)]

ghost use Rattle.std.specs.Prelude.{◌≡◌, length};
ghost use Rattle.rules.specs.Answers.{masks_answer, test_answer, listing_answer, listing_front, listing_into};
ghost use Rattle.rules.specs.Results.{masked_of, told_of, listed_of};

use rules::{Masks, Position, Refusal};

// The masks of the moves.
pub fn masks(p: Position, pruned: bool) -> Result<Masks, Refusal>
    ensures { masked_of p result ≡ masks_answer pruned p }
{
    let judged = proper::judge(p)?;
    Ok(hints::masks_for(judged, pruned))
}

// Whether a move is legal.
// Kept: a kind and a card are bytes, since nothing of them is trusted: `test_answer` refuses those that are none.
pub fn test(p: Position, kind: u8, card: u8) -> Result<bool, Refusal>
    ensures { told_of p result ≡ test_answer p kind card }
{
    let judged = proper::judge(p)?;
    moves::admit(kind, card)?;
    Ok(legal::is_valid_move(judged, kind, card))
}

// Lists the moves into the front of out, and gives how many. Later slots stay.
pub fn list_into(p: Position, pruned: bool, out: &mut [u16]) -> Result<usize, Refusal>
    ensures { (listed_of p result ≡ listing_answer pruned p (length out.old)) × (out.new ≡ listing_into pruned p out.old) }
{
    let judged = proper::judge(p)?;
    let m = hints::masks_for(judged, pruned);
    if out.len() < moves::len(m) as usize {
        return Err(Refusal::TooShort);
    }
    Ok(moves::list_into(m, out))
}

// Lists the moves, and hands the written front of out back: nothing where it is refused. `list_count` gives the refusal.
// Kept: no Result, since `list` is a call that cannot fail: its contract promises a front of the buffer, and an empty one where it is refused.
pub fn list<'a>(p: Position, pruned: bool, out: &'a mut [u16]) -> &'a mut [u16]
    ensures { (result.now ≡ listing_front pruned p out.old) × (result.ref_ptr ≡ out.entry.ref_ptr) }
{
    let n = list_into(p, pruned, out).unwrap_or(0);
    &mut out[..n]
}

// What `list` would answer with a buffer of so many slots. Writes nothing.
pub fn list_count(p: Position, pruned: bool, room: usize) -> Result<usize, Refusal>
    ensures { listed_of p result ≡ listing_answer pruned p room }
{
    let judged = proper::judge(p)?;
    let n = moves::len(hints::masks_for(judged, pruned)) as usize;
    if room < n {
        return Err(Refusal::TooShort);
    }
    Ok(n)
}
