// The deck: the cards that can be drawn, as masks. Crate `deck` passes these names on.
#![tactic(auto)]

ghost use Rattle.std.specs.Prelude.{◌≡◌, ◌&&◌, cond, ℕ, ◌<◌, ◌≤◌, ◌-◌, ◌%◌, eqb, leb, get_or};
ghost use Rattle.bits.specs.Bit.{mask_of};
ghost use Rattle.rules.specs.Bits.{any_of};
ghost use Rattle.rules.specs.Dealing.{available, available_soon};

use rules::Judged;

// The cards at the places from, from + step, .. below end.
fn walk(deck: [u8; 24], from: usize, step: usize, end: usize) -> u64
    requires { (0 < step) × (step ≤ 24) × (from ≤ 24) × (end ≤ 24) × ((k : ℕ) → k < end → get_or deck k 0 < 52) }
    ensures { result ≡ mask_of 52 (λ c. any_of end (λ k. eqb (get_or deck k 0) c && (leb from k && eqb ((k - from) % step) 0))) }
{
    let mut mask: u64 = 0;
    // Kept: a count by hand. `(from..end).step_by(step)` was tried and took 7 in 100 longer for the whole mask, and the pruned masks have no room for that under their bar (docs/SPEED.md).
    let mut i = from;
    while i < end {
        mask |= bits::card_mask(deck[i] as u32);
        i += step;
    }
    mask
}

// The cards that deals bring before the next redeal: a walk from the offset, and the last card.
fn soon_mask(p: Judged) -> u64
    ensures { result ≡ mask_of 52 (available_soon p.position) }
{
    let deck = p.position.deck;
    let left = p.position.left as usize;
    let step = p.position.step as usize;
    let offset = p.position.offset as usize;
    if left == 0 {
        return 0;
    }
    let last = left - 1;
    let from = if 0 < offset { offset - 1 } else { step - 1 };
    walk(deck, from, step, last) | bits::card_mask(deck[last] as u32)
}

// The cards that deals bring: the above, and after a redeal each `step`th, as far as the walk above has not been there.
fn any_mask(p: Judged) -> u64
    ensures { result ≡ mask_of 52 (available p.position) }
{
    let deck = p.position.deck;
    let left = p.position.left as usize;
    let step = p.position.step as usize;
    let offset = p.position.offset as usize;
    let reach = if offset % step == 0 { offset } else { left };
    let end = reach.saturating_sub(1);
    soon_mask(p) | walk(deck, step - 1, step, end)
}

// The cards that deals bring; with the filter, before the next redeal.
pub fn compute_mask(p: Judged, filter: bool) -> u64
    ensures { result ≡ mask_of 52 (cond filter (available_soon p.position) (available p.position)) }
{
    if filter { soon_mask(p) } else { any_mask(p) }
}
