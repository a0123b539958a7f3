// The masks of a position.
#![tactic(auto)]

ghost use Rattle.std.specs.Prelude.{◌≡◌, ℕ, ◌<◌, ◌≤◌, ◌^◌, ◌/◌, ltb};
ghost use Rattle.bits.specs.Bit.{bit, mask_of};
ghost use Rattle.card.specs.Methods.{twin};
ghost use Rattle.rules.specs.Cards.{pair};
ghost use Rattle.rules.specs.Places.{is_head, alone};
ghost use Rattle.rules.specs.Legal.{is_open, has_room, unpruned, legal};
ghost use Rattle.rules.specs.Moves.{of_kind};
ghost use Rattle.legal.specs.Pairs.{pair_of, lower};
ghost use Rattle.legal.specs.Sight.{sight};

use hidden::HeadMasks;
use moves::Kind;
use rules::{Judged, Masks};

// The cards of each rank change places with those of the other colour.
pub fn swap_pair(a: u64) -> u64
    ensures { result ≡ mask_of 64 (λ k. bit a (twin k)) }
{
    let half = (a & card::HALF_MASK) << 2;
    ((a >> 2) & card::HALF_MASK) | half
}

// Both cards of each pair of which more cards are visible than cards of the pair four lower are free.
#[tactic(auto, using(bits::proofs::Laws::kept, crate::proofs::Bottom::bottom_is), unfolding(crate::proofs::Bottom::bottom, crate::proofs::Bottom::part))]
fn bottom_mask(vis: u64, free: u64) -> u64
    requires { (vis < 2 ^ 52) × ((k : ℕ) → k < 26 → pair_of (lower (bit free)) k ≤ pair_of (bit vis) k) }
    ensures { result ≡ mask_of 52 (λ c. ltb (pair_of (lower (bit free)) (c / 2)) (pair_of (bit vis) (c / 2))) }
{
    let xor_free = free ^ (free >> 1);
    let xor_vis = vis ^ (vis >> 1);
    let xor_all = xor_vis ^ (xor_free << 4);
    let or_free = free | (free >> 1);
    let or_vis = vis | (vis >> 1);
    let bottom = (xor_all | !(or_free << 4)) & or_vis & card::ALT_MASK;
    bottom * 3
}

// The open pairs.
fn open_mask(p: Judged, heads: u64) -> u64
    requires { heads ≡ mask_of 52 (is_head p.position) }
    ensures { result ≡ mask_of 52 (λ c. is_open p.position (pair c)) }
{
    bottom_mask(p.position.visible, p.position.visible & !heads)
}

// The cards that have room: below an open pair, or a king where a pile is empty of heads and of free kings.
pub fn room_mask(p: Judged, heads: u64, bottom: u64) -> u64
    requires { (heads ≡ mask_of 52 (is_head p.position)) × (bottom ≡ mask_of 52 (λ c. is_open p.position (pair c))) }
    ensures { result ≡ mask_of 52 (has_room p.position) }
{
    let top = p.position.visible & (heads | card::KING_MASK);
    if bits::count(top) < card::N_COLUMNS {
        (bottom >> 4) | card::KING_MASK
    } else {
        bottom >> 4
    }
}

// What both kinds of masks start from: the visible cards, the heads, those alone in their piles, the open pairs, the next cards.
// Kept: `look` and `room_mask` take the position and its heads each by itself. A struct of both would be no plainer: it would be built for these two calls.
#[derive(Clone, Copy)]
pub struct Sight {
    pub vis: u64,
    pub locked: u64,
    pub alone: u64,
    pub bm: u64,
    pub sm: u64,
}

// The heads come from the caller: without their gathering this is short, and is compiled into both who call it.
pub fn look(p: Judged, heads: HeadMasks) -> Sight
    requires { (heads.all ≡ mask_of 52 (is_head p.position)) × (heads.alone ≡ mask_of 52 (alone p.position)) }
    ensures { result ≡ sight p.position }
{
    Sight {
        vis: p.position.visible,
        locked: heads.all,
        alone: heads.alone,
        bm: open_mask(p, heads.all),
        sm: stack::mask(p.position.heights),
    }
}

// The five masks of legal moves.
pub fn masks(p: Judged) -> Masks
    ensures { result ≡ unpruned p.position }
{
    let heads = hidden::heads(p);
    let s = look(p, heads);
    let free_slot = room_mask(p, s.locked, s.bm);
    let deck_mask = deck::compute_mask(p, false);
    Masks {
        reveal: s.vis & s.locked & free_slot & !(s.alone & card::KING_MASK),
        pile_stack: s.bm & s.vis & s.sm,
        deck_pile: deck_mask & free_slot,
        deck_stack: deck_mask & s.sm,
        stack_pile: swap_pair(s.sm >> 4) & free_slot,
    }
}

// The mask of a kind of move.
#[tactic(auto, using(crate::proofs::KindMasks::kind_is), unfolding(rules::specs::Moves::of_kind))]
fn of_kind(m: Masks, kind: u8) -> u64
    ensures { result ≡ of_kind m kind }
{
    match Kind::of(kind) {
        Kind::DeckStack => m.deck_stack,
        Kind::PileStack => m.pile_stack,
        Kind::DeckPile => m.deck_pile,
        Kind::StackPile => m.stack_pile,
        Kind::Reveal => m.reveal,
    }
}

// Whether a move of this kind with this card is legal.
#[tactic(auto, using(bits::proofs::Laws::has_shr, rules::proofs::MoveMasks::bit_legal))]
pub fn is_valid_move(p: Judged, kind: u8, card: u8) -> bool
    requires { (kind < 5) × (card < 52) }
    ensures { result ≡ legal p.position kind card }
{
    (of_kind(masks(p), kind) >> card) & 1 == 1
}
