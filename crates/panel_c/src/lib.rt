// The library that C links: `panel`'s calls under the names that include/gravyhelm.h declares, each with the same clauses.
// Kept: a function here for each of `panel`, the C interface. Only a static library exports names to C, and the crates above `panel` need a library.
#![tactic(auto)]

ghost use Rattle.std.specs.Prelude.{◌≡◌};
ghost use Rattle.panel.specs.Calls.{deal, resume, save, masks, test, list_into, list, list_count, move, undo, win, sure_win, ladder, heights, deck, find, offset, face_up, deal_once, deal_once_lent, answer, lent};

use panel::MovedNumbers;
use rules::{
    Compared, Cursor, DealtOnce, DeckView, Heights, Listed, Located, Masked, Offset, Piled,
    Position, Saved, Started, Told, TurnedUp, Undone,
};

#[unsafe(no_mangle)]
pub extern "C" fn gravyhelm_deal(step: u8, cards: &[u8]) -> Started
    ensures { (result ≡ answer (deal step cards.now)) × (cards.now ≡ lent (deal step cards.now)) }
{
    panel::gravyhelm_deal(step, cards)
}

#[unsafe(no_mangle)]
pub extern "C" fn gravyhelm_resume(step: u8, cards: &[u8], code: u64) -> Started
    ensures { (result ≡ answer (resume step cards.now code)) × (cards.now ≡ lent (resume step cards.now code)) }
{
    panel::gravyhelm_resume(step, cards, code)
}

#[unsafe(no_mangle)]
pub extern "C" fn gravyhelm_save(p: Position) -> Saved
    ensures { result ≡ answer (save p) }
{
    panel::gravyhelm_save(p)
}

#[unsafe(no_mangle)]
pub extern "C" fn gravyhelm_masks(p: Position, pruned: u8) -> Masked
    ensures { result ≡ answer (masks p pruned) }
{
    panel::gravyhelm_masks(p, pruned)
}

#[unsafe(no_mangle)]
pub extern "C" fn gravyhelm_test(p: Position, kind: u8, card: u8) -> Told
    ensures { result ≡ answer (test p kind card) }
{
    panel::gravyhelm_test(p, kind, card)
}

#[unsafe(no_mangle)]
pub extern "C" fn gravyhelm_list_into(p: Position, pruned: u8, out: &mut [u16]) -> Listed
    ensures { (result ≡ answer (list_into p pruned out.old)) × (out.new ≡ lent (list_into p pruned out.old)) }
{
    panel::gravyhelm_list_into(p, pruned, out)
}

#[unsafe(no_mangle)]
pub extern "C" fn gravyhelm_list_count(p: Position, pruned: u8, room: usize) -> Listed
    ensures { result ≡ answer (list_count p pruned room) }
{
    panel::gravyhelm_list_count(p, pruned, room)
}

#[unsafe(no_mangle)]
pub extern "C" fn gravyhelm_do_move(
    p: Position,
    history: &mut [u16],
    count: usize,
    kind: u8,
    card: u8,
) -> MovedNumbers
    ensures { (result ≡ answer (move p history.old count kind card)) × (history.new ≡ lent (move p history.old count kind card)) }
{
    panel::gravyhelm_do_move(p, history, count, kind, card)
}

#[unsafe(no_mangle)]
pub extern "C" fn gravyhelm_undo_move(p: Position, history: &[u16], count: usize) -> Undone
    ensures { (result ≡ answer (undo p history.now count)) × (history.now ≡ lent (undo p history.now count)) }
{
    panel::gravyhelm_undo_move(p, history, count)
}

#[unsafe(no_mangle)]
pub extern "C" fn gravyhelm_is_win(p: Position) -> Told
    ensures { result ≡ answer (win p) }
{
    panel::gravyhelm_is_win(p)
}

#[unsafe(no_mangle)]
pub extern "C" fn gravyhelm_is_sure_win(p: Position) -> Told
    ensures { result ≡ answer (sure_win p) }
{
    panel::gravyhelm_is_sure_win(p)
}

#[unsafe(no_mangle)]
pub extern "C" fn gravyhelm_ladder(p: Position, q: Position) -> Compared
    ensures { result ≡ answer (ladder p q) }
{
    panel::gravyhelm_ladder(p, q)
}

#[unsafe(no_mangle)]
pub extern "C" fn gravyhelm_heights(p: Position) -> Heights
    ensures { result ≡ answer (heights p) }
{
    panel::gravyhelm_heights(p)
}

#[unsafe(no_mangle)]
pub extern "C" fn gravyhelm_deck(p: Position) -> DeckView
    ensures { result ≡ answer (deck p) }
{
    panel::gravyhelm_deck(p)
}

#[unsafe(no_mangle)]
pub extern "C" fn gravyhelm_find(p: Position, card: u8) -> Located
    ensures { result ≡ answer (find p card) }
{
    panel::gravyhelm_find(p, card)
}

#[unsafe(no_mangle)]
pub extern "C" fn gravyhelm_offset(p: Position, n: u8) -> Offset
    ensures { result ≡ answer (offset p n) }
{
    panel::gravyhelm_offset(p, n)
}

#[unsafe(no_mangle)]
pub extern "C" fn gravyhelm_piles(p: Position, out: &mut [u8]) -> Piled
    ensures { (result ≡ answer (face_up p out.old)) × (out.new ≡ lent (face_up p out.old)) }
{
    panel::gravyhelm_piles(p, out)
}

#[unsafe(no_mangle)]
pub extern "C" fn gravyhelm_deal_once(c: Cursor) -> DealtOnce
    ensures { result ≡ answer (deal_once c) }
{
    panel::gravyhelm_deal_once(c)
}

#[unsafe(no_mangle)]
pub extern "C" fn gravyhelm_deal_once_lent(c: &mut Cursor) -> u8
    ensures { (result ≡ answer (deal_once_lent c.old)) × (c.new ≡ lent (deal_once_lent c.old)) }
{
    panel::gravyhelm_deal_once_lent(c)
}
