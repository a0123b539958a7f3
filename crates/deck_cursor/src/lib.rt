// Dealing: the offset after one deal and after many, on bare numbers and on a cursor that is given or lent. Crate `deck` passes these names on.
// Kept: length, step and offset as three numbers. Callers hold them as fields of a Position, and would build a Cursor for one call.
#![tactic(auto)]

ghost use Rattle.std.specs.Prelude.{◌≡◌, ◌<◌, ◌≤◌, ◌+◌, ◌-◌, ◌/◌};
ghost use Rattle.rules.specs.Proper.{step_right};
ghost use Rattle.rules.specs.Dealing.{dealt, deals, pure_at};
ghost use Rattle.rules.specs.Answers.{cursor_refusal, deal_once_answer};
ghost use Rattle.rules.specs.Code.{stored_offset};
ghost use Rattle.rules.specs.Results.{refusal_of, dealt_of};

use rules::{Cursor, Refusal};

// A deal turns at most as many cards as the deck has.
const MAX_STEP: u8 = card::FULL_DECK;

// "step 1 to 24".
#[tactic(auto, unfolding(rules::specs::Proper::step_right))]
pub fn is_step(step: u8) -> bool
    ensures { result ≡ step_right step }
{
    (1..=MAX_STEP).contains(&step)
}

// The offset after a deal.
#[tactic(auto, using(rules::proofs::DealsLaw::dealt_end, rules::proofs::DealsLaw::dealt_on))]
pub fn offset_once(len: u8, step: u8, cur: u8) -> u8
    requires { (len ≤ 24) × (step ≤ 24) }
    ensures { result ≡ dealt len step cur }
{
    if len <= cur { 0 } else { (cur + step).min(len) }
}

// The offset after n deals: those to the end, one to the front, and what is left of them after whole rounds.
pub fn offset(len: u8, step: u8, cur: u8, n: u8) -> u8
    requires { (len ≤ 24) × (0 < step) × (step ≤ 24) × (cur ≤ len) }
    ensures { result ≡ deals len step n cur }
{
    let to_end = (len - cur).div_ceil(step);
    if n <= to_end {
        (cur + step * n).min(len)
    } else {
        let round = len.div_ceil(step) + 1;
        (step * ((n - to_end - 1) % round)).min(len)
    }
}

// Deals come round to this offset again.
pub fn is_pure(len: u8, step: u8, cur: u8) -> bool
    requires { 0 < step }
    ensures { result ≡ pure_at len step cur }
{
    cur % step == 0 || cur == len
}

// The offset as the code stores it.
#[tactic(auto, unfolding(rules::specs::Code::stored_offset))]
pub fn normalized_offset(len: u8, step: u8, cur: u8) -> u8
    requires { 0 < step }
    ensures { result ≡ stored_offset len step cur }
{
    if is_pure(len, step, cur) { len } else { cur }
}

// Whether a cursor is one: its step is a step, its length a deck's, its offset none past its length.
fn judge(c: Cursor) -> Result<(), Refusal>
    ensures { refusal_of result ≡ cursor_refusal c }
{
    if !is_step(c.step) {
        return Err(Refusal::WrongStep);
    }
    if c.len > card::FULL_DECK || c.offset > c.len {
        return Err(Refusal::NotProper);
    }
    Ok(())
}

// A deal on a cursor.
pub fn deal_once(c: Cursor) -> Result<Cursor, Refusal>
    ensures { dealt_of c result ≡ deal_once_answer c }
{
    judge(c)?;
    Ok(Cursor {
        offset: offset_once(c.len, c.step, c.offset),
        ..c
    })
}

// The same on a lent cursor, which it changes itself. Refused, the cursor stays.
pub fn deal_once_lent(c: &mut Cursor) -> Result<(), Refusal>
    ensures { (refusal_of result ≡ cursor_refusal c.old) × (c.new ≡ (deal_once_answer c.old).cursor) }
{
    *c = deal_once(*c)?;
    Ok(())
}
