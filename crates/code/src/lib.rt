// The save code, and the position that a code stands for.
#![tactic(auto)]

ghost use Rattle.std.specs.Prelude.{◌≡◌};
ghost use Rattle.rules.specs.Code.{code as code_of};
ghost use Rattle.rules.specs.Answers.{resume_answer};
ghost use Rattle.rules.specs.Results.{started_of};
ghost use Rattle.code.specs.Resuming.{fields_of, Ranged, sets_of, arrange_answer};

use deck::DecodedDeck;
use rules::{Judged, Position, Refusal};

// Where the fields of a save code begin: the heights at 0, then the piles, the deck, the offset.
const PILES_AT: u32 = 16;

const DECK_AT: u32 = 32;

const OFFSET_AT: u32 = 56;

// The lowest 16 and the lowest 24 bits.
const LOW_16: u64 = 0xFFFF;

const LOW_24: u64 = 0xFF_FFFF;

// The save code. The offset comes last: a division and a branch, which would part the reading of the 24 places from their use.
pub fn encode(p: Judged) -> u64
    ensures { result ≡ code_of p.position }
{
    let gone = p.position.visible | stack::foundation_mask(&p.position.heights);
    stack::encode(p.position.heights) as u64
        | (hidden::encode(&p.position.counts) as u64) << PILES_AT
        | (deck::encode(p, gone) as u64) << DECK_AT
        | (deck::normalized_offset(p.position.left, p.position.step, p.position.offset) as u64)
            << OFFSET_AT
}

// The four fields of a save code.
#[derive(Clone, Copy)]
struct Fields {
    heights: u16,
    piles: u16,
    deck: u32,
    offset: u8,
}

fn fields_of(code: u64) -> Fields
    ensures { result ≡ fields_of code }
{
    Fields {
        heights: (code & LOW_16) as u16,
        piles: ((code >> PILES_AT) & LOW_16) as u16,
        deck: ((code >> DECK_AT) & LOW_24) as u32,
        offset: (code >> OFFSET_AT) as u8,
    }
}

// The cards by where they lie.
#[derive(Clone, Copy)]
struct Sets {
    foundation: u64,
    deck: u64,
    buried: u64,
    heads: u64,
}

fn sets_of(p: Position) -> Sets
    requires { Ranged p }
    ensures { result ≡ sets_of p }
{
    Sets {
        foundation: stack::foundation_mask(&p.heights),
        deck: card::cards_from(&p.deck, 0, p.left as usize),
        buried: hidden::buried_mask(&p.deal, &p.counts),
        heads: hidden::head_mask(&p.deal, &p.counts),
    }
}

// Refusals 8 and 9, and else the position with its visible mask: every card that is in none of foundation, deck, buried.
fn arranged(p: Position) -> Result<Position, Refusal>
    requires { Ranged p }
    ensures { started_of result ≡ arrange_answer p }
{
    let s = sets_of(p);
    if s.foundation & (s.deck | s.buried | s.heads) != 0 {
        return Err(Refusal::Overlapping);
    }
    let visible = card::FULL_MASK & !(s.foundation | s.deck | s.buried);
    let free = visible & !s.heads;
    if !proper::pair_rule(free, visible) {
        return Err(Refusal::Unarranged);
    }
    if proper::count_heads(&p.counts) + proper::kings(free) > card::N_COLUMNS {
        return Err(Refusal::Unarranged);
    }
    Ok(Position { visible, ..p })
}

// The public resume: the position that a code stands for. No field is taken modulo.
pub fn resume(step: u8, cards: &[u8], code: u64) -> Result<Position, Refusal>
    ensures { started_of result ≡ resume_answer cards.now step code }
{
    let deal = deal::judge(step, cards)?;
    let fields = fields_of(code);
    let heights = stack::decode(fields.heights);
    if !stack::is_valid(heights) {
        return Err(Refusal::WrongHeight);
    }
    let Some(counts) = hidden::decode(fields.piles) else {
        return Err(Refusal::WrongPiles);
    };
    let DecodedDeck { deck, left } = deck::decode(deal, fields.deck);
    let offset = fields.offset;
    if offset > left {
        return Err(Refusal::WrongOffset);
    }
    if deck::normalized_offset(left, step, offset) != offset {
        return Err(Refusal::WrongOffset);
    }
    arranged(Position {
        deal,
        step,
        counts,
        heights,
        deck,
        left,
        offset,
        visible: 0,
    })
}
