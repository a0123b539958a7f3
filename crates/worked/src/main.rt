// Document 01's worked rows P1 to P14 as a run: each row's answers by the calls that C links, which the stored stdout holds to the document's.
// Kept: kinds and refusals are numbers, as the calls of `panel` give them: the C interface.
#![tactic(auto)]

use rules::{Masks, Position};
use std::io;

const STEP: u8 = 3;

// Deal W: card number equals place.
const W: [u8; 52] = [
    0, 1, 2, 3, 4, 5, 6, 7, 8, 9, 10, 11, 12, 13, 14, 15, 16, 17, 18, 19, 20, 21, 22, 23, 24, 25,
    26, 27, 28, 29, 30, 31, 32, 33, 34, 35, 36, 37, 38, 39, 40, 41, 42, 43, 44, 45, 46, 47, 48, 49,
    50, 51,
];

fn print_masks(rt: &impl Print, row: &str, m: Masks) -> io::Result<()> {
    println!(rt;
        "{row} {:016x} {:016x} {:016x} {:016x} {:016x}",
        m.reveal, m.pile_stack, m.deck_pile, m.deck_stack, m.stack_pile
    )
}

fn masks(p: Position, pruned: bool) -> Masks {
    panel::gravyhelm_masks(p, u8::from(pruned)).masks
}

// The deck cards that deals bring; 0 where the position is not proper.
fn available(p: Position) -> u64 {
    match proper::judge(p) {
        Ok(p) => deck::compute_mask(p, false),
        Err(_) => 0,
    }
}

// P1 to P3: fresh W.
fn fresh(rt: &impl Print, p: Position) -> io::Result<()> {
    let visible = p.visible;
    let code = panel::gravyhelm_save(p).code;
    println!(rt; "P1 {visible:016x} {code:016x}")?;
    print_masks(rt, "P2", masks(p, false))?;
    print_masks(rt, "P3", masks(p, true))
}

// A move with room for one entry: the refusal, the byte, the visible mask and the code after it.
fn played(rt: &impl Print, row: &str, p: Position, kind: u8, card: u8) -> io::Result<Position> {
    let m = panel::gravyhelm_do_move(p, &mut [0; 1], 0, kind, card);
    let after = m.position;
    let visible = after.visible;
    let code = panel::gravyhelm_save(after).code;
    println!(rt; "{row} {} {} {visible:016x} {code:016x}", m.refusal, m.byte)?;
    Ok(after)
}

// P4 to P7: moves from fresh W. After P6 pile 2 shows 4, and pile 3 shows 9, 5.
fn moves(rt: &impl Print, p: Position) -> io::Result<()> {
    let p4 = played(rt, "P4", p, 1, 0)?;
    played(rt, "P5", p4, 1, 2)?;
    let p6 = played(rt, "P6", p, 4, 5)?;
    let mut out = [0u8; 91];
    let lengths = panel::gravyhelm_piles(p6, &mut out).lengths;
    println!(rt;
        " {} {} {} {} {}",
        lengths[2], out[26], lengths[3], out[39], out[40]
    )?;
    played(rt, "P7", p, 4, 9)?;
    Ok(())
}

// The refusal of a code of W.
fn refusal(code: u64) -> u8 {
    panel::gravyhelm_resume(STEP, &W, code).refusal
}

// P8 to P11: codes that are refused, and the one of P9 that is not.
fn codes(rt: &impl Print) -> io::Result<()> {
    println!(rt; "P8 {}", refusal(0x18FF_FFFF_9D80_0000))?;
    println!(rt;
        "P9 {} {}",
        refusal(0x03FF_FFFF_9D7F_0000),
        refusal(0x04FF_FFFF_9D7F_0000)
    )?;
    println!(rt; "P10 {}", refusal(0x18FF_FFFF_9D7F_0001))?;
    println!(rt; "P11 {}", refusal(0x0000_0000_9D7F_0000))
}

// P12: the game is won; the kings can come down.
fn won(rt: &impl Print) -> io::Result<()> {
    let p = panel::gravyhelm_resume(STEP, &W, 0xDDDD).position;
    let row = if panel::gravyhelm_is_win(p).yes {
        "P12 won"
    } else {
        "P12"
    };
    print_masks(rt, row, masks(p, false))
}

// P13: 10 left, offset 5, step 4, here the cards 42 to 51: those at the places 3, 4, 7, 8, 9 are 45, 46, 49, 50, 51.
// P14: offsets of fresh W.
fn dealing(rt: &impl Print, p: Position) -> io::Result<()> {
    let ten_left = panel::gravyhelm_resume(4, &W, 0x05FF_C000_0000_AABB).position;
    println!(rt; "P13 {:016x}", available(ten_left))?;
    let offset = |n: u8| panel::gravyhelm_offset(p, n).offset;
    println!(rt; "P14 {} {} {}", offset(8), offset(9), offset(255))
}

fn main(rt: HostRuntime) -> io::Result<()> {
    let p = panel::gravyhelm_deal(STEP, &W).position;
    fresh(&rt, p)?;
    moves(&rt, p)?;
    codes(&rt)?;
    won(&rt)?;
    dealing(&rt, p)
}
