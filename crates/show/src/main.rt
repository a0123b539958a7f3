// The program `show`: reads one byte of step and then the deal; prints the code and the five masks, or `refused N`.
// `text` is what it prints, on slices, and `run` reads and writes it, in one call. No contract can speak of what the system gives or takes.
#![tactic(auto)]

ghost use Rattle.std.specs.Prelude.{◌≡◌, ◌++◌, ◌+◌, ◌<◌, ◌≤◌, T, length, drop, IfSome, OnOk};
ghost use Rattle.std.specs.Io.KnownBytes.{Appends};
ghost use Rattle.std.proofs.lemmas.List.Edits.{sets};
ghost use Rattle.rules.specs.Proper.{proper};
ghost use Rattle.rules.specs.Show.{digit as digit_of, hex_line, masks_text, shown as shown_text, refused_line, show_text};

use reading::read_full;
use rules::{Masks, Position, Refusal};
use std::io;
use std::io::{Read, Write};

// More than any deal that is not refused.
const N_INPUT: usize = 4096;

// The hex digits of a line.
const N_DIGITS: usize = 16;

// The longest text: six lines, each with its end.
const N_TEXT: usize = 6 * (N_DIGITS + 1);

const LINE_END: u8 = b'\n';

// A lower-case hex digit.
fn digit(n: u64) -> u8
    requires { n < 16 }
    ensures { result ≡ digit_of n }
{
    if n < 10 { 48 + n as u8 } else { 87 + n as u8 }
}

// Writes x as a line from the place at, the highest digit first, and returns the place after it.
fn hex_line(x: u64, out: &mut [u8], at: usize) -> usize
    requires { at + 17 ≤ length out.old }
    ensures { (result ≡ at + 17) × (out.new ≡ sets out.old at (hex_line x)) }
{
    for i in 0..N_DIGITS {
        let left = N_DIGITS - 1 - i;
        out[at + i] = digit((x >> (4 * left)) % 16);
    }
    out[at + N_DIGITS] = LINE_END;
    at + N_DIGITS + 1
}

// The five masks, a line each, in listing order.
fn mask_lines(m: Masks, out: &mut [u8], at: usize) -> usize
    requires { at + 85 ≤ length out.old }
    ensures { (result ≡ at + 85) × (out.new ≡ sets out.old at (masks_text m)) }
{
    let a = hex_line(m.reveal, out, at);
    let b = hex_line(m.pile_stack, out, a);
    let c = hex_line(m.deck_pile, out, b);
    let d = hex_line(m.deck_stack, out, c);
    hex_line(m.stack_pile, out, d)
}

// The code and the masks of a position.
// Kept: a plain position with a clause that it is proper, as `panel`'s calls take and give it.
fn shown(p: Position, out: &mut [u8]) -> usize
    requires { T (proper p) × (102 ≤ length out.old) }
    ensures { (result ≡ 102) × (out.new ≡ sets out.old 0 (shown_text p)) }
{
    let at = hex_line(panel::gravyhelm_save(p).code, out, 0);
    mask_lines(panel::gravyhelm_masks(p, 0).masks, out, at)
}

// `refused N`, of one digit.
// Kept: the refusal is a number, as `panel`'s answer has it: the C interface.
fn refused(n: u8, out: &mut [u8]) -> usize
    requires { (n < 10) × (10 ≤ length out.old) }
    ensures { (result ≡ 10) × (out.new ≡ sets out.old 0 (refused_line n)) }
{
    out[..8].copy_from_slice(b"refused ");
    out[8] = b'0' + n;
    out[9] = LINE_END;
    10
}

// What the program prints for all that it reads, at the front of out; its length comes back. Later bytes stay.
// Kept: a lent slice and a length. `writeln!` can fail at each piece that it writes, and its contract speaks of Ok alone; this cannot fail, and one call writes the whole text.
fn text(input: &[u8], out: &mut [u8]) -> usize
    requires { 102 ≤ length out.old }
    ensures { (result ≡ length (show_text input.now)) × (out.new ≡ show_text input.now ++ drop result out.old) }
{
    let Some((step, cards)) = input.split_first() else {
        return refused(Refusal::WrongLength as u8, out);
    };
    let s = panel::gravyhelm_deal(*step, cards);
    if s.refusal != 0 {
        return refused(s.refusal, out);
    }
    shown(s.position, out)
}

// Reads the input, and writes what is to be printed for all of it.
// What is past the buffer's bytes makes no difference: so long a deal is refused by its step or its length.
fn run<R: Read, W: Write>(input: &mut R, output: &mut W) -> io::Result<()>
    ensures { OnOk result (IfSome (R.remaining input.old) (λ xs. Appends (W.contents output.old) (W.contents output.new) (show_text xs))) }
{
    let mut buf = [0u8; N_INPUT];
    let n = read_full(input, &mut buf)?;
    let mut out = [0u8; N_TEXT];
    let k = text(&buf[..n], &mut out);
    output.write_all(&out[..k])
}

fn main(rt: HostRuntime) -> io::Result<()> {
    run(&mut rt.stdin(), &mut rt.stdout())
}
