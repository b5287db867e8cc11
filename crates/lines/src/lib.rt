// The lines that are printed, laid into a buffer that the caller lends.
#![tactic(auto)]

ghost use Rattle.std.specs.Prelude.{◌≡◌, ◌+◌, ◌≤◌, length, Ok, Err};
ghost use Rattle.std.proofs.lemmas.List.Edits.{sets};
ghost use Rattle.fields.specs.Num.{laid};
ghost use Rattle.digits.specs.Digits.{decimal, warps};
ghost use Rattle.lines.specs.Lines.{flag, most_line, line_of, end_of};

use block::{Accepted, Verdict};
use refusals::Refusal;

// A line has at most 56 bytes.
pub const MOST_LINE: usize = 56;

const SPACE: u8 = b' ';

const NEWLINE: u8 = b'\n';

// The digit of done.
fn flag_of(done: bool) -> u8
    ensures { result ≡ flag done }
{
    if done { b'1' } else { b'0' }
}

// Lays a word of a line from a place on; answers the place after it.
#[tactic(auto, using(fields::proofs::Num::laid_fits))]
fn put_word(line: &mut [u8; MOST_LINE], at: usize, word: &[u8]) -> usize
    requires { at + length word.now ≤ most_line }
    ensures { (result ≡ at + length word.now) × (line.new ≡ sets line.old at word.now) }
{
    digits::put(&mut *line, at, word);
    at + word.len()
}

// Lays a number of a line from a place on; answers the place after it.
#[tactic(auto, using(fields::proofs::Num::laid_fits))]
fn put_number(line: &mut [u8; MOST_LINE], at: usize, n: u64) -> usize
    requires { at + length (decimal n) ≤ most_line }
    ensures { (result ≡ at + length (decimal n)) × (line.new ≡ sets line.old at (decimal n)) }
{
    at + digits::put_decimal(&mut *line, at, n)
}

// Lays a set of warps of a line from a place on; answers the place after it.
#[tactic(auto, using(digits::proofs::Digits::length_warps))]
fn put_set(line: &mut [u8; MOST_LINE], at: usize, set: u32) -> usize
    requires { at + length (warps set) ≤ most_line }
    ensures { (result ≡ at + length (warps set)) × (line.new ≡ sets line.old at (warps set)) }
{
    digits::put_warps(&mut *line, at, set);
    at + 8
}

// Makes the line of an accepted step; answers its length.
#[tactic(auto, using(digits::proofs::Digits::decimal_most, digits::proofs::Digits::length_warps))]
fn put_ok(line: &mut [u8; MOST_LINE], n: u64, a: Accepted) -> usize
    ensures { (result ≡ length (line_of n (Ok a))) × (line.new ≡ sets line.old 0 (line_of n (Ok a))) }
{
    let at = put_number(&mut *line, 0, n);
    let at = put_word(&mut *line, at, b" ok ");
    let at = put_number(&mut *line, at, a.value);
    let at = put_word(&mut *line, at, &[SPACE, flag_of(a.done), SPACE]);
    let at = put_set(&mut *line, at, a.released);
    put_word(&mut *line, at, &[NEWLINE])
}

// Makes the line of a refused step; answers its length.
#[tactic(auto, using(digits::proofs::Digits::decimal_most))]
fn put_no(line: &mut [u8; MOST_LINE], n: u64, refusal: Refusal) -> usize
    ensures { (result ≡ length (line_of n (Err refusal))) × (line.new ≡ sets line.old 0 (line_of n (Err refusal))) }
{
    let at = put_number(&mut *line, 0, n);
    let at = put_word(&mut *line, at, b" no ");
    let at = put_number(&mut *line, at, u64::from(refusal.number()));
    put_word(&mut *line, at, &[NEWLINE])
}

// Makes the line of a step; answers its length.
fn spell(line: &mut [u8; MOST_LINE], n: u64, verdict: Verdict) -> usize
    ensures { (result ≡ length (line_of n verdict)) × (line.new ≡ sets line.old 0 (line_of n verdict)) }
{
    match verdict {
        Ok(a) => put_ok(line, n, a),
        Err(refusal) => put_no(line, n, refusal),
    }
}

// Makes the line of a step at the start of a buffer that has the room for any; answers its length.
fn put_first(out: &mut [u8], n: u64, verdict: Verdict) -> usize
    requires { most_line ≤ length out.old }
    ensures { (result ≡ length (line_of n verdict)) × (out.new ≡ sets out.old 0 (line_of n verdict)) }
{
    let Some(line) = out.first_chunk_mut::<MOST_LINE>() else {
        unreachable!()
    };
    spell(line, n, verdict)
}

// Makes the end line; answers its length.
#[tactic(auto, using(digits::proofs::Digits::decimal_most))]
fn spell_end(line: &mut [u8; MOST_LINE], accepted: u32, refused: u32) -> usize
    ensures { (result ≡ length (end_of accepted refused)) × (line.new ≡ sets line.old 0 (end_of accepted refused)) }
{
    let at = put_word(&mut *line, 0, b"end ");
    let at = put_number(&mut *line, at, u64::from(accepted));
    let at = put_word(&mut *line, at, &[SPACE]);
    let at = put_number(&mut *line, at, u64::from(refused));
    put_word(&mut *line, at, &[NEWLINE])
}

// The same as put_line, the line made apart and then laid where it fits.
fn put_apart(out: &mut [u8], at: usize, n: u64, verdict: Verdict) -> usize
    ensures { (result ≡ length (line_of n verdict)) × (out.new ≡ laid out.old at (line_of n verdict)) }
{
    let mut line = [0u8; MOST_LINE];
    let k = spell(&mut line, n, verdict);
    digits::put(&mut *out, at, &line[..k]);
    k
}

// Lays the line of a step from at on, where it fits, and else nothing; answers its length. Where any line fits it is laid at once.
pub fn put_line(out: &mut [u8], at: usize, n: u64, verdict: Verdict) -> usize
    ensures { (result ≡ length (line_of n verdict)) × (out.new ≡ laid out.old at (line_of n verdict)) }
{
    if out.len() < at {
        return put_apart(&mut *out, at, n, verdict);
    }
    if out.len() - at < MOST_LINE {
        return put_apart(&mut *out, at, n, verdict);
    }
    put_first(&mut out[at..], n, verdict)
}

// Lays the end line from at on, where it fits, and else nothing; answers its length.
pub fn put_end(out: &mut [u8], at: usize, accepted: u32, refused: u32) -> usize
    ensures { (result ≡ length (end_of accepted refused)) × (out.new ≡ laid out.old at (end_of accepted refused)) }
{
    let mut line = [0u8; MOST_LINE];
    let k = spell_end(&mut line, accepted, refused);
    digits::put(&mut *out, at, &line[..k]);
    k
}
