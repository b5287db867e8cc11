// The lines of a whole trace, laid one after the other into a buffer that the caller lends.
#![tactic(auto)]

ghost use Rattle.std.specs.Prelude.{◌≡◌, ◌+◌, ◌<◌, get_or, Some, None};
ghost use Rattle.fields.specs.Num.{laid};
ghost use Rattle.lines.specs.Lines.{most_line, line_of};
ghost use Rattle.trace_text.specs.Text.{trace_refusal, number_in};
ghost use Rattle.text_turns.specs.Buffer.{first_after, line_laid, summed, Begun, LastLaid, RefusedLaid, Lays};

use block::{Block, Verdict};
use lent_run::Checked;
use object::{Object, SLOTS};
use refusals::Refusal;
use steps::Cursor;
use tables::Tally;
use trace_text::{Counts, First};

// What a text tells: its length, and its numbers.
#[derive(Clone, Copy)]
pub struct Summary {
    pub length: usize,
    pub counts: Counts,
}

// A text that is being laid: the place after what is laid, and the first refused line of what is.
#[derive(Clone, Copy)]
struct Laying {
    at: usize,
    first: Option<First>,
}

// The number of the next line, after so many accepted and refused; it stops at 4,294,967,295.
fn number_in(lines: Tally) -> u32
    ensures { result ≡ number_in lines }
{
    let number = u64::from(lines.accepted) + u64::from(lines.refused) + 1;
    if number < u64::from(u32::MAX) {
        number as u32
    } else {
        u32::MAX
    }
}

// The first refused line, after one line more: that one, where it is refused and none was before it.
fn first_after(first: Option<First>, number: u32, v: Verdict) -> Option<First>
    ensures { result ≡ first_after first number v }
{
    match (first, v) {
        (None, Err(refusal)) => Some(First {
            step: number,
            refusal,
        }),
        (first, _) => first,
    }
}

// What a text of this length tells, with so many accepted and refused and this first refused line.
fn sum_up(length: usize, lines: Tally, first: Option<First>) -> Summary
    ensures { result ≡ summed length lines first }
{
    let (step, refusal) = match first {
        Some(line) => (line.step, u32::from(line.refusal.number())),
        None => (0, 0),
    };
    Summary {
        length,
        counts: Counts {
            accepted: lines.accepted,
            refused: lines.refused,
            step,
            refusal,
        },
    }
}

// The line of a verdict under its number, laid where it fits.
#[inline(always)]
#[tactic(auto, using(lines::proofs::Lines::line_most))]
fn lay_line(out: &mut [u8], l: Laying, number: u32, v: Verdict) -> Laying
    requires { l.at + most_line < 18446744073709551616 }
    ensures { (result ≡ line_laid l number v) × (out.new ≡ laid out.old l.at (line_of number v)) }
{
    let first = first_after(l.first, number, v);
    let length = lines::put_line(&mut *out, l.at, u64::from(number), v);
    Laying {
        at: l.at + length,
        first,
    }
}

// Lays the end line, where so many lines were accepted and refused; answers what all of the text tells.
#[inline(always)]
#[tactic(auto, using(lines::proofs::Lines::end_most, crate::proofs::Buffer::last_end))]
fn lay_end(out: &mut [u8], l: Laying, lines: Tally) -> Summary
    requires { l.at + most_line < 18446744073709551616 }
    ensures { LastLaid out.old l lines None result out.new }
{
    let length = l.at + lines::put_end(&mut *out, l.at, lines.accepted, lines.refused);
    sum_up(length, lines, l.first)
}

// Lays the line of a 1 or 2 that was found in place of a step, and the end line, where so many lines were accepted and refused before; answers what all of the text tells.
#[tactic(auto, using(lines::proofs::Lines::line_most, crate::proofs::Buffer::last_stop))]
fn lay_stop(out: &mut [u8], l: Laying, lines: Tally, refusal: Refusal) -> Summary
    requires { l.at + (most_line + most_line) < 18446744073709551616 }
    ensures { LastLaid out.old l lines (Some refusal) result out.new }
{
    let laid = lay_line(&mut *out, l, number_in(lines), Err(refusal));
    lay_end(&mut *out, laid, tables::add(lines, Err(refusal)))
}

// Lays the lines of the steps, turn by turn, and what follows the last; answers what the text tells. Block, list and tally are lent to each step where they lie, and what is known of them is kept beside them: there is no check. The tally counts the lines too.
fn lay_turns(
    trace: &[u8],
    out: &mut [u8],
    mut block: Block,
    mut objects: [Object; SLOTS],
    mut tally: Tally,
    mut checked: Checked,
) -> Summary
    requires { Begun trace.now block objects tally checked }
    ensures { Lays trace.now out.old result out.new }
{
    let mut cursor = Cursor { at: 1 };
    let mut laying = Laying { at: 0, first: None };
    loop {
        match trace_look::look(trace, cursor) {
            None => return lay_end(out, laying, tally),
            Some(Err(refusal)) => return lay_stop(out, laying, tally, refusal),
            Some(Ok((step, next))) => {
                let number = number_in(tally);
                let gone = lent_run::go_on(&mut block, &mut objects, &mut tally, checked, step);
                laying = lay_line(&mut *out, laying, number, gone.verdict);
                checked = gone.checked;
                cursor = next;
            }
        }
    }
}

// Lays the lines of the steps and the end line, each where it fits; answers what the text tells.
fn lay_steps(trace: &[u8], out: &mut [u8], warps: u8) -> Summary
    requires { (trace_refusal trace.now ≡ 0) × (warps ≡ get_or trace.now 0 0) }
    ensures { Lays trace.now out.old result out.new }
{
    let state = owned::fresh_owned(warps).state;
    let checked = lent_run::fresh_checked(warps);
    lay_turns(trace, out, state.block, state.objects, state.tally, checked)
}

// Lays the line of a trace that is refused before its steps, and the end line; answers what the text tells.
#[tactic(auto, using(lines::proofs::Lines::line_most, lines::proofs::Lines::end_most, crate::proofs::Buffer::refused_laid))]
fn lay_refused(out: &mut [u8], refusal: Refusal) -> Summary
    ensures { RefusedLaid out.old refusal result out.new }
{
    let at = lines::put_line(&mut *out, 0, 0, Err(refusal));
    let length = at + lines::put_end(&mut *out, at, 0, 1);
    let lines = Tally {
        accepted: 0,
        refused: 1,
    };
    let first = First { step: 0, refusal };
    sum_up(length, lines, Some(first))
}

// Lays the lines of a trace's text one after the other, each where it fits; answers the length of the text and its numbers.
pub fn lay_text(trace: &[u8], out: &mut [u8]) -> Summary
    ensures { Lays trace.now out.old result out.new }
{
    match trace_look::trace_refusal(trace) {
        Err(refusal) => lay_refused(out, refusal),
        Ok(()) => lay_steps(trace, out, trace[0]),
    }
}
