// The text of a whole trace, laid into a buffer that the caller lends.
#![tactic(auto)]

ghost use Rattle.std.specs.Prelude.{◌≡◌, leb, length};
ghost use Rattle.fields.specs.Num.{laid};
ghost use Rattle.trace_text.specs.Text.{text_of, room_for, counts_of};
ghost use Rattle.text.specs.Buffer.{answer_of};

use lines::MOST_LINE;
use text_turns::Summary;
use trace_look::MOST_BYTES;
use trace_text::Counts;

// As many bytes as are always enough for the text of a trace of so many bytes.
pub fn room(len: usize) -> usize
    ensures { result ≡ room_for len }
{
    (len.min(MOST_BYTES) / 2 + 2) * MOST_LINE
}

// What the text of a trace tells, with nothing laid: its length, and its numbers.
fn tell(trace: &[u8]) -> Summary
    ensures { (result.length ≡ length (text_of trace.now)) × (result.counts ≡ counts_of trace.now) }
{
    text_turns::lay_text(trace, &mut [])
}

// The length of the text of a trace.
pub fn needed(trace: &[u8]) -> usize
    ensures { result ≡ length (text_of trace.now) }
{
    tell(trace).length
}

// The numbers of the text of a trace: how many lines are accepted and refused, and the first refused.
pub fn counts(trace: &[u8]) -> Counts
    ensures { result ≡ counts_of trace.now }
{
    tell(trace).counts
}

// Whether the text of a trace has at most so many bytes; it is counted only where the room for any such trace is more.
#[tactic(auto, using(trace_text::proofs::Laws::room_is_enough))]
fn fits(trace: &[u8], n: usize) -> bool
    ensures { result ≡ leb (length (text_of trace.now)) n }
{
    room(trace.len()) <= n || needed(trace) <= n
}

// Lays the text of a trace at the start of a buffer and answers its length; where it does not fit, nothing changes and there is none.
#[tactic(auto, using(text_turns::proofs::Buffer::text_fits))]
pub fn lay(trace: &[u8], out: &mut [u8]) -> Option<usize>
    ensures { (result ≡ answer_of (text_of trace.now) out.old) × (out.new ≡ laid out.old 0 (text_of trace.now)) }
{
    if !fits(trace, out.len()) {
        return None;
    }
    Some(text_turns::lay_text(trace, &mut *out).length)
}
