// The checker for C and C++: numbers, byte slices and one struct of numbers (include/glubotar.h).
#![tactic(auto)]

ghost use Rattle.std.specs.Prelude.{◌≡◌, length};
ghost use Rattle.fields.specs.Num.{laid};
ghost use Rattle.trace_text.specs.Text.{text_of, room_for, counts_of};
ghost use Rattle.text.specs.Buffer.{answer_of};
ghost use Rattle.glubotar_c.specs.Answer.{number_of};

use trace_text::Counts;

// SIZE_MAX: the text doesn't fit.
const NO_ROOM: usize = usize::MAX;

// The room that is enough for the text of any trace of this length.
#[unsafe(no_mangle)]
pub extern "C" fn glubotar_text_room(len: usize) -> usize
    ensures { result ≡ room_for len }
{
    text::room(len)
}

// The length of the text of a trace.
#[unsafe(no_mangle)]
pub extern "C" fn glubotar_text_needed(trace: &[u8]) -> usize
    ensures { result ≡ length (text_of trace.now) }
{
    text::needed(trace)
}

// The numbers of the text of a trace: how many lines are accepted and refused, and the first refused.
#[unsafe(no_mangle)]
pub extern "C" fn glubotar_count(trace: &[u8]) -> Counts
    ensures { result ≡ counts_of trace.now }
{
    text::counts(trace)
}

// Lays the text of a trace at the start of out and answers its length; where it doesn't fit, changes nothing and answers NO_ROOM.
#[unsafe(no_mangle)]
pub extern "C" fn glubotar_check(trace: &[u8], out: &mut [u8]) -> usize
    ensures { (result ≡ number_of (answer_of (text_of trace.now) out.old)) × (out.new ≡ laid out.old 0 (text_of trace.now)) }
{
    text::lay(trace, &mut *out).unwrap_or(NO_ROOM)
}
