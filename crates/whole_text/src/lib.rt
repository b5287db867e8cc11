// Laying the whole text of a trace that was read, in a buffer that is never too short.
#![tactic(auto)]

ghost use Rattle.reading.specs.Reading.{read_of};
ghost use Rattle.whole_text.specs.Whole.{LaysWhole};

use lines::MOST_LINE;
use reading::Read;
use trace_look::MOST_BYTES;

// The room for the text of any trace, as `text::room` says it of the longest.
pub const TEXT_ROOM: usize = (MOST_BYTES / 2 + 2) * MOST_LINE;

// Lays the text of what was read and answers its length: the buffer is never too short, so there is one.
#[tactic(auto, using(trace_text::proofs::Laws::room_is_enough))]
pub fn lay_whole(read: &Read, text: &mut [u8; TEXT_ROOM]) -> usize
    ensures { LaysWhole (read_of read.now) text.old result text.new }
{
    text::lay(read.bytes(), &mut *text).unwrap()
}
