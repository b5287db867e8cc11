// A trace as it is gone through: why it is refused before its steps, and what stands at a place in it.
#![tactic(auto)]

ghost use Rattle.std.specs.Prelude.{◌≡◌};
ghost use Rattle.refusals.specs.Refusals.{judged};
ghost use Rattle.trace_text.specs.Text.{trace_lines};
ghost use Rattle.trace_look.specs.Places.{looked};

use block::MOST_WARPS;
use refusals::Refusal;
use steps::{Cursor, Step};

// A trace has at most 65,536 bytes.
pub const MOST_BYTES: usize = 65536;

// Refuses a trace before its steps.
#[tactic(auto, unfolding(folds::specs::Folds::lowest))]
pub fn trace_refusal(trace: &[u8]) -> Result<(), Refusal>
    ensures { result ≡ judged (trace_lines trace.now) }
{
    if MOST_BYTES < trace.len() {
        return Err(Refusal::TooLong);
    }
    if trace.len() == 0 {
        return Err(Refusal::TooFewBytes);
    }
    let warps = trace[0];
    if (warps == 0) | (MOST_WARPS < warps) {
        return Err(Refusal::NoSuchWarp);
    }
    Ok(())
}

// What stands at a place: nothing where no byte is left, else a step with the cursor after it, or a 1 or 2.
#[tactic(auto, unfolding(crate::specs::Places::looked))]
pub fn look(trace: &[u8], cursor: Cursor) -> Option<Result<(Step, Cursor), Refusal>>
    ensures { result ≡ looked trace.now cursor.at }
{
    if trace.len() <= cursor.at {
        return None;
    }
    Some(cursor.read(trace))
}
