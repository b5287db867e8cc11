// What a step asks: of a barrier as one call, and of an object as one act.
#![tactic(auto)]

ghost use Rattle.std.specs.Prelude.{◌≡◌, false};
ghost use Rattle.tables.specs.Refusals.{call_of, act_of};

use block::Call;
use object::Act;
use steps::{BarrierStep, ObjectStep};

// A named-barrier step as the arrival that it is.
pub fn call_of(b: BarrierStep) -> Call
    ensures { result ≡ call_of b }
{
    match b {
        BarrierStep::SyncAll => barrier_calls::sync_call(None),
        BarrierStep::Sync(t) => barrier_calls::sync_call(Some(t)),
        BarrierStep::Arrive(t) => barrier_calls::arrive_call(t),
        BarrierStep::RedAll { selector, mask } => barrier_calls::red_call(selector, None, mask),
        BarrierStep::Red {
            selector,
            threads,
            mask,
        } => barrier_calls::red_call(selector, Some(threads), mask),
    }
}

// An arrival or a drop without an attached expect.
fn plain(count: u32, drop: bool, quiet: bool) -> Act
    ensures { result ≡ Act.Arrive count drop 0 quiet }
{
    Act::Arrive {
        count,
        drop,
        expects: 0,
        quiet,
    }
}

// An arrival or a drop with an attached expect: its count is 1.
fn expecting(expects: u32, drop: bool) -> Act
    ensures { result ≡ Act.Arrive 1 drop expects false }
{
    Act::Arrive {
        count: 1,
        drop,
        expects,
        quiet: false,
    }
}

// An object step as the act that it is.
pub fn act_of(o: ObjectStep) -> Act
    ensures { result ≡ act_of o }
{
    match o {
        ObjectStep::Init(n) => Act::Init(n),
        ObjectStep::Inval => Act::Inval,
        ObjectStep::Arrive(n) => plain(n, false, false),
        ObjectStep::ArriveNoComplete(n) => plain(n, false, true),
        ObjectStep::ArriveExpect(x) => expecting(x, false),
        ObjectStep::Drop(n) => plain(n, true, false),
        ObjectStep::DropNoComplete(n) => plain(n, true, true),
        ObjectStep::DropExpect(x) => expecting(x, true),
        ObjectStep::Expect(x) => Act::Expect(x),
        ObjectStep::Complete(x) => Act::Complete(x),
        ObjectStep::TestToken(t) => Act::Token(t),
        ObjectStep::TestParity(p) => Act::Parity(p),
    }
}
