// The tests of a phase, and every step on one object's row.
#![tactic(auto)]

ghost use Rattle.std.specs.Prelude.{◌≡◌};
ghost use Rattle.folds.specs.Folds.{digit};
ghost use Rattle.object.specs.Row.{told, not_done, step_row};

use object::{Act, Answer, Object, PHASE_UNIT, SLOT_UNIT, SLOTS, TOKEN_END};
use refusals::Refusal;

// How many objects there are.
const SLOT_COUNT: u64 = SLOTS as u64;

// What a test answers: a yes is 1 and sets the seen mark.
fn tell(o: Object, yes: bool) -> Answer
    ensures { result ≡ not_done (told o yes) (digit yes) }
{
    let row = Object {
        seen: yes | o.seen,
        ..o
    };
    Answer::not_done(row, u64::from(yes))
}

// A test by token.
#[tactic(auto, unfolding(object::specs::Row::step_row, folds::specs::Folds::lowest))]
fn test_token(o: Object, slot: u8, token: u64) -> Result<Answer, Refusal>
    ensures { result ≡ step_row o slot (Act.Token token) }
{
    if !o.live {
        return Err(Refusal::NotLive);
    }
    let phase = u64::from(o.phase);
    let of = token / PHASE_UNIT;
    let far = (of != phase) & (of + 1 != phase);
    if (TOKEN_END <= token) | (token / SLOT_UNIT % SLOT_COUNT != u64::from(slot)) | far {
        return Err(Refusal::BadToken);
    }
    Ok(tell(o, of < phase))
}

// A test by parity; in phase 0 parity 1 says no.
#[tactic(auto, unfolding(object::specs::Row::step_row, folds::specs::Folds::lowest))]
fn test_parity(o: Object, parity: u8) -> Result<Answer, Refusal>
    ensures { result ≡ step_row o 0 (Act.Parity parity) }
{
    if !o.live {
        return Err(Refusal::NotLive);
    }
    if 1 < parity {
        return Err(Refusal::BadParity);
    }
    let phase = o.phase;
    Ok(tell(o, (u32::from(parity) != phase % 2) & (phase != 0)))
}

// A step on the row of the object at a slot, which is its address divided by 8.
#[tactic(auto, unfolding(object::specs::Row::step_row))]
pub fn step(o: Object, slot: u8, act: Act) -> Result<Answer, Refusal>
    ensures { result ≡ step_row o slot act }
{
    match act {
        Act::Init(count) => object::init(o, count),
        Act::Inval => object::inval(o),
        Act::Arrive {
            count,
            drop,
            expects,
            quiet,
        } => object_phases::arrive(o, slot, count, drop, expects, quiet),
        Act::Expect(x) => object_phases::expect(o, x),
        Act::Complete(x) => object_phases::complete(o, x),
        Act::Token(token) => test_token(o, slot, token),
        Act::Parity(parity) => test_parity(o, parity),
    }
}
