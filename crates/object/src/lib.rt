// One mbarrier object's row by value: when it is sound, its token, init and inval.
#![tactic(auto)]

ghost use Rattle.std.specs.Prelude.{◌≡◌};
ghost use Rattle.object.specs.Tokens.{token, pending_count};
ghost use Rattle.object.specs.Row.{dead, not_done, outside, step_row};
ghost use Rattle.object.specs.Soundness.{live_sound, sound_row};

use refusals::Refusal;

// There are 64 objects.
pub const SLOTS: usize = 64;

// The most that is expected, and the most transactions either way.
pub const MOST: u32 = 1_048_575;

// The last phase.
pub const LAST_PHASE: u32 = u32::MAX;

// A token's slot stands above its pending count.
pub const SLOT_UNIT: u64 = 1 << 20;

// A token's phase stands above its slot.
pub const PHASE_UNIT: u64 = 1 << 26;

// Every token is below it.
pub const TOKEN_END: u64 = 1 << 58;

// An object's row; seen says whether the previous phase was seen.
#[derive(Clone, Copy, Debug, PartialEq, Eq)]
pub struct Object {
    pub live: bool,
    pub expected: u32,
    pub pending: u32,
    pub tx: i32,
    pub phase: u32,
    pub seen: bool,
}

// A step on a row. Arrive is every arrival and drop: its expectation is 0 where none is attached.
#[derive(Clone, Copy, Debug, PartialEq, Eq)]
pub enum Act {
    Init(u32),
    Inval,
    Arrive {
        count: u32,
        drop: bool,
        expects: u32,
        quiet: bool,
    },
    Expect(u32),
    Complete(u32),
    Token(u64),
    Parity(u8),
}

// What an accepted step leaves and answers: the row after it, the value and whether the phase completed.
#[derive(Clone, Copy, Debug, PartialEq, Eq)]
pub struct Answer {
    pub row: Object,
    pub value: u64,
    pub done: bool,
}

impl Answer {
    // That of a step that completes no phase.
    pub fn not_done(row: Object, value: u64) -> Answer
        ensures { result ≡ not_done row value }
    {
        Answer {
            row,
            value,
            done: false,
        }
    }
}

// The row of an object that is not live: all zero.
pub fn dead() -> Object
    ensures { result ≡ dead }
{
    Object {
        live: false,
        expected: 0,
        pending: 0,
        tx: 0,
        phase: 0,
        seen: false,
    }
}

// Whether a transaction count is outside its range.
pub fn outside(z: i64) -> bool
    ensures { result ≡ outside z }
{
    let most = i64::from(MOST);
    (z < -most) | (most < z)
}

// Whether a live row is sound; every u32 is a phase.
fn live_sound(o: Object) -> bool
    ensures { result ≡ live_sound o }
{
    ((1 <= o.expected) & (o.expected <= MOST))
        & (o.pending <= o.expected)
        & !outside(i64::from(o.tx))
        & ((o.phase != 0) | o.seen)
}

// Whether a row is sound: a dead one is zero.
pub fn sound(o: Object) -> bool
    ensures { result ≡ sound_row o }
{
    if o.live {
        return live_sound(o);
    }
    o == dead()
}

// The token of a row's state: phase, slot (address divided by 8) and pending count in one number.
pub fn token(o: Object, slot: u8) -> u64
    ensures { result ≡ token o slot }
{
    u64::from(o.phase) * PHASE_UNIT + u64::from(slot) * SLOT_UNIT + u64::from(o.pending)
}

// The pending count in a token, or 19.
pub fn pending_count(token: u64) -> Result<u64, Refusal>
    ensures { result ≡ pending_count token }
{
    if TOKEN_END <= token {
        return Err(Refusal::BadToken);
    }
    Ok(token % SLOT_UNIT)
}

// Init; the slot is nothing to it, nor to any step but arrivals and the test by token.
#[tactic(auto, unfolding(crate::specs::Row::step_row, folds::specs::Folds::lowest))]
pub fn init(o: Object, count: u32) -> Result<Answer, Refusal>
    ensures { result ≡ step_row o 0 (Act.Init count) }
{
    if o.live {
        return Err(Refusal::AlreadyLive);
    }
    if (count == 0) | (MOST < count) {
        return Err(Refusal::BadCount);
    }
    let row = Object {
        live: true,
        expected: count,
        pending: count,
        tx: 0,
        phase: 0,
        seen: true,
    };
    Ok(Answer::not_done(row, 0))
}

// Inval: the row is dead and zero.
#[tactic(auto, unfolding(crate::specs::Row::step_row, folds::specs::Folds::lowest))]
pub fn inval(o: Object) -> Result<Answer, Refusal>
    ensures { result ≡ step_row o 0 Act.Inval }
{
    if !o.live {
        return Err(Refusal::NotLive);
    }
    Ok(Answer::not_done(dead(), 0))
}
