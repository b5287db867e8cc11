// Block, list and tally by value: the step and fresh tables for whoever owns what they are lent.
#![tactic(auto)]

ghost use Rattle.std.specs.Prelude.{◌≡◌};
ghost use Rattle.owned.specs.Owner.{owned_step, owned_fresh};

use block::{Block, Verdict};
use object::{Object, SLOTS};
use steps::Step;
use tables::Tally;

// Block, list and tally by value, for whoever owns them.
#[derive(Clone, Copy)]
pub struct Owned {
    pub block: Block,
    pub objects: [Object; SLOTS],
    pub tally: Tally,
}

// A verdict, and what is owned after the step.
#[derive(Clone, Copy)]
pub struct OwnedTurn {
    pub verdict: Verdict,
    pub state: Owned,
}

// One step on what is owned, which is lent to the step where it lies.
pub fn step_owned(mut o: Owned, s: Step) -> OwnedTurn
    ensures { result ≡ owned_step o s }
{
    let verdict = lent_step::step(&mut o.block, &mut o.objects, &mut o.tally, s);
    OwnedTurn { verdict, state: o }
}

// Fresh tables for a number of warps, owned.
#[tactic(auto, unfolding(lent::specs::Entries::fresh_refusal))]
pub fn fresh_owned(warps: u8) -> OwnedTurn
    ensures { result ≡ owned_fresh warps }
{
    let judged = lent_fresh::fresh_refusal(SLOTS, warps);
    let turn = lent_fresh::fresh_turn(judged, warps);
    OwnedTurn {
        verdict: turn.verdict,
        state: Owned {
            block: turn.block,
            objects: [object::dead(); SLOTS],
            tally: lent_fresh::fresh_tally(),
        },
    }
}
