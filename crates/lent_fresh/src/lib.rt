// Fresh tables over the list of object rows and the tally that the caller lends, and their parts by value.
#![tactic(auto)]

ghost use Rattle.std.specs.Prelude.{◌≡◌};
ghost use Rattle.refusals.specs.Refusals.{judged};
ghost use Rattle.tables.specs.Tables.{fresh_tally};
ghost use Rattle.lent.specs.Entries.{fresh_lines, turn_of, Freshened};

use block::{Accepted, MOST_WARPS, Turn};
use object::{Object, SLOTS};
use refusals::Refusal;
use tables::Tally;

// Refuses fresh tables over so many records for a number of warps, by the lowest line that applies.
#[tactic(auto, unfolding(folds::specs::Folds::lowest))]
pub fn fresh_refusal(rows: usize, warps: u8) -> Result<(), Refusal>
    ensures { result ≡ judged (fresh_lines rows warps) }
{
    if rows != SLOTS {
        return Err(Refusal::Unsound);
    }
    if (warps == 0) | (MOST_WARPS < warps) {
        return Err(Refusal::NoSuchWarp);
    }
    Ok(())
}

// The answer to whoever asks for fresh tables, refused or not.
pub fn fresh_turn(judged: Result<(), Refusal>, warps: u8) -> Turn
    ensures { result ≡ turn_of judged warps }
{
    match judged {
        Ok(()) => Turn {
            verdict: Ok(Accepted {
                value: 0,
                done: false,
                released: 0,
            }),
            block: block::fresh(warps),
        },
        Err(refusal) => Turn {
            verdict: Err(refusal),
            block: block::fresh(0),
        },
    }
}

// A tally of zeros.
pub fn fresh_tally() -> Tally
    ensures { result ≡ fresh_tally }
{
    Tally {
        accepted: 0,
        refused: 0,
    }
}

// Fresh tables for a number of warps; refused, they leave list and tally.
pub fn fresh(objects: &mut [Object], tally: &mut Tally, warps: u8) -> Turn
    ensures { Freshened objects.old tally.old warps result objects.new tally.new }
{
    let judged = fresh_refusal(objects.len(), warps);
    if judged.is_err() {
        return fresh_turn(judged, warps);
    }
    object_list::fresh_rows(objects);
    *tally = fresh_tally();
    fresh_turn(judged, warps)
}
