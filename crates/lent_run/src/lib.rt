// The way in for a run: tables are checked once, or are fresh, and then gone on with step after step without a check. Who is live is kept beside them.
#![tactic(auto)]

ghost use Rattle.std.specs.Prelude.{◌≡◌, ◌&&◌, get_or, set};
ghost use Rattle.object.specs.Row.{dead};
ghost use Rattle.block.specs.Tables.{live_of, sound_block};
ghost use Rattle.block_laws.specs.Sound.{Shaped};
ghost use Rattle.tables.specs.Tables.{fresh_tables};
ghost use Rattle.step_decides.specs.Decides.{left_of};
ghost use Rattle.lent.specs.Entries.{tables_of, state_of};
ghost use Rattle.lent_run.specs.Run.{known, checked_of, checked_after, GoneOn};

use block::{Block, MOST_WARPS, Verdict};
use object::Object;
use refusals::Refusal;
use step_decides::Decided;
use steps::Step;
use tables::Tally;

// What is known of tables: which warps have not exited, where the tables are sound, and of others nothing. No other crate makes one: a check does, fresh tables have one, and going on hands the next one back.
#[derive(Clone, Copy)]
pub struct Checked {
    live: Option<u32>,
}

// A step's verdict, and what is known of the tables after it.
#[derive(Clone, Copy)]
pub struct Gone {
    pub verdict: Verdict,
    pub checked: Checked,
}

// What is known of fresh tables for a number of warps, with no check: those of 1 to 32 warps are sound, and nobody has exited.
pub fn fresh_checked(warps: u8) -> Checked
    ensures { result ≡ checked_of (fresh_tables warps) }
{
    if (warps == 0) | (MOST_WARPS < warps) {
        return Checked { live: None };
    }
    Checked {
        live: Some(sets::below(warps)),
    }
}

// What a check finds in a block, where the object rows are sound or not.
fn found(b: Block, fine: bool) -> Checked
    ensures known { result ≡ known (sound_block b && fine) (live_of b) }
    ensures shaped { Shaped b }
{
    if !(block_sound::sound(b) & fine) {
        return Checked { live: None };
    }
    Checked {
        live: Some(block_sound::live(b)),
    }
}

// Checks the tables; they stay as they are.
pub fn check(b: &mut Block, objects: &[Object]) -> Checked
    ensures known { (result ≡ checked_of (tables_of b.old objects.now)) × (b.new ≡ b.old) }
    ensures shaped { Shaped b.old }
{
    let fine = object_list::rows_sound(objects);
    found(*b, fine)
}

// What is known after a step with this verdict: only an accepted exit changes who is live.
fn known_after(c: Checked, s: Step, v: Verdict) -> Checked
    ensures { result ≡ checked_after c s v }
{
    let Some(live) = c.live else {
        return c;
    };
    if !(step_decides::is_exit(s.op) & v.is_ok()) {
        return c;
    }
    Checked {
        live: Some(sets::less(live, s.warp)),
    }
}

// Makes what was decided, in the block and in row i of the list; a refusal changes neither.
fn carry_out(
    b: &mut Block,
    objects: &mut [Object],
    i: usize,
    decided: Result<Decided, Refusal>,
) -> Verdict
    ensures verdict { result ≡ (left_of b.old (get_or objects.old i dead) decided).verdict }
    ensures block { b.new ≡ (left_of b.old (get_or objects.old i dead) decided).block }
    ensures objects { objects.new ≡ set objects.old i (left_of b.old (get_or objects.old i dead) decided).object }
{
    let d = decided?;
    object_list::put_row(objects, i, d.object);
    lent_change::change(b, d.change);
    Ok(d.accepted)
}

// One step on tables of which this is known, without a check: 3 where they are not sound, and else what the step makes of the rows that it sees and of who is live. Refused, it leaves block and list; either way the tally counts it.
pub fn go_on(b: &mut Block, objects: &mut [Object], tally: &mut Tally, c: Checked, s: Step) -> Gone
    ensures { GoneOn (state_of b.old objects.old tally.old) c s result b.new objects.new tally.new }
{
    let i = lent::slot(s);
    let row = object_list::row_at(objects, i);
    let seen = lent_seen::see(&mut *b, c.live.is_some(), c.live.unwrap_or(0), s);
    let decided = step_decides::decide(seen, row, s);
    let verdict = carry_out(b, objects, i, decided);
    tally::count(tally, verdict);
    let checked = known_after(c, s, verdict);
    Gone { verdict, checked }
}
