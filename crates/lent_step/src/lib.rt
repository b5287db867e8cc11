// The step where the caller lends everything: block, list and tally are changed where they lie.
#![tactic(auto)]

ghost use Rattle.lent.specs.Entries.{state_of, Stepped};

use block::{Block, Verdict};
use object::Object;
use steps::Step;
use tables::Tally;

// One step: the tables are checked, and then gone on with. Refused, it leaves block and list; either way the tally counts it.
pub fn step(b: &mut Block, objects: &mut [Object], tally: &mut Tally, s: Step) -> Verdict
    ensures { Stepped (state_of b.old objects.old tally.old) s result b.new objects.new tally.new }
{
    let c = lent_run::check(&mut *b, objects);
    let g = lent_run::go_on(b, objects, tally, c, s);
    g.verdict
}
