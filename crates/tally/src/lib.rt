// The tally that the caller lends counts a verdict in place.
#![tactic(auto)]

ghost use Rattle.std.specs.Prelude.{◌≡◌};
ghost use Rattle.tables.specs.Tables.{tallied};

use block::Verdict;
use tables::Tally;

// One more accepted or refused, in place.
pub fn count(tally: &mut Tally, v: Verdict)
    ensures { tally.new ≡ tallied tally.old v }
{
    *tally = tables::add(*tally, v);
}
