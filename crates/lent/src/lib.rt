// The tables that the caller lends: which row a step names.
#![tactic(auto)]

ghost use Rattle.std.specs.Prelude.{◌≡◌};
ghost use Rattle.tables.specs.Tables.{slot_of};

use steps::Step;

// The row that a step names.
pub fn slot(s: Step) -> usize
    ensures { result ≡ slot_of s.op }
{
    tables::slot_of(s.op)
}
