// The tests of kinds 5, 6 and 7, where `any` says that some bump is owed.
ghost use Rattle.std.specs.Prelude.{◌<◌, ◌≡◌, not, eqb};
ghost use Rattle.laws.specs.Mask.{bit};
ghost use Rattle.laws.specs.Failing.{first_failing};
ghost use Rattle.sheet.specs.Refusal.{refused};
ghost use Rattle.sheet.specs.Field.{count};
ghost use Rattle.sheet.specs.Checked.{Checked};
ghost use Rattle.steps.specs.Tests.{block_met_rule, bump_rule};
ghost use Rattle.steps.specs.Forms.Mining.{include_tests_in, mine_tests_in};

use crate::{View, parent};
use sheet::field::Sheet;
use sheet::refusal::{Refusal, require};
use sheet::set;
use slots::conflict;

// The first test of kind 5 that fails.
pub fn include_refusal(sheet: &Sheet, view: View, any: bool, t: usize) -> Result<(), Refusal>
    requires checked { Checked sheet.now.bytes }
    requires t_bound { t < count sheet.now.bytes }
    ensures { refused result ≡ first_failing (include_tests_in sheet.now.bytes view any t) }
{
    require(
        !conflict::conflict_in(sheet, view.placed(), t),
        Refusal::StepConflict,
    )?;
    require(
        parent::parent_there(sheet, view.placed(), t),
        Refusal::StepParent,
    )?;
    require(set::has(view.pool, t), Refusal::StepPool)?;
    require(!any, Refusal::StepBumpOwed)
}

// Whether the block being filled has an entry, or transaction 0 is confirmed.
fn block_met(view: View) -> bool
    ensures { result ≡ block_met_rule (not (eqb view.block 0)) (bit view.confirmed 0) }
{
    if view.block != 0 {
        return true;
    }
    set::has(view.confirmed, 0)
}

// The first test of kind 6 that fails.
pub fn mine_refusal(view: View, any: bool) -> Result<(), Refusal>
    ensures { refused result ≡ first_failing (mine_tests_in view any) }
{
    require(!any, Refusal::StepBumpOwed)?;
    require(block_met(view), Refusal::StepEmptyBlock)?;
    require(view.mined < 10000, Refusal::StepBlocks)
}

// The test of kind 7: that the bump is owed.
pub fn bump_refusal(owed: bool) -> Result<(), Refusal>
    ensures { refused result ≡ first_failing (bump_rule owed) }
{
    require(owed, Refusal::StepNotOwed)
}
