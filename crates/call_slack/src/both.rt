// What is found for a party: its slack, and the transaction that it counts on.
ghost use Rattle.std.specs.Prelude.{◌≤◌, ◌<◌, ◌≡◌};
ghost use Rattle.sheet.specs.Checked.{Fit};
ghost use Rattle.sheet.specs.LockHeight.{never};
ghost use Rattle.slack.specs.Kept.{longest};
ghost use Rattle.slack.specs.Slack.{slack};
ghost use Rattle.kept.specs.Forms.Evaluation.{Bounded};
ghost use Rattle.call_slack.specs.Forms.Counted.{longer, counted_at_in, counted_both};
ghost use Rattle.call_slack.specs.Row.{counted_at};

use kept::Prospect;
use kept::counted::{NOBODY, counted};
use kept::greatest::{LONGEST, kept_for};
use position::Position;
use prospect::seen::prospect;
use sheet::field::Sheet;
use slots::lock_height::NEVER;

// The slack, and the transaction, 255 for none.
#[derive(Clone, Copy)]
pub struct Found {
    pub blocks: u32,
    pub t: u8,
}

// The greater of those that are numbers, b only if it is 1 at least: in the settled position the party is off for the next block.
fn longer(a: u32, b: u32) -> u32
    ensures { result ≡ longer a b }
{
    if b == 0 {
        return a;
    }
    if b == NEVER {
        return a;
    }
    if a == NEVER {
        return b;
    }
    if a < b {
        return b;
    }
    a
}

// What a party with this slack counts on.
fn counted_at(prospect: Prospect, blocks: u32) -> u8
    requires bounded { Bounded prospect }
    requires blocks_le_longest { (blocks ≡ never → ⊥) → blocks ≤ longest }
    ensures { result ≡ counted_at_in prospect blocks }
{
    if blocks == NEVER {
        return NOBODY;
    }
    let off = prospect.mined + blocks;
    counted(prospect, off)
}

// From what is kept for a blocks as the position stands, and for b blocks in the settled position.
fn both(standing: Prospect, settled: Prospect, a: u32, b: u32) -> Found
    requires bounded { Bounded standing }
    requires bounded_2 { Bounded settled }
    requires a_le_longest { (a ≡ never → ⊥) → a ≤ longest }
    requires b_le_longest { (b ≡ never → ⊥) → b ≤ longest }
    ensures blocks_value { result.blocks ≡ longer a b }
    ensures t_value { result.t ≡ counted_both standing settled a (longer a b) }
{
    let blocks = longer(a, b);
    if blocks == a {
        let t = counted_at(standing, blocks);
        return Found { blocks, t };
    }
    let t = counted_at(settled, blocks);
    Found { blocks, t }
}

// From the position as it stands and, where that does not keep for the longest and something of the block being filled settles, from the
// settled one.
pub fn found_at(position: Position, sheet: &Sheet, setup: &[u8], party: u8) -> Found
    requires fit { Fit sheet.now.bytes setup.now }
    requires mined_bound { position.mined < 65535 }
    ensures blocks_value { result.blocks ≡ slack sheet.now.bytes setup.now position party }
    ensures t_value { result.t ≡ counted_at sheet.now.bytes setup.now position party (slack sheet.now.bytes setup.now position party) }
{
    let standing = prospect(position, sheet, setup, party);
    let a = kept_for(standing);
    if a == LONGEST {
        return both(standing, standing, a, a);
    }
    let members = settle::settling(position, sheet, setup, party);
    if members == 0 {
        return both(standing, standing, a, a);
    }
    let after = settle::confirm::confirm(position, sheet, members);
    let settled = prospect(after, sheet, setup, party);
    let b = kept_for(settled);
    both(standing, settled, a, b)
}
