// Another firm's block list: what was confirmed, without steps.

#![tactic(auto)]

ghost use Rattle.std.specs.Prelude.{◌≡◌};
ghost use Rattle.sheet.specs.Refusal.{refused};
ghost use Rattle.call_blocks.specs.BlockList.{blocks_refusal};

use sheet::check::sheet_refusal;
use sheet::field::Sheet;
use sheet::refusal::Refusal;
use sheet::setup::setup_refusal;

pub mod block_list;
pub mod kept;

// An entry of a list: transaction, destination, block.
#[derive(Clone, Copy)]
pub struct Listed {
    pub transaction: u8,
    pub destination: u8,
    pub block: u16,
}

// Checks a block list: the first of 1 to 10, 29, 30 and 31 that fails.
pub fn blocks(sheet: &[u8], setup: &[u8], list: &[u8]) -> Result<(), Refusal>
    ensures { refused result ≡ blocks_refusal sheet.now setup.now list.now }
{
    sheet_refusal(sheet)?;
    setup_refusal(sheet, setup)?;
    block_list::list_refusal(&Sheet::of(sheet), setup, list)
}
