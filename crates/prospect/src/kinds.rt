// The kinds of transactions, as sets.
ghost use Rattle.std.specs.Prelude.{◌<◌, ◌≡◌, not, ◌||◌};
ghost use Rattle.laws.specs.Sets.{set_below};
ghost use Rattle.sheet.specs.Field.{count};
ghost use Rattle.slots.specs.Destination.{is_payee, is_contract};
ghost use Rattle.soonest.specs.Soonest.{since_locked};

use sheet::field::Sheet;
use sheet::set;
use slots::party;

// The contract transactions.
pub fn contracts(sheet: &Sheet) -> u32
    ensures { result ≡ set_below (count sheet.now.bytes) (is_contract sheet.now.bytes) }
{
    set::below(sheet.count(), |t| party::is_contract(sheet, t))
}

// The others, which pay.
pub fn paying(sheet: &Sheet) -> u32
    ensures { result ≡ set_below (count sheet.now.bytes) (λ t. not (is_contract sheet.now.bytes t)) }
{
    set::below(sheet.count(), |t| !party::is_contract(sheet, t))
}

// The contract transactions, and those that pay the party.
pub fn payable(sheet: &Sheet, party: u8) -> u32
    ensures { result ≡ set_below (count sheet.now.bytes) (λ t. is_contract sheet.now.bytes t || is_payee sheet.now.bytes t party) }
{
    set::below(
        sheet.count(),
        |t| party::is_contract(sheet, t) || party::is_payee(sheet, t, party),
    )
}

// Those that are locked since their parent.
pub fn since_locked(sheet: &Sheet) -> u32
    ensures { result ≡ set_below (count sheet.now.bytes) (since_locked sheet.now.bytes) }
{
    set::below(sheet.count(), |t| sheet.lock_type(t) == 2)
}
