// The examples of document 01's refusal table for the checks of a sheet and a setup, each with its number.
// The program stops where an answer differs, and writes nothing.

#![tactic(auto)]

ghost use Rattle.std.specs.Prelude.{◌≡◌};
ghost use Rattle.sheet.specs.Check.{sheet_refusal};
ghost use Rattle.sheet.specs.Setup.{setup_refusal};

use sheet::check::sheet_refusal;
use sheet::refusal::number_of;
use sheet::setup::setup_refusal;

fn sheet_gives(sheet: &[u8], number: u32)
    requires { sheet_refusal sheet.now ≡ number }
{
    check::expect(number_of(sheet_refusal(sheet)) == number);
}

fn setup_gives(sheet: &[u8], setup: &[u8], number: u32)
    requires { setup_refusal sheet.now setup.now ≡ number }
{
    check::expect(number_of(setup_refusal(sheet, setup)) == number);
}

fn sheets() {
    sheet_gives(&[], 1);
    sheet_gives(&[0, 1, 0, 0, 0], 2);
    sheet_gives(&[1, 9, 0, 0, 0], 3);
    sheet_gives(&[1, 1, 0, 1, 0], 4);
    sheet_gives(&[1, 1, 0, 1, 0, 0, 1, 1, 0, 0, 0], 5);
    sheet_gives(&[1, 1, 0, 1, 0, 255, 1, 0, 0, 0, 0], 6);
    sheet_gives(&[1, 1, 0, 1, 0, 255, 1, 1, 0, 2, 1], 7);
    sheet_gives(&[1, 1, 0, 1, 0, 255, 0, 1, 0, 0, 0], 8);
    sheet_gives(&[1, 1, 0, 1, 0, 255, 1, 1, 0, 0, 0], 0);
}

fn setups() {
    let sheet = [1, 1, 0, 1, 0, 255, 1, 1, 0, 0, 0];
    setup_gives(&sheet, &[0, 0, 0, 0], 9);
    setup_gives(&sheet, &[3, 0, 0], 9);
    setup_gives(&sheet, &[233, 3, 0, 0], 9);
    setup_gives(&sheet, &[3, 0, 3, 0], 10);
    setup_gives(&sheet, &[3, 0, 0, 2], 10);
    setup_gives(&sheet, &[3, 0, 2, 0], 10);
    setup_gives(&sheet, &[232, 3, 0, 1], 0);
}

fn main() {
    sheets();
    setups();
}
