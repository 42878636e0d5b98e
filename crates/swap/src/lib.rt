// The outward calls for C: each packs the answer of the call in Rattle.

#![tactic(auto)]

ghost use Rattle.std.specs.Prelude.{◌*◌, ◌%◌, ◌≡◌, drop};
ghost use Rattle.sheet.specs.Check.{sheet_refusal};
ghost use Rattle.position.specs.Play.{run};
ghost use Rattle.position.specs.Answers.{packed, run_part, list_answer};
ghost use Rattle.dated.specs.Report.{report_answer};
ghost use Rattle.call_outage.specs.Answer.{outage_answer};
ghost use Rattle.call_slack.specs.Answer.{slack_answer};
ghost use Rattle.call_page.specs.Page.{page_answer};
ghost use Rattle.call_timelocks.specs.Timelocks.{timelocks_answer};
ghost use Rattle.call_desk.specs.Desk.{desk_answer};
ghost use Rattle.call_blocks.specs.BlockList.{blocks_refusal};
ghost use Rattle.call_earliest.specs.Answer.{earliest_answer};
ghost use Rattle.call_ask.specs.Ask.{ask_answer};
ghost use Rattle.call_ask.specs.Commit.{commit_answer};
ghost use Rattle.call_shrink.specs.Shrink.{shrink_answer};
ghost use Rattle.swap.specs.Version.{version};

use call_ask::ask::ask;
use call_ask::commit::commit;
use call_blocks::blocks;
use call_desk::desk;
use call_earliest::earliest;
use call_list::list;
use call_outage::outage;
use call_page::page;
use call_report::report;
use call_run::run;
use call_shrink::shrink;
use call_slack::slack;
use call_timelocks::timelocks;
use sheet::check::sheet_refusal;
use sheet::refusal::number_of;

// The version of the library as one number.
#[unsafe(no_mangle)]
pub extern "C" fn swap_version() -> u32
    ensures { result ≡ version }
{
    20000
}

// Checks a sheet: refusal × 65,536.
#[unsafe(no_mangle)]
pub extern "C" fn swap_check(sheet: &[u8]) -> u32
    ensures { result ≡ packed (sheet_refusal sheet.now) 0 }
{
    number_of(sheet_refusal(sheet)) * 65536
}

// Runs a journal: refusal × 65,536 + the steps accepted. "the count telling where the part starts": the rest of the journal is what follows
// so many steps of four bytes.
#[unsafe(no_mangle)]
pub extern "C" fn swap_run(sheet: &[u8], setup: &[u8], journal: &[u8]) -> u32
    ensures value { result ≡ packed (run sheet.now setup.now journal.now).refusal (run sheet.now setup.now journal.now).accepted }
    ensures journal_value { run_part sheet.now setup.now journal.now ≡ drop (4 * (result % 65536)) journal.now }
{
    let mut refusal: u32 = 0;
    let mut accepted: u32 = 0;
    let rest = run(sheet, setup, journal, &mut refusal, &mut accepted);
    refusal * 65536 + accepted
}

// Lists the open steps after a journal: refusal × 65,536 + the steps written.
#[unsafe(no_mangle)]
pub extern "C" fn swap_list(sheet: &[u8], setup: &[u8], journal: &[u8], out: &mut [u8]) -> u32
    ensures value { result ≡ packed (list_answer sheet.now setup.now journal.now out.old).refusal
        (list_answer sheet.now setup.now journal.now out.old).count }
    ensures out_after { out.new ≡ (list_answer sheet.now setup.now journal.now out.old).buffer }
{
    let listed = list(sheet, setup, journal, out);
    listed.refusal * 65536 + listed.count
}

// Reports on the position after a journal: refusal × 65,536.
#[unsafe(no_mangle)]
pub extern "C" fn swap_report(sheet: &[u8], setup: &[u8], journal: &[u8], out: &mut [u8]) -> u32
    ensures value { result ≡ packed (report_answer sheet.now setup.now journal.now out.old).refusal 0 }
    ensures out_after { out.new ≡ (report_answer sheet.now setup.now journal.now out.old).buffer }
{
    report(sheet, setup, journal, out) * 65536
}

// What an outage of so many blocks can cost after a journal: refusal × 65,536.
#[unsafe(no_mangle)]
pub extern "C" fn swap_outage(
    sheet: &[u8],
    setup: &[u8],
    journal: &[u8],
    blocks: u32,
    out: &mut [u8],
) -> u32
    ensures value { result ≡ packed (outage_answer sheet.now setup.now journal.now blocks out.old).refusal 0 }
    ensures out_after { out.new ≡ (outage_answer sheet.now setup.now journal.now blocks out.old).buffer }
{
    outage(sheet, setup, journal, blocks, out) * 65536
}

// For how many blocks each party can take no step after a journal: refusal × 65,536.
#[unsafe(no_mangle)]
pub extern "C" fn swap_slack(sheet: &[u8], setup: &[u8], journal: &[u8], out: &mut [u8]) -> u32
    ensures value { result ≡ packed (slack_answer sheet.now setup.now journal.now out.old).refusal 0 }
    ensures out_after { out.new ≡ (slack_answer sheet.now setup.now journal.now out.old).buffer }
{
    slack(sheet, setup, journal, out) * 65536
}

// The page of the position after a journal: refusal × 65,536.
#[unsafe(no_mangle)]
pub extern "C" fn swap_page(sheet: &[u8], setup: &[u8], journal: &[u8], out: &mut [u8]) -> u32
    ensures value { result ≡ packed (page_answer sheet.now setup.now journal.now out.old).refusal 0 }
    ensures out_after { out.new ≡ (page_answer sheet.now setup.now journal.now out.old).buffer }
{
    page(sheet, setup, journal, out) * 65536
}

// nLockTime and nSequence of every transaction, over a base height: refusal × 65,536.
#[unsafe(no_mangle)]
pub extern "C" fn swap_timelocks(sheet: &[u8], setup: &[u8], base: u32, out: &mut [u8]) -> u32
    ensures value { result ≡ packed (timelocks_answer sheet.now setup.now base out.old).refusal 0 }
    ensures out_after { out.new ≡ (timelocks_answer sheet.now setup.now base out.old).buffer }
{
    timelocks(sheet, setup, base, out) * 65536
}

// Runs every swap of a bundle: refusal × 65,536.
#[unsafe(no_mangle)]
pub extern "C" fn swap_desk(sheet: &[u8], bundle: &[u8], out: &mut [u8]) -> u32
    ensures value { result ≡ packed (desk_answer sheet.now bundle.now out.old).refusal 0 }
    ensures out_after { out.new ≡ (desk_answer sheet.now bundle.now out.old).buffer }
{
    desk(sheet, bundle, out) * 65536
}

// Checks another firm's block list: refusal × 65,536.
#[unsafe(no_mangle)]
pub extern "C" fn swap_blocks(sheet: &[u8], setup: &[u8], list: &[u8]) -> u32
    ensures { result ≡ packed (blocks_refusal sheet.now setup.now list.now) 0 }
{
    number_of(blocks(sheet, setup, list)) * 65536
}

// Writes the earliest block list of an ending: refusal × 65,536 + the entries written.
#[unsafe(no_mangle)]
pub extern "C" fn swap_earliest(
    sheet: &[u8],
    setup: &[u8],
    mask: u32,
    dests: &[u8],
    out: &mut [u8],
) -> u32
    ensures value { result ≡ packed (earliest_answer sheet.now setup.now mask dests.now out.old).refusal
        (earliest_answer sheet.now setup.now mask dests.now out.old).count }
    ensures out_after { out.new ≡ (earliest_answer sheet.now setup.now mask dests.now out.old).buffer }
{
    let planned = earliest(sheet, setup, mask, dests, out);
    planned.refusal * 65536 + planned.count
}

// Asks whether a step would pass after a journal: refusal × 65,536 + the steps in the journal.
#[unsafe(no_mangle)]
pub extern "C" fn swap_ask(sheet: &[u8], setup: &[u8], journal: &[u8], step: &[u8]) -> u32
    ensures { result ≡ packed (ask_answer sheet.now setup.now journal.now step.now).refusal
        (ask_answer sheet.now setup.now journal.now step.now).count }
{
    let asked = ask(sheet, setup, journal, step);
    asked.refusal * 65536 + asked.count
}

// Commits a step to the journal that a buffer starts with: refusal × 65,536.
#[unsafe(no_mangle)]
pub extern "C" fn swap_commit(
    sheet: &[u8],
    setup: &[u8],
    step: &[u8],
    count: u32,
    buffer: &mut [u8],
    size: u32,
) -> u32
    ensures value { result ≡ packed (commit_answer sheet.now setup.now step.now count buffer.old size).refusal 0 }
    ensures buffer_after { buffer.new ≡ (commit_answer sheet.now setup.now step.now count buffer.old size).buffer }
{
    commit(sheet, setup, step, count, buffer, size) * 65536
}

// Writes the few steps of a refused journal that matter: refusal × 65,536 + the steps written.
#[unsafe(no_mangle)]
pub extern "C" fn swap_shrink(sheet: &[u8], setup: &[u8], journal: &[u8], out: &mut [u8]) -> u32
    ensures value { result ≡ packed (shrink_answer sheet.now setup.now journal.now out.old).refusal
        (shrink_answer sheet.now setup.now journal.now out.old).count }
    ensures out_after { out.new ≡ (shrink_answer sheet.now setup.now journal.now out.old).buffer }
{
    let shrunk = shrink(sheet, setup, journal, out);
    shrunk.refusal * 65536 + shrunk.count
}
