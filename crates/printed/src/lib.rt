// The numbers that the program swapreport prints.

#![tactic(auto)]

ghost use Rattle.std.specs.Prelude.{suc, ◌+◌, ◌*◌, ◌≤◌, ◌≡◌, [], ◌∷◌, length, get_or};
ghost use Rattle.readings.specs.Reported.{row_width, reported_line};
ghost use Rattle.position.specs.Printed.{printed};

use call_run::journal;
use readings::reported::ROW_WIDTH;
use sheet::little::u32_at;

// The first line: the steps accepted, the refusal, and the blocks mined, empty ones too, 0 on a refusal. Beside them the number of lines
// that follow.
#[derive(Clone, Copy)]
pub struct First {
    pub accepted: u32,
    // a number, as in position's run of specs/Play.antt
    pub refusal: u32,
    pub blocks: u32,
    pub lines: usize,
}

// The line of a transaction, after its number.
#[derive(Clone, Copy)]
pub struct Line {
    pub status: u8,
    pub payee: u8,
    pub block: u32,
    pub lock: u32,
    pub deadline: u32,
}

// The first line for a sheet, a setup and a journal.
pub fn first_line(sheet: &[u8], setup: &[u8], journal: &[u8]) -> First
    ensures blocks_value { (result.accepted ∷ result.refusal ∷ result.blocks ∷ []) ≡ get_or (printed sheet.now setup.now journal.now) 0 [] }
    ensures lines_value { suc result.lines ≡ length (printed sheet.now setup.now journal.now) }
    ensures lines_bound { result.lines ≤ 32 }
{
    let ran = journal::ran(sheet, setup, journal);
    if ran.refusal != 0 {
        return First {
            accepted: ran.accepted,
            refusal: ran.refusal,
            blocks: 0,
            lines: 0,
        };
    }
    let position = ran.position;
    First {
        accepted: ran.accepted,
        refusal: ran.refusal,
        blocks: u32::from(position.mined),
        lines: sheet::field::count(sheet),
    }
}

// The line of transaction t, read from a report.
pub fn transaction_line(report: &[u8], t: usize) -> Line
    requires { row_width * t + row_width ≤ length report.now }
    ensures { (t ∷ result.status ∷ result.payee ∷ result.block ∷ result.lock ∷ result.deadline ∷ []) ≡ reported_line report.now t }
{
    let at = ROW_WIDTH * t;
    Line {
        status: report[at],
        payee: report[at + 1],
        block: u32_at(report, at + 2),
        lock: u32_at(report, at + 6),
        deadline: u32_at(report, at + 10),
    }
}
