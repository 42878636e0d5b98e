// Reads sheet.bin, setup.bin and journal.bin in its folder, and prints the report of the position that the journal leads to; with an
// argument, its page for the wall.

#![tactic(auto)]

ghost use Rattle.std.specs.Prelude.{◌*◌, ◌≤◌, length};
ghost use Rattle.readings.specs.Reported.{row_width};

use printed::{First, Line};
use readings::reported::REPORT_SIZE;
use std::env::{Env, FillError};
use std::io;
use std::io::{Eprint, Print, Write};

mod files;

fn print_first(rt: &impl Print, line: First) -> io::Result<()> {
    println!(rt; "{} {} {}", line.accepted, line.refusal, line.blocks)
}

fn print_line(rt: &impl Print, t: usize, line: Line) -> io::Result<()> {
    println!(rt;
        "{t} {} {} {} {} {}",
        line.status, line.payee, line.block, line.lock, line.deadline
    )
}

// The lines of the first n transactions.
fn print_lines(rt: &impl Print, report: &[u8], n: usize) -> io::Result<()>
    requires { row_width * n ≤ length report.now }
{
    for t in 0..n {
        print_line(rt, t, printed::transaction_line(report, t))?;
    }
    Ok(())
}

// The first line, and without a refusal a line for each transaction.
fn print_report(rt: &impl Print, sheet: &[u8], setup: &[u8], journal: &[u8]) -> io::Result<()> {
    let first = printed::first_line(sheet, setup, journal);
    let n = first.lines;
    print_first(rt, first)?;
    let mut report = [0u8; REPORT_SIZE];
    call_report::report(sheet, setup, journal, &mut report);
    print_lines(rt, &report, n)
}

// The first bytes of a text.
fn print_front(rt: &impl Print, text: &[u8], end: usize) -> io::Result<()>
    requires { end ≤ length text.now }
{
    io::writer(rt).write_all(&text[..end])
}

// The page; on a refusal nothing but the number on standard error.
fn print_page<R: Print + Eprint>(
    rt: &R,
    sheet: &[u8],
    setup: &[u8],
    journal: &[u8],
) -> io::Result<()> {
    let first = printed::first_line(sheet, setup, journal);
    let mut page = [0u8; 2409];
    let number = call_page::page(sheet, setup, journal, &mut page);
    if number != 0 {
        return eprintln!(rt; "no page: refused with {number}");
    }
    print_front(rt, &page, 73 * (first.lines + 1))
}

// Whether the program was given an argument, whatever it is.
fn has_argument(rt: &impl Env) -> bool {
    let mut text = [0u8; 1];
    !matches!(rt.arg(1, &mut text), Err(FillError::NotPresent))
}

// Each file is read up to one byte more than the largest valid length, so that one that is too long is refused as such.
fn main(rt: HostRuntime) -> io::Result<()> {
    let mut sheet = [0u8; 199];
    let sheet_file = files::read_file(&rt, "sheet.bin", &mut sheet);
    if !sheet_file.readable {
        return Ok(());
    }
    let mut setup = [0u8; 5];
    let setup_file = files::read_file(&rt, "setup.bin", &mut setup);
    if !setup_file.readable {
        return Ok(());
    }
    let mut journal = [0u8; 65537];
    let journal_file = files::read_file(&rt, "journal.bin", &mut journal);
    if !journal_file.readable {
        return Ok(());
    }
    let s = sheet_file.length;
    let u = setup_file.length;
    let j = journal_file.length;
    if has_argument(&rt) {
        return print_page(&rt, &sheet[..s], &setup[..u], &journal[..j]);
    }
    print_report(&rt, &sheet[..s], &setup[..u], &journal[..j])
}
