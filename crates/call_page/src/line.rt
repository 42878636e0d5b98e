// The lines of a page, written column by column.
ghost use Rattle.std.specs.Prelude.{suc, ◌+◌, ◌-◌, ◌*◌, ◌≤◌, ◌<◌, ◌≡◌, [], ◌++◌, length, get_or};
ghost use Rattle.laws.specs.Over.{over};
ghost use Rattle.readings.specs.Reported.{row_width, reported_line};
ghost use Rattle.call_page.specs.Line.{blanks, digit, digits, column, widths, line};
ghost use Rattle.call_page.specs.Page.{payee_text, height_text, header, texts, line_texts, page_of};
ghost use Rattle.call_page.specs.Forms.Cell.{values, cell};

use printed::Line;

const BLANK: u8 = 32;

// A report's number for never (`never` of sheet/specs/LockHeight.antt), which a page shows as a word.
const NEVER: u32 = 2147483647;

const WIDTHS: [usize; 6] = [3, 4, 9, 8, 16, 16];

// The byte at place i of a text with so many blanks before it.
fn aligned(text: &[u8], before: usize, i: usize) -> u8
    requires { i < before + length text.now }
    ensures { result ≡ get_or (blanks before ++ text.now) i 0 }
{
    if i < before {
        return BLANK;
    }
    text[i - before]
}

// A text in its column, at the front of the buffer; the answer is the column's length. Straight into the caller's buffer: nothing is allocated.
fn write_text(width: usize, text: &[u8], out: &mut [u8]) -> usize
    requires { length (column width text.now) ≤ length out.old }
    ensures value { result ≡ length (column width text.now) }
    ensures out_after { out.new ≡ over (column width text.now) out.old }
{
    let before = width.saturating_sub(text.len());
    let end = before + text.len();
    for i in 0..end {
        out[i] = aligned(text, before, i);
    }
    end
}

// The character of a number below ten, for `write_number`.
fn digit(d: u32) -> u8
    requires { d < 10 }
    ensures { result ≡ digit d }
{
    (48 + d) as u8
}

// A number in its column, in decimal digits. They are made from the last one on, at the end of ten places: by hand, since a page goes straight
// into the caller's buffer and nothing is allocated.
fn write_number(width: usize, x: u32, out: &mut [u8]) -> usize
    requires { length (column width (digits x)) ≤ length out.old }
    ensures value { result ≡ length (column width (digits x)) }
    ensures out_after { out.new ≡ over (column width (digits x)) out.old }
{
    let mut made = [0u8; 10];
    let mut at: usize = 10;
    let mut rest = x;
    // no count: each turn divides what is left of the number
    while 9 < rest {
        at -= 1;
        made[at] = digit(rest % 10);
        rest = rest / 10;
    }
    at -= 1;
    made[at] = digit(rest);
    write_text(width, &made[at..], out)
}

// A height in its column.
fn write_height(width: usize, height: u32, out: &mut [u8]) -> usize
    requires { length (column width (height_text height)) ≤ length out.old }
    ensures value { result ≡ length (column width (height_text height)) }
    ensures out_after { out.new ≡ over (column width (height_text height)) out.old }
{
    if height == NEVER {
        return write_text(width, b"never", out);
    }
    write_number(width, height, out)
}

// A payee in its column.
fn write_payee(width: usize, payee: u8, out: &mut [u8]) -> usize
    requires { length (column width (payee_text payee)) ≤ length out.old }
    ensures value { result ≡ length (column width (payee_text payee)) }
    ensures out_after { out.new ≡ over (column width (payee_text payee)) out.old }
{
    match payee {
        0 => write_text(width, b"Alice", out),
        1 => write_text(width, b"Bob", out),
        2 => write_text(width, b"contract", out),
        3 => write_text(width, b"Carol", out),
        _ => write_text(width, b"-", out),
    }
}

// The width of column k.
fn width(k: usize) -> usize
    requires { k < 6 }
    ensures { result ≡ get_or widths k 0 }
{
    WIDTHS[k]
}

// The header's text of column k.
fn write_title(k: usize, out: &mut [u8]) -> usize
    requires k_bound { k < 6 }
    requires k_in_bounds { length (column (get_or widths k 0) (get_or header k [])) ≤ length out.old }
    ensures value { result ≡ length (column (get_or widths k 0) (get_or header k [])) }
    ensures out_after { out.new ≡ over (column (get_or widths k 0) (get_or header k [])) out.old }
{
    let w = width(k);
    match k {
        0 => write_text(w, b"no", out),
        1 => write_text(w, b"st", out),
        2 => write_text(w, b"payee", out),
        3 => write_text(w, b"block", out),
        4 => write_text(w, b"lock height", out),
        _ => write_text(w, b"deadline", out),
    }
}

// A transaction's text of column k, from its number and the values of its row.
fn write_value(k: usize, t: u32, row: Line, out: &mut [u8]) -> usize
    requires k_bound { k < 6 }
    requires k_in_bounds { length (column (get_or widths k 0) (get_or (texts (values t row)) k [])) ≤ length out.old }
    ensures value { result ≡ length (column (get_or widths k 0) (get_or (texts (values t row)) k [])) }
    ensures out_after { out.new ≡ over (column (get_or widths k 0) (get_or (texts (values t row)) k [])) out.old }
{
    let w = width(k);
    match k {
        0 => write_number(w, t, out),
        1 => write_number(w, u32::from(row.status), out),
        2 => write_payee(w, row.payee, out),
        3 => write_number(w, row.block, out),
        4 => write_height(w, row.lock, out),
        _ => write_height(w, row.deadline, out),
    }
}

// Column k of line i: the header's, or that of transaction i - 1.
fn write_cell(report: &[u8], i: usize, k: usize, out: &mut [u8]) -> usize
    requires i_bound { i ≤ 32 }
    requires k_bound { k < 6 }
    requires i_in_bounds { row_width * i ≤ length report.now }
    requires k_in_bounds { length (cell (reported_line report.now) i k) ≤ length out.old }
    ensures value { result ≡ length (cell (reported_line report.now) i k) }
    ensures out_after { out.new ≡ over (cell (reported_line report.now) i k) out.old }
{
    if i == 0 {
        return write_title(k, out);
    }
    let t = i - 1;
    write_value(k, t as u32, printed::transaction_line(report, t), out)
}

// Line i, at the front of the buffer.
fn write_line(report: &[u8], i: usize, out: &mut [u8])
    requires i_bound { i ≤ 32 }
    requires i_in_bounds { row_width * i ≤ length report.now }
    requires in_bounds { 73 ≤ length out.old }
    ensures { out.new ≡ over (line (line_texts (reported_line report.now) i)) out.old }
{
    let mut at: usize = 0;
    for k in 0..6 {
        let wrote = write_cell(report, i, k, &mut out[at..]);
        at += wrote;
    }
    write_text(73 - at, b"\n", &mut out[at..]);
}

// The header and the lines of n transactions, at the front of the buffer.
pub fn write_page(report: &[u8], n: usize, out: &mut [u8])
    requires n_bound { n ≤ 32 }
    requires n_in_bounds { row_width * n ≤ length report.now }
    requires n_in_bounds_2 { 73 * suc n ≤ length out.old }
    ensures { out.new ≡ over (page_of n (reported_line report.now)) out.old }
{
    let mut at: usize = 0;
    for i in 0..n + 1 {
        write_line(report, i, &mut out[at..]);
        at += 73;
    }
}
