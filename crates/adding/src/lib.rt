// Whole summaries added up, piece by piece: the machine that `summary --add` runs.
#![tactic(auto)]

ghost use Rattle.std.specs.Prelude.{◌≡◌, ◌+◌, ◌≤◌, ◌<◌, eqb, cond, length, Some, None, is_none, IfSome, IfNone};
ghost use Rattle.text.specs.Digits.{Put};
ghost use Rattle.tokens.specs.Tokens.{same};
ghost use Rattle.adding.specs.Adding.{whole_text};
ghost use Rattle.adding.specs.Machine.{ends_number, value_of, more_value, read, figures_in, same_lines, wrong_line, later, adds_up, bad_row, nothing_held};
ghost use Rattle.adding.specs.Machine.{judged, ends, counted, byte_on, fed_on, text_begun, text_ended, state_of, state_in, begun_state, closing, refusal_text};

// How far a text was read: between numbers, in a number that is so much as yet, or behind a slash.
#[derive(Clone, Copy)]
enum Reading {
    Between,
    Inside(u64),
    Behind,
}

// Why a text was refused: by a line, or by a sum past 64 bits.
#[derive(Clone, Copy)]
pub enum Fault {
    Line,
    Sum,
}

// Where the machine stands in a text: how many bytes and lines of a summary are held, the number of the line that the summary
// begins with, whether the text held one before, and why it was refused, if it was.
#[derive(Clone, Copy)]
pub struct Standing {
    pub size: usize,
    pub lines: usize,
    pub line: u64,
    pub some: bool,
    pub fault: Option<Fault>,
}

// The sums so far, the bytes of a summary that has begun, the first `size` of them, and where the machine stands.
// Stays: the project has no heap, so the held bytes lie in a buffer with their number beside it.
#[derive(Clone, Copy)]
pub struct Adding {
    pub total: [u64; 83],
    pub held: [u8; 4096],
    pub at: Standing,
}

// The number that ends before a byte, if one does.
fn ended(r: Reading, b: u8) -> Option<u64>
    ensures { result ≡ cond (ends_number r b) (Some (value_of r)) None }
{
    match r {
        Reading::Inside(value) => if b.is_ascii_digit() | (b == b'/') {
            None
        } else {
            Some(value)
        },
        Reading::Between | Reading::Behind => None,
    }
}

// One digit more; 0 where that takes more than 64 bits.
fn more_value(v: u64, b: u8) -> u64
    requires { (48 ≤ b) × (b ≤ 57) }
    ensures { result ≡ more_value v b }
{
    let digit = u64::from(b - b'0');
    v.checked_mul(10)
        .and_then(|tens| tens.checked_add(digit))
        .unwrap_or(0)
}

// One byte more. The numbers of a ratio, which are told before it, are passed over.
fn read_byte(r: Reading, b: u8) -> Reading
    ensures { result ≡ read r b }
{
    if b == b'/' {
        return Reading::Behind;
    }
    if !b.is_ascii_digit() {
        return Reading::Between;
    }
    match r {
        Reading::Behind => r,
        Reading::Between => Reading::Inside(more_value(0, b)),
        Reading::Inside(value) => Reading::Inside(more_value(value, b)),
    }
}

// The first 83 numbers of a text.
fn read_figures(text: &[u8]) -> [u64; 83]
    ensures { result ≡ figures_in text.now }
{
    let mut figures: [u64; 83] = [0; 83];
    let mut n: usize = 0;
    let mut r = Reading::Between;
    for b in text {
        if let Some(value) = ended(r, *b) {
            if n < 83 {
                figures[n] = value;
                n += 1;
            }
        }
        r = read_byte(r, *b);
    }
    figures
}

// The text of a whole summary at the front of the buffer; how many bytes it takes.
fn put_whole(out: &mut [u8; 8192], figures: &[u64; 83]) -> usize
    ensures put { Put out.old 0 (whole_text figures.now) out.new result }
    ensures upper_bound { (result ≤ 3004) × (length out.new ≡ length out.old) }
{
    let end = sheets::put_sheet(out, figures);
    text::put_bytes(out, end, b"end\n")
}

fn is_whole(text: &[u8], figures: &[u64; 83]) -> bool
    ensures { result ≡ same text.now (whole_text figures.now) }
{
    let mut out = [0u8; 8192];
    let n = put_whole(&mut out, figures);
    tokens::is_name(text, &out[..n])
}

// How many lines two texts share from their begin.
fn same_lines(a: &[u8], b: &[u8]) -> usize
    ensures { result ≡ same_lines a.now b.now }
{
    let mut n: usize = 0;
    for (x, y) in a.iter().zip(b) {
        if x != y {
            return n;
        }
        if *x == b'\n' {
            n += 1;
        }
    }
    n
}

fn later_line(line: u64, n: usize) -> u64
    ensures { result ≡ later line n }
{
    line.saturating_add(n as u64)
}

// The first line of a text that is not as a summary of its numbers has it.
fn wrong_line(line: u64, text: &[u8]) -> u64
    ensures { result ≡ wrong_line line text.now }
{
    let figures = read_figures(text);
    let mut out = [0u8; 8192];
    let n = put_whole(&mut out, &figures);
    later_line(line, same_lines(text, &out[..n]))
}

fn is_sum(whole: u64, a: u64, b: u64, c: u64) -> bool
    ensures { result ≡ eqb whole (a + b + c) }
{
    u128::from(whole) == u128::from(a) + u128::from(b) + u128::from(c)
}

fn adds_up(figures: &[u64; 83], row: usize) -> bool
    requires { row < 16 }
    ensures { result ≡ adds_up figures.now row }
{
    let at = row * 5;
    is_sum(
        figures[at],
        figures[at + 1],
        figures[at + 2],
        figures[at + 3],
    )
}

// The first row whose tasks submitted are not those taken, rejected and refused, if there is one.
fn bad_row(figures: &[u64; 83]) -> Option<usize>
    ensures some { IfSome result (λ row. (row < 16) × (row ≡ bad_row figures.now 0 16)) }
    ensures none { IfNone result (bad_row figures.now 0 16 ≡ 16) }
{
    for row in 0..16 {
        if !adds_up(figures, row) {
            return Some(row);
        }
    }
    None
}

// Nothing is held: a summary begins with this line, or the text was refused in it.
fn nothing_held(line: u64, some: bool, fault: Option<Fault>) -> Standing
    ensures { result ≡ nothing_held line some fault }
{
    Standing {
        size: 0,
        lines: 0,
        line,
        some,
        fault,
    }
}

// THE BYTES THAT SHOULD BE A SUMMARY are read as one and put again: only what is the same, and adds up, is added.
fn judge(line: u64, some: bool, total: &mut [u64; 83], text: &[u8]) -> Standing
    ensures value { result ≡ (judged total.old line some text.now).at }
    ensures total_after { total.new ≡ (judged total.old line some text.now).total }
{
    let figures = read_figures(text);
    if !is_whole(text, &figures) {
        return nothing_held(wrong_line(line, text), some, Some(Fault::Line));
    }
    if let Some(row) = bad_row(&figures) {
        return nothing_held(later_line(line, row + 1), some, Some(Fault::Line));
    }
    let sums = sheets::add(total, &figures);
    if !sums.fit {
        return nothing_held(line, some, Some(Fault::Sum));
    }
    let next = sums.figures;
    *total = next;
    nothing_held(later_line(line, 19), true, None)
}

fn is_end(lines: usize, size: usize, b: u8) -> bool
    ensures { result ≡ ends lines size b }
{
    ((b == b'\n') & (18 <= lines)) | (4095 <= size)
}

fn count(lines: usize, b: u8) -> usize
    ensures { result ≡ counted lines b }
{
    if (b == b'\n') & (lines <= 17) {
        return lines + 1;
    }
    lines
}

// One byte more.
fn take_byte(at: Standing, total: &mut [u64; 83], held: &mut [u8; 4096], b: u8) -> Standing
    requires { length held.old ≡ 4096 }
    ensures result_after { state_of total.new held.new result ≡ byte_on (state_of total.old held.old at) b }
    ensures held_len { length held.new ≡ 4096 }
{
    if at.fault.is_some() {
        return at;
    }
    let size = at.size;
    if 4096 <= size {
        return nothing_held(at.line, at.some, Some(Fault::Line));
    }
    held[size] = b;
    if is_end(at.lines, size, b) {
        return judge(at.line, at.some, total, &held[..size + 1]);
    }
    Standing {
        size: size + 1,
        lines: count(at.lines, b),
        ..at
    }
}

// Nothing is added yet.
pub fn begin() -> Adding
    ensures { state_in result ≡ begun_state }
{
    Adding {
        total: [0; 83],
        held: [0; 4096],
        at: nothing_held(1, false, None),
    }
}

// Another text begins.
pub fn begin_text(a: Adding) -> Adding
    ensures { state_in result ≡ text_begun (state_in a) }
{
    if a.at.fault.is_some() {
        return a;
    }
    Adding {
        at: nothing_held(1, false, None),
        ..a
    }
}

// A PIECE OF A TEXT, all of it.
pub fn feed(a: Adding, piece: &[u8]) -> Adding
    ensures { state_in result ≡ fed_on (state_in a) piece.now }
{
    let Adding {
        mut total,
        mut held,
        mut at,
    } = a;
    for b in piece {
        at = take_byte(at, &mut total, &mut held, *b);
    }
    Adding { total, held, at }
}

// THE END OF A TEXT: it is refused where it ends inside a summary or held none.
pub fn end_text(a: Adding) -> Adding
    ensures { state_in result ≡ text_ended (state_in a) }
{
    let at = a.at;
    if at.fault.is_some() {
        return a;
    }
    if (at.size == 0) & at.some {
        return a;
    }
    let line = wrong_line(at.line, &a.held[..at.size.min(4096)]);
    Adding {
        at: nothing_held(line, at.some, Some(Fault::Line)),
        ..a
    }
}

// Nothing was refused.
pub fn goes_on(a: Adding) -> bool
    ensures { result ≡ is_none a.at.fault }
{
    a.at.fault.is_none()
}

// The sum as a summary, at the front of the buffer; how many bytes it takes: 0 where something was refused.
pub fn close(a: Adding, out: &mut [u8; 8192]) -> usize
    ensures put { Put out.old 0 (closing (state_in a)) out.new result }
    ensures upper_bound { (result ≤ 3004) × (length out.new ≡ length out.old) }
{
    if a.at.fault.is_some() {
        return 0;
    }
    put_whole(out, &a.total)
}

// Why it was refused, at the front of the buffer; how many bytes that takes. The caller puts its own name and that of the text before.
pub fn put_refusal(a: Adding, out: &mut [u8; 128]) -> usize
    ensures put { Put out.old 0 (refusal_text a.at) out.new result }
    ensures upper_bound { (result ≤ 128) × (length out.new ≡ length out.old) }
{
    let at = a.at;
    if matches!(at.fault, Some(Fault::Sum)) {
        let line_at = text::put_bytes(out, 0, b"the summary at line ");
        let after = text::put_number::<20>(out, line_at, at.line);
        return text::put_bytes(out, after, b" makes a sum of more than 64 bits\n");
    }
    let line_at = text::put_bytes(out, 0, b"line ");
    let after = text::put_number::<20>(out, line_at, at.line);
    text::put_bytes(
        out,
        after,
        b" is not what a summary that ends in 'stop end' has there\n",
    )
}
