// A sheet of figures: what `summary` prints of them, and figures of two sheets added.
#![tactic(auto)]

ghost use Rattle.std.specs.Prelude.{◌≡◌, ◌+◌, ◌*◌, ◌<◌, ◌≤◌, [], ◌∷◌, ◌++◌, length, take, drop, nat_lt, slice_index_or};
ghost use Rattle.lists.specs.Lists.{each, range};
ghost use Rattle.text.specs.Text.{decimal};
ghost use Rattle.text.specs.Digits.{spaced, Put};
ghost use Rattle.sheets.specs.Sheets.{planner_names, class_names, plus, wrapped, fits?, row_in, foot_text, sheet_text};

const ROWS: usize = 16;

// The sums of two sheets, in 64 bits each, and whether none of them wraps.
// Stays: an Option of the figures would lose those that wrap, which `summing` takes and the clause of `add` names.
#[derive(Clone, Copy)]
pub struct Sums {
    pub figures: [u64; 83],
    pub fit: bool,
}

// The name of a planner and the space behind it.
// Stays: bytes and no Display, here and below: std's `write!` into a lent `&mut [u8]` may fail, and no clause tells its bytes.
#[tactic(auto, unfolding(crate::specs::Sheets::planner_names))]
fn planner_word(n: usize) -> &'static [u8]
    requires { n < 4 }
    ensures word { result.now ≡ slice_index_or planner_names n [] ++ (32 ∷ []) }
    ensures upper_bound { length result.now ≤ 10 }
{
    match n {
        0 => b"reference ",
        1 => b"horizon ",
        2 => b"stuffing ",
        _ => b"full ",
    }
}

// The name of a laxity class and the space behind it.
#[tactic(auto, unfolding(crate::specs::Sheets::class_names))]
fn class_word(n: usize) -> &'static [u8]
    requires { n < 4 }
    ensures word { result.now ≡ slice_index_or class_names n [] ++ (32 ∷ []) }
    ensures upper_bound { length result.now ≤ 6 }
{
    match n {
        0 => b"A ",
        1 => b"B ",
        2 => b"C ",
        _ => b"Other ",
    }
}

// Figures, each with a space behind it.
fn put_figures(out: &mut [u8], at: usize, figures: &[u64]) -> usize
    requires { at + length figures.now * 21 ≤ length out.old }
    ensures put { Put out.old at (spaced figures.now) out.new result }
    ensures upper_bound { result ≤ at + length figures.now * 21 }
{
    let mut place = at;
    for figure in figures {
        place = text::put_ended::<20>(out, place, *figure, b' ');
    }
    place
}

// A row of the sheet, with taken and submitted once more as a ratio; the place after its line.
fn put_row(out: &mut [u8], at: usize, figures: &[u64; 83], row: usize) -> usize
    requires { (row < 16) × (at + 170 ≤ length out.old) }
    ensures put { Put out.old at (row_in figures.now row) out.new result }
    ensures upper_bound { result ≤ at + 170 }
{
    let from = row * 5;
    let five = &figures[from..from + 5];
    let submitted = five[0];
    let taken = five[1];
    let class_at = text::put_bytes(out, at, planner_word(row / 4));
    let figures_at = text::put_bytes(out, class_at, class_word(row % 4));
    let ratio_at = put_figures(out, figures_at, five);
    let over_at = text::put_ended::<20>(out, ratio_at, taken, b'/');
    text::put_ended::<20>(out, over_at, submitted, b'\n')
}

// All rows, one behind the other.
fn put_rows(out: &mut [u8], at: usize, figures: &[u64; 83]) -> usize
    requires { at + 2720 ≤ length out.old }
    ensures put { Put out.old at (each (range 0 16) (row_in figures.now)) out.new result }
    ensures upper_bound { result ≤ at + 2720 }
{
    let mut place = at;
    for row in 0..ROWS {
        place = put_row(out, place, figures, row);
    }
    place
}

// A text and a figure behind it; the place after both.
fn put_named(out: &mut [u8], at: usize, name: &[u8], figure: u64) -> usize
    requires { at + length name.now + 20 ≤ length out.old }
    ensures put { Put out.old at (name.now ++ decimal figure) out.new result }
    ensures upper_bound { result ≤ at + length name.now + 20 }
{
    let figure_at = text::put_bytes(out, at, name);
    text::put_number::<20>(out, figure_at, figure)
}

// What stands below the rows.
fn put_foot(out: &mut [u8], at: usize, figures: &[u64; 83]) -> usize
    requires { at + 103 ≤ length out.old }
    ensures put { Put out.old at (foot_text figures.now) out.new result }
    ensures upper_bound { result ≤ at + 103 }
{
    let classless_end = put_named(out, at, b"refused without class ", figures[80]);
    let events_end = put_named(out, classless_end, b"\nevents ", figures[81]);
    let files_end = put_named(out, events_end, b" files ", figures[82]);
    text::put_bytes(out, files_end, b" stop ")
}

// The sheet at the front of the buffer; how many bytes it takes.
pub fn put_sheet(out: &mut [u8; 8192], figures: &[u64; 83]) -> usize
    ensures put { Put out.old 0 (sheet_text figures.now) out.new result }
    ensures upper_bound { result ≤ 3000 }
{
    let rows_at = text::put_bytes(
        out,
        0,
        b"planner class submitted taken rejected refused waited taken/submitted\n",
    );
    let foot_at = put_rows(out, rows_at, figures);
    put_foot(out, foot_at, figures)
}

// The sum of two figures does not wrap.
fn fits(x: u64, y: u64) -> bool
    ensures { result ≡ nat_lt (x + y) 18446744073709551616 }
{
    x <= u64::MAX - y
}

// The figures of two sheets, added one by one.
pub fn add(a: &[u64; 83], b: &[u64; 83]) -> Sums
    ensures { result ≡ record { figures = wrapped (plus a.now b.now); fit = fits? (plus a.now b.now) } }
{
    let mut figures: [u64; 83] = [0; 83];
    let mut fit = true;
    for i in 0..83 {
        let x = a[i];
        let y = b[i];
        figures[i] = x.wrapping_add(y);
        fit = fit & fits(x, y);
    }
    Sums { figures, fit }
}
