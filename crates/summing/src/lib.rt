// The summary that `summary` writes: a machine that is fed recordings piece by piece, one file after the other.
#![tactic(auto)]

ghost use Rattle.std.specs.Prelude.{◌≡◌, [], suc, ◌-◌, ◌*◌, ◌≤◌, length, get_or};
ghost use Rattle.lists.specs.Lists.{over_front};
ghost use Rattle.batches.specs.Batches.{name_of};
ghost use Rattle.text.specs.Digits.{Put};
ghost use Rattle.stops.specs.Stops.{progress_text};
ghost use Rattle.reader.specs.Reader.{source_of, open?, fed_buffer};
ghost use Rattle.figures.specs.Figures.{sheet_of};
ghost use Rattle.figures.specs.Rows.{trials_in};
ghost use Rattle.summing.specs.Summary.{whole?};
ghost use Rattle.summing.specs.Summing.{first_summing, reader_at, next_file, summed, file_end, sum_text, sum_said, closed};

use batches::Name;
use reader::{Closed, Reader};
use session::Ending;

// Where the summary stands: the reader of the file at hand, the figures so far, and how many events the files before it had.
#[derive(Clone, Copy)]
pub struct Summing {
    pub reader: Reader,
    pub figures: [u64; 83],
    pub before: u32,
}

// How much of a piece was taken.
#[derive(Clone, Copy)]
pub struct Summed {
    pub summing: Summing,
    pub taken: usize,
}

pub fn begin() -> Summing
    ensures { result ≡ first_summing }
{
    let reader = reader::begin();
    Summing {
        reader,
        figures: figures::no_figures(),
        before: 0,
    }
}

// The first reader, so many events into the summary.
fn reader_at(number: u32) -> Reader
    ensures { result ≡ reader_at number }
{
    Reader {
        number,
        ..reader::begin()
    }
}

// One file and no event.
fn one_file() -> [u64; 83]
    ensures { result ≡ sheet_of 1 [] }
{
    let mut figures = figures::no_figures();
    figures[82] = 1;
    figures
}

// Another file: a recording of its own, from the board of zeros on.
pub fn begin_file(s: Summing) -> Summing
    ensures { result ≡ next_file s }
{
    let last = s.reader;
    let sums = sheets::add(&s.figures, &one_file());
    let figures = sums.figures;
    let reader = reader_at(last.number);
    Summing {
        reader,
        figures,
        before: last.number,
    }
}

// The figures of lines that stand as numbers.
fn count_lines(numbers: &[u32], count: usize, r: Reader, piece: &[u8]) -> [u64; 83]
    requires { (count ≤ 1000000000) × (count * 6 ≤ length numbers.now) }
    ensures { result ≡ sheet_of 0 (trials_in count r.state.board.now numbers.now (source_of r piece.now)) }
{
    let now = r.state.board.now;
    if r.size == 0 {
        return figures::count_rows(now, numbers, count, piece);
    }
    let joined = reader::window(r, piece);
    figures::count_rows(now, numbers, count, &joined.bytes[..joined.size])
}

// A PIECE of the file at hand; the lent numbers are room for its lines, six a line.
pub fn feed(s: Summing, piece: &[u8], numbers: &mut [u32]) -> Summed
    ensures value { result ≡ summed s piece.now (length numbers.old) }
    ensures numbers_after { numbers.new ≡ fed_buffer s.reader piece.now numbers.old }
    ensures taken_in_bounds { result.taken ≤ length piece.now }
{
    let fed = reader::feed(s.reader, piece, numbers);
    let more = count_lines(numbers, fed.count, s.reader, piece);
    let sums = sheets::add(&s.figures, &more);
    let figures = sums.figures;
    let reader = fed.reader;
    Summed {
        summing: Summing {
            reader,
            figures,
            ..s
        },
        taken: fed.taken,
    }
}

// How far it is, at the front of the buffer; how many bytes it takes.
pub fn put_progress(s: Summing, out: &mut [u8; 128]) -> usize
    ensures put { Put out.old 0 (progress_text (get_or s.figures 82 0) s.reader.number) out.new result }
    ensures upper_bound { result ≤ length out.new }
{
    stops::put_progress(out, s.figures[82], s.reader.number)
}

// Whether more of the file can give an event.
pub fn goes_on(s: Summing) -> bool
    ensures { result ≡ open? s.reader.end }
{
    reader::is_open(s.reader.end)
}

fn is_whole(end: Ending) -> bool
    ensures { result ≡ whole? end }
{
    matches!(end, Ending::NotYet | Ending::AtEnd)
}

// THE FILE HAS ENDED: whether another may follow.
pub fn ends_whole(s: Summing) -> bool
    ensures { result ≡ whole? (file_end s) }
{
    is_whole(reader::close(s.reader))
}

// How many events the file at hand has had.
fn events_in(s: Summing) -> u32
    ensures { result ≡ s.reader.number - s.before }
{
    s.reader.number.saturating_sub(s.before)
}

// THE SUMMARY STOPS, in the file of that name: what is to be written.
pub fn close(s: Summing, name: Name, out: &mut [u8; 8192], err: &mut [u8; 8192]) -> Closed
    ensures value { result ≡ closed s (name_of name) }
    ensures out_after { out.new ≡ over_front (sum_text s (name_of name)) out.old }
    ensures err_after { err.new ≡ over_front (sum_said s (name_of name)) err.old }
    ensures used_in_bounds { (result.used ≤ length out.new) × (result.said ≤ length err.new) }
{
    let named = &name.bytes[..batches::size_of(name)];
    let end = reader::close(s.reader);
    let events = events_in(s);
    let at = sheets::put_sheet(out, &s.figures);
    let used = stops::put_words(out, at, named, events, end);
    let said = stops::put_said(err, named, events, end);
    Closed { used, said }
}
