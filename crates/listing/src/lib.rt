// The listing that `plan` writes: a machine that is fed a recording piece by piece and gives its text.
#![tactic(auto)]

ghost use Rattle.std.specs.Prelude.{◌≡◌, cond, [], ◌∷◌, suc, ◌*◌, ◌≤◌, min, length};
ghost use Rattle.lists.specs.Lists.{over_front};
ghost use Rattle.text.specs.Digits.{Put};
ghost use Rattle.session.specs.Recording.{stop_line};
ghost use Rattle.reader.specs.Reader.{source_of, open?, last_lines};
ghost use Rattle.listing.specs.Code.{text_of};
ghost use Rattle.listing.specs.Listing.{header_text, listing_text, stop_text, end_text, first_listing, lines_in, listed, listed_text, last_text, said_text, closed};

use reader::{Closed, Reader};
use session::Ending;

// Where the program stands: the reader, and whether the answers are told in words.
#[derive(Clone, Copy)]
pub struct Listing {
    pub reader: Reader,
    pub words: bool,
}

// How much of a piece was taken, and how many bytes of text it gave.
#[derive(Clone, Copy)]
pub struct Listed {
    pub listing: Listing,
    pub taken: usize,
    pub used: usize,
}

pub fn begin(words: bool) -> Listing
    ensures { result ≡ first_listing words }
{
    Listing {
        reader: reader::begin(),
        words,
    }
}

// "prints a header", at the front of the buffer; how many bytes it takes.
#[tactic(auto, unfolding(crate::specs::Listing::header_text))]
pub fn put_header(out: &mut [u8; 64], words: bool) -> usize
    ensures value { result ≡ length (header_text words) }
    ensures out_after { out.new ≡ over_front (header_text words) out.old }
    ensures upper_bound { result ≤ length out.new }
{
    if words {
        return text::put_bytes(out, 0, b"event kind answer column start finish id answer\n");
    }
    text::put_bytes(out, 0, b"event kind answer column start finish\n")
}

// As many lines as there is room for and 992 at most.
fn lines_in(words: bool, room: usize) -> usize
    ensures { result ≡ lines_in words room }
{
    let fit = if words { room / 134 } else { room / 66 };
    fit.min(992)
}

// The text of lines that stand as numbers, at the front of the buffer; how many bytes it takes.
fn put_lines(
    out: &mut [u8],
    words: bool,
    numbers: &[u32],
    count: usize,
    r: Reader,
    piece: &[u8],
) -> usize
    requires { (count * cond words 134 66 ≤ length out.old) × (count * 6 ≤ length numbers.now) }
    ensures value { result ≡ length (text_of words count numbers.now (source_of r piece.now)) }
    ensures out_after { out.new ≡ over_front (text_of words count numbers.now (source_of r piece.now)) out.old }
    ensures upper_bound { result ≤ length out.new }
{
    if !words {
        return text::put_table(out, numbers, count, 6);
    }
    if r.size == 0 {
        return worded::put_rows(out, numbers, count, piece);
    }
    let joined = reader::window(r, piece);
    worded::put_rows(out, numbers, count, &joined.bytes[..joined.size])
}

// Whether more of the recording can give a line.
pub fn goes_on(l: Listing) -> bool
    ensures { result ≡ open? l.reader.end }
{
    reader::is_open(l.reader.end)
}

// Room for the numbers of 992 lines.
fn no_numbers() -> [u32; 5952]
    ensures { 5952 ≡ length result }
{
    [0; 5952]
}

// A PIECE of the recording: the text of its lines at the front of the buffer, as far as there is room.
pub fn feed(l: Listing, piece: &[u8], out: &mut [u8]) -> Listed
    ensures value { result ≡ listed l piece.now (length out.old) }
    ensures out_after { out.new ≡ listed_text l piece.now out.old }
    ensures taken_in_bounds { (result.taken ≤ length piece.now) × (result.used ≤ length out.new) }
{
    let mut numbers = no_numbers();
    let reader = l.reader;
    let most = 6 * lines_in(l.words, out.len());
    let fed = reader::feed(reader, piece, &mut numbers[0..most]);
    let used = put_lines(out, l.words, &numbers, fed.count, reader, piece);
    Listed {
        listing: Listing {
            reader: fed.reader,
            ..l
        },
        taken: fed.taken,
        used,
    }
}

// The line of a record that is cut short: its number may need more than 32 bits.
fn put_cut(out: &mut [u8; 128], words: bool, number: u32, kind: u8) -> usize
    ensures put { Put out.old 0 (listing_text words (stop_line (suc number) kind 15 ∷ [])) out.new result }
    ensures upper_bound { result ≤ length out.new }
{
    let from = text::put_ended::<10>(out, 0, u64::from(number) + 1, b' ');
    let end = text::put_spaced(out, from, &[u32::from(kind), 15, 0, 0]);
    if !words {
        return text::put_bytes(out, end, b"0\n");
    }
    text::put_bytes(out, end, b"0 - 15 the record is cut short\n")
}

// "After 15 .. it prints that line"; a 16 has had its own.
#[tactic(auto, using(crate::proofs::Closing::no_lines), unfolding(reader::specs::Reader::last_lines))]
fn put_last(out: &mut [u8; 128], words: bool, number: u32, end: Ending) -> usize
    ensures put { Put out.old 0 (listing_text words (last_lines number end)) out.new result }
    ensures upper_bound { result ≤ length out.new }
{
    match end {
        Ending::In15(kind) => put_cut(out, words, number, kind),
        Ending::NotYet | Ending::AtEnd | Ending::AtLast | Ending::PastLast => 0,
        Ending::In16(_) => 0,
    }
}

// The message of an event that is no whole record of a known kind.
fn put_stop(err: &mut [u8; 128], number: u32, kind: u8, tail: &[u8]) -> usize
    requires { length tail.now ≤ 60 }
    ensures put { Put err.old 0 (stop_text number kind tail.now) err.new result }
    ensures upper_bound { result ≤ length err.new }
{
    text::put_event(err, 0, b"plan: event ", u64::from(number) + 1, kind, tail)
}

// "a message on standard error after 15, 16 and the billionth event"
#[tactic(auto, unfolding(crate::specs::Listing::end_text))]
fn put_end(err: &mut [u8; 128], number: u32, end: Ending) -> usize
    ensures put { Put err.old 0 (end_text number end) err.new result }
    ensures upper_bound { result ≤ length err.new }
{
    match end {
        Ending::NotYet | Ending::AtEnd => 0,
        Ending::In15(kind) => put_stop(
            err,
            number,
            kind,
            b") is cut short (15): the recording is not whole\n",
        ),
        Ending::In16(kind) => put_stop(
            err,
            number,
            kind,
            b") is of no known kind (16): the rest was not read\n",
        ),
        Ending::AtLast | Ending::PastLast => {
            text::put_bytes(err, 0, b"plan: stopped after 1000000000 events\n")
        }
    }
}

// THE INPUT HAS ENDED, or nothing more is to be read: what is left to write.
pub fn close(l: Listing, out: &mut [u8; 128], err: &mut [u8; 128]) -> Closed
    ensures value { result ≡ closed l }
    ensures out_after { out.new ≡ over_front (last_text l) out.old }
    ensures err_after { err.new ≡ over_front (said_text l) err.old }
    ensures used_in_bounds { (result.used ≤ length out.new) × (result.said ≤ length err.new) }
{
    let reader = l.reader;
    let end = reader::close(reader);
    let used = put_last(out, l.words, reader.number, end);
    let said = put_end(err, reader.number, end);
    Closed { used, said }
}
