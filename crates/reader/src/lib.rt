// A recording that comes in pieces: one reader for every program. A piece may end inside a record; the begin of it is held.
#![tactic(auto)]

ghost use Rattle.std.specs.Prelude.{◌≡◌, cond, ◌++◌, ◌+◌, ◌*◌, ◌≤◌, ltb, eqb, length, take, drop};
ghost use Rattle.lists.specs.Lists.{over_front};
ghost use Rattle.session.specs.declared.Ending.TheVariants.{NotYet, AtLast, PastLast};
ghost use Rattle.session.specs.Recording.{most_events};
ghost use Rattle.reader.specs.Reader.{first_reader, held_of, open?, later_end, heard_over, goes_on_with, passed_over, as_fed, fed, fed_buffer, end_in, end_of};
ghost use Rattle.reader.specs.Told.{judged, Told};

use events::{ReadError, Reading};
use session::Ending;
use steps::State;

// Where the reader stands: the state that follows the events so far, the begin of a record whose end has not come, and whether
// and how the recording has ended.
// Stays: the project has no heap, so the held bytes lie in a buffer with their number beside it.
#[derive(Clone, Copy)]
pub struct Reader {
    pub state: State,
    pub number: u32,
    pub held: [u8; 18],
    pub size: usize,
    pub end: Ending,
}

// How many lines a piece has given, and how much of it was taken.
#[derive(Clone, Copy)]
pub struct Fed {
    pub reader: Reader,
    pub taken: usize,
    pub count: usize,
}

// How many bytes a program writes to standard output, and to standard error, where the recording has ended.
#[derive(Clone, Copy)]
pub struct Closed {
    pub used: usize,
    pub said: usize,
}

pub fn begin() -> Reader
    ensures { result ≡ first_reader }
{
    Reader {
        state: steps::first_state(),
        number: 0,
        held: [0; 18],
        size: 0,
        end: Ending::NotYet,
    }
}

// The kind that is not known, where the run left off before such a record.
fn judge(reading: Reading) -> Option<u8>
    ensures { result ≡ judged reading }
{
    match reading {
        Ok(_) => None,
        Err(ReadError::CutShort(_)) => None,
        Err(ReadError::Unknown(kind)) => Some(kind),
    }
}

// The last event that may be ends the recording.
fn ending(number: u32) -> Ending
    ensures { result ≡ cond (ltb number most_events) NotYet AtLast }
{
    if number < session::MOST_EVENTS {
        Ending::NotYet
    } else {
        Ending::AtLast
    }
}

// What was held is read with the first byte that a run takes.
fn unread(size: usize, taken: usize) -> usize
    ensures { result ≡ cond (eqb taken 0) size 0 }
{
    if taken == 0 { size } else { 0 }
}

// What is left of the bytes is the begin of a record: to the front of the held bytes.
fn hold(held: [u8; 18], bytes: &[u8], at: usize) -> [u8; 18]
    requires { (at ≤ length bytes.now) × (length bytes.now ≤ at + 18) }
    ensures { result ≡ over_front (drop at bytes.now) held }
{
    let mut front = held;
    text::put_bytes(&mut front, 0, &bytes[at..]);
    front
}

// A run over some bytes, of which the first `kept` were held.
fn hear(r: Reader, kept: usize, bytes: &[u8], answers: &mut [u32]) -> Fed
    ensures { Told (heard_over r kept bytes.now (length answers.old)) result answers.old answers.new }
{
    let most = session::room(answers.len(), r.number);
    let run = session::run(r.state, r.number, bytes, answers);
    let number = r.number + run.count as u32;
    if run.count == most {
        return Fed {
            reader: Reader {
                state: run.state,
                number,
                size: unread(r.size, run.taken),
                end: ending(number),
                ..r
            },
            taken: run.taken.saturating_sub(kept),
            count: run.count,
        };
    }
    let taken = bytes.len().saturating_sub(kept);
    if let Some(kind) = judge(events::read_at(bytes, run.taken)) {
        session::put_line(answers, run.count * 6, number + 1, kind, 16, 0, 0, 0);
        return Fed {
            reader: Reader {
                state: run.state,
                number,
                size: 0,
                end: Ending::In16(kind),
                ..r
            },
            taken,
            count: run.count + 1,
        };
    }
    Fed {
        reader: Reader {
            state: run.state,
            number,
            held: hold(r.held, bytes, run.taken),
            size: bytes.len() - run.taken,
            end: Ending::NotYet,
        },
        taken,
        count: run.count,
    }
}

// The held bytes and those of the piece that may belong to their record.
// Stays: the project has no heap, so the joined bytes lie in a buffer of their own, with their number beside it.
#[derive(Clone, Copy)]
pub struct Joined {
    pub bytes: [u8; 18],
    pub size: usize,
}

fn join(held: [u8; 18], kept: usize, piece: &[u8]) -> Joined
    requires { kept ≤ 18 }
    ensures { (result.size ≤ 18) × (take result.size result.bytes ≡ take 18 (take kept held ++ piece.now)) }
{
    let mut bytes = held;
    let more = piece.len().min(18 - kept);
    let size = text::put_bytes(&mut bytes, kept, &piece[..more]);
    Joined { bytes, size }
}

// The bytes that a piece is read by where a record has begun.
pub fn window(r: Reader, piece: &[u8]) -> Joined
    ensures { (result.size ≤ 18) × (take result.size result.bytes ≡ take 18 (held_of r ++ piece.now)) }
{
    join(r.held, r.size.min(18), piece)
}

fn go_on(r: Reader, piece: &[u8], answers: &mut [u32]) -> Fed
    ensures { Told (goes_on_with r piece.now (length answers.old)) result answers.old answers.new }
{
    let kept = r.size.min(18);
    if kept == 0 {
        return hear(r, 0, piece, answers);
    }
    let joined = join(r.held, kept, piece);
    let words = answers.len().min(6);
    hear(r, kept, &joined.bytes[..joined.size], &mut answers[..words])
}

// The recording has ended: nothing is told, and the piece is taken.
fn pass(r: Reader, piece: &[u8], end: Ending) -> Fed
    ensures { result ≡ as_fed (passed_over r piece.now end) }
{
    Fed {
        reader: Reader { end, ..r },
        taken: piece.len(),
        count: 0,
    }
}

// Whether the recording has not ended yet.
pub fn is_open(end: Ending) -> bool
    ensures { result ≡ open? end }
{
    matches!(end, Ending::NotYet)
}

// Behind the last event that may be a byte is one too many.
fn past(piece: &[u8]) -> Ending
    ensures { result ≡ cond (eqb (length piece.now) 0) AtLast PastLast }
{
    if piece.is_empty() {
        Ending::AtLast
    } else {
        Ending::PastLast
    }
}

fn later(end: Ending, piece: &[u8]) -> Ending
    ensures { result ≡ later_end end piece.now }
{
    match end {
        Ending::AtLast => past(piece),
        _ => end,
    }
}

// A PIECE of the recording: six words a line into the lent buffer, as far as there is room.
pub fn feed(r: Reader, piece: &[u8], answers: &mut [u32]) -> Fed
    ensures value { result ≡ fed r piece.now (length answers.old) }
    ensures answers_after { answers.new ≡ fed_buffer r piece.now answers.old }
    ensures count_in_bounds { (result.count * 6 ≤ length answers.old) × (result.taken ≤ length piece.now) }
{
    if is_open(r.end) {
        return go_on(r, piece, answers);
    }
    pass(r, piece, later(r.end, piece))
}

fn end_in(reading: Reading) -> Ending
    ensures { result ≡ end_in reading }
{
    match reading {
        Ok(_) => Ending::AtEnd,
        Err(ReadError::CutShort(k)) => Ending::In15(k),
        Err(ReadError::Unknown(k)) => Ending::In16(k),
    }
}

// THE INPUT HAS ENDED.
pub fn close(r: Reader) -> Ending
    ensures { result ≡ end_of r }
{
    if !is_open(r.end) {
        return r.end;
    }
    end_in(events::read(&r.held[..r.size.min(18)]))
}
