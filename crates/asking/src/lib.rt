// The program `ask` as a machine: it is fed the recording in pieces, closed, and then says its answer part by part.
#![tactic(auto)]

ghost use Rattle.std.specs.Prelude.{◌≡◌, ◌+◌, ◌*◌, ◌≤◌, min, Some, length, take};
ghost use Rattle.lists.specs.Lists.{over_front};
ghost use Rattle.text.specs.Digits.{Put};
ghost use Rattle.planners.specs.Openings.{pair_numbers};
ghost use Rattle.board.specs.Calls.{opened};
ghost use Rattle.questions.specs.declared.Question.TheVariants.{Horizon, Busy, Board as TheBoard, Stamp, Openings};
ghost use Rattle.board_text.specs.BoardText.{halt_text};
ghost use Rattle.asking.specs.Asking.{replied, last_row, unsoundness, answered, whole?, end_text};
ghost use Rattle.asking.specs.Machine.{first_part, page_rows, left_to, turned, whole_part, Said, begun, fed_with, next_event, closing_part, closing, closed, next_part, went};

use board::{Board, Opened};
use questions::Question;
use reader::Reader;
use session::Ending;
use tasks::Submission;

// Where the list of openings stands: the pair to go on after, and how many more rows were asked for.
#[derive(Clone, Copy)]
pub struct Page {
    pub task: Submission,
    pub start: u32,
    pub column: u32,
    pub left: u32,
}

// Where the program stands, and the page that follows where a further part of the answer waits. Where nothing is asked, nothing
// is answered.
#[derive(Clone, Copy)]
pub struct Asking {
    pub reader: Reader,
    pub question: Option<Question>,
    pub page: Option<Page>,
}

// How much of a piece was taken.
#[derive(Clone, Copy)]
pub struct Fed {
    pub asking: Asking,
    pub taken: usize,
}

// How many bytes stand in the buffer for standard output, and in that for standard error.
#[derive(Clone, Copy)]
pub struct Closed {
    pub asking: Asking,
    pub used: usize,
    pub said: usize,
}

#[derive(Clone, Copy)]
pub struct Went {
    pub asking: Asking,
    pub used: usize,
}

// A part of the answer: its bytes, and the page that follows, if one does.
#[derive(Clone, Copy)]
struct Part {
    used: usize,
    page: Option<Page>,
}

// How many rows a page has at most.
const PAGE: u32 = 2976;

pub fn begin(question: Option<Question>) -> Asking
    ensures { result ≡ begun question }
{
    Asking {
        reader: reader::begin(),
        question,
        page: None,
    }
}

// A PIECE of the recording. Its lines are written and nobody reads them.
pub fn feed(a: Asking, piece: &[u8]) -> Fed
    ensures value { result ≡ fed_with a piece.now }
    ensures taken_in_bounds { result.taken ≤ length piece.now }
{
    let mut lines = [0u32; 5952];
    let f = reader::feed(a.reader, piece, &mut lines);
    Fed {
        asking: Asking {
            reader: f.reader,
            ..a
        },
        taken: f.taken,
    }
}

// "Its first line is `answer N` with 01's number; rows follow only if N is 0".
fn reply(out: &mut [u8], number: u8, rows: &[u8]) -> usize
    requires { 18 + length rows.now ≤ length out.old }
    ensures value { result ≡ length (replied number rows.now) }
    ensures out_after { out.new ≡ over_front (replied number rows.now) out.old }
{
    let mut line = [0u8; 8192];
    let n = board_text::put_answer(&mut line, u32::from(number));
    let at = text::put_bytes(out, 0, &line[0..n]);
    if number == 0 {
        return text::put_bytes(out, at, rows);
    }
    at
}

// "rows `first last release`".
fn answer_horizon(board: Board, out: &mut [u8; 65536]) -> usize
    ensures value { result ≡ length (answered (Some Horizon) board) }
    ensures out_after { out.new ≡ over_front (answered (Some Horizon) board) out.old }
{
    let mut words = [0u32; 768];
    let mut rows = [0u8; 8448];
    let r = board.horizon(&mut words);
    let n = text::put_table(&mut rows, &words, r.count, 3);
    reply(out, r.number, &rows[0..n])
}

// "one row, the number".
fn answer_busy(board: Board, instant: u32, out: &mut [u8; 65536]) -> usize
    ensures value { result ≡ length (answered (Some (Busy instant)) board) }
    ensures out_after { out.new ≡ over_front (answered (Some (Busy instant)) board) out.old }
{
    let r = board.busy(instant);
    let mut row = [0u8; 16];
    let n = text::put_words(&mut row, 0, &[r.count]);
    reply(out, r.number, &row[0..n])
}

// 1 where the board is not sound.
fn unsound(board: Board) -> u8
    ensures { result ≡ unsoundness board }
{
    u8::from(!board.is_sound())
}

// The same with the front of a table of rows, where a board has only to be sound.
fn show(out: &mut [u8; 65536], board: Board, rows: [u8; 8192], n: usize) -> usize
    requires { n ≤ length rows }
    ensures value { result ≡ length (replied (unsoundness board) (take n rows)) }
    ensures out_after { out.new ≡ over_front (replied (unsoundness board) (take n rows)) out.old }
{
    let number = unsound(board);
    reply(out, number, &rows[0..n])
}

// "a row `W H now`, then a row .. for each live task by slot".
fn answer_board(board: Board, out: &mut [u8; 65536]) -> usize
    ensures value { result ≡ length (answered (Some TheBoard) board) }
    ensures out_after { out.new ≡ over_front (answered (Some TheBoard) board) out.old }
{
    let mut rows = [0u8; 8192];
    let n = board_text::put_board(&mut rows, board);
    show(out, board, rows, n)
}

// "as `ask board`, the phases stamped at T".
fn answer_stamp(board: Board, instant: u32, out: &mut [u8; 65536]) -> usize
    ensures value { result ≡ length (answered (Some (Stamp instant)) board) }
    ensures out_after { out.new ≡ over_front (answered (Some (Stamp instant)) board) out.old }
{
    let mut rows = [0u8; 8192];
    let n = board_text::put_stamped(&mut rows, board, instant);
    show(out, board, rows, n)
}

// The line of the answer; where that is 0 the pages follow. A buffer of no words has room for no opening.
fn answer_openings(board: Board, first: Page, out: &mut [u8; 65536]) -> Part
    ensures { Said (first_part (Some (Openings first.task first.start first.column first.left)) board) result out.old out.new }
{
    let mut none = [0u32; 0];
    let r = board.openings(first.task, first.start, first.column, &mut none);
    let mut line = [0u8; 8192];
    let n = board_text::put_answer(&mut line, u32::from(r.number));
    Part {
        used: text::put_bytes(out, 0, &line[0..n]),
        page: (r.number == 0).then_some(first),
    }
}

// No page follows.
fn whole(used: usize) -> Part
    ensures { result ≡ whole_part used }
{
    Part { used, page: None }
}

// THE FIRST PART of the answer.
fn answer(board: Board, question: Option<Question>, out: &mut [u8; 65536]) -> Part
    ensures { Said (first_part question board) result out.old out.new }
{
    let Some(question) = question else {
        return whole(0);
    };
    match question {
        Question::Horizon => whole(answer_horizon(board, out)),
        Question::Busy(instant) => whole(answer_busy(board, instant, out)),
        Question::Openings {
            task,
            start,
            column,
            most,
        } => {
            let first = Page {
                task,
                start,
                column: u32::from(column),
                left: most,
            };
            answer_openings(board, first, out)
        }
        Question::Board => whole(answer_board(board, out)),
        Question::Stamp(instant) => whole(answer_stamp(board, instant, out)),
    }
}

// The next openings, as many as were asked for and a page has room for: one public call.
fn look(board: Board, page: Page, words: &mut [u32]) -> Opened
    requires { 5952 ≡ length words.old }
    ensures value { result ≡ opened board page.task page.start page.column (2 * min page.left page_rows) }
    ensures words_after { words.new ≡ over_front (pair_numbers (take (min page.left page_rows) (left_to board page))) words.old }
{
    let size = 2 * page.left.min(PAGE) as usize;
    board.openings(page.task, page.start, page.column, &mut words[0..size])
}

// "then a row `more` or `end`"; the place after it.
fn put_last(out: &mut [u8], at: usize, more: bool) -> usize
    requires { at + 5 ≤ length out.old }
    ensures { Put out.old at (last_row more) out.new result }
{
    if more {
        return text::put_bytes(out, at, b"more\n");
    }
    text::put_bytes(out, at, b"end\n")
}

// A PAGE of the openings, and the last row where it is the last one.
fn turn(board: Board, page: Page, out: &mut [u8; 65536]) -> Part
    ensures { Said (turned board page) result out.old out.new }
{
    let mut words = [0u32; 5952];
    let r = look(board, page, &mut words);
    let count = r.count;
    let n = text::put_table(out, &words, count, 2);
    if (page.left <= PAGE) | !r.more {
        let used = put_last(out, n, r.more);
        return whole(used);
    }
    Part {
        used: n,
        page: Some(Page {
            start: words[2 * count - 2],
            column: words[2 * count - 1],
            left: page.left - PAGE,
            ..page
        }),
    }
}

// "a message on standard error names the event".
// Stays: `end` is document 01's number, which `board_text::put_halt` takes and `halt_text` has.
fn put_message(err: &mut [u8; 512], event: u32, kind: u8, end: u8) -> usize
    ensures value { result ≡ length (halt_text event kind end) }
    ensures err_after { err.new ≡ over_front (halt_text event kind end) err.old }
{
    let mut text = [0u8; 8192];
    let n = board_text::put_halt(&mut text, event, kind, end);
    text::put_bytes(err, 0, &text[0..n])
}

// Why the recording is not answered.
fn put_end(err: &mut [u8; 512], event: u32, end: Ending) -> usize
    ensures value { result ≡ length (end_text event end) }
    ensures err_after { err.new ≡ over_front (end_text event end) err.old }
{
    match end {
        Ending::NotYet => 0,
        Ending::AtEnd => 0,
        Ending::In15(k) => put_message(err, event, k, 15),
        Ending::In16(k) => put_message(err, event, k, 16),
        Ending::AtLast => 0,
        Ending::PastLast => text::put_bytes(
            err,
            0,
            b"ask: the recording has more than 1000000000 events: not answered\n",
        ),
    }
}

fn is_whole(end: Ending) -> bool
    ensures { result ≡ whole? end }
{
    matches!(end, Ending::AtEnd | Ending::AtLast)
}

// The number of the next event; there is none past the last that may be.
fn next_event(number: u32) -> u32
    ensures { result ≡ next_event number }
{
    number.min(session::MOST_EVENTS - 1) + 1
}

// The first part of the answer, where the recording is whole.
fn begin_answer(a: Asking, end: Ending, out: &mut [u8; 65536]) -> Part
    ensures { Said (closing_part a end) result out.old out.new }
{
    if !is_whole(end) {
        return whole(0);
    }
    answer(a.reader.state.board, a.question, out)
}

// THE INPUT HAS ENDED: the first part of the answer, or why there is none.
pub fn close(a: Asking, out: &mut [u8; 65536], err: &mut [u8; 512]) -> Closed
    ensures value { result ≡ closed a }
    ensures out_after { out.new ≡ over_front (closing a).out out.old }
    ensures err_after { err.new ≡ over_front (closing a).err err.old }
    ensures used_in_bounds { (result.used ≤ length out.new) × (result.said ≤ length err.new) }
{
    let end = reader::close(a.reader);
    let said = put_end(err, next_event(a.reader.number), end);
    let part = begin_answer(a, end, out);
    Closed {
        asking: Asking {
            page: part.page,
            ..a
        },
        used: part.used,
        said,
    }
}

// THE NEXT PART of the answer, where one waits.
pub fn next(a: Asking, out: &mut [u8; 65536]) -> Went
    ensures value { result ≡ went a }
    ensures out_after { out.new ≡ over_front (next_part a).text out.old }
    ensures used_in_bounds { result.used ≤ length out.new }
{
    let Some(page) = a.page else {
        return Went { asking: a, used: 0 };
    };
    let part = turn(a.reader.state.board, page, out);
    Went {
        asking: Asking {
            page: part.page,
            ..a
        },
        used: part.used,
    }
}
