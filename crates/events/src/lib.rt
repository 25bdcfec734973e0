// Event records of document 01, and kind 5 of document 02: one byte of kind, then a body whose length the kind fixes;
// numbers little-endian.
#![tactic(auto)]

ghost use Rattle.std.specs.Prelude.{◌≡◌, ◌∷◌, if◌then◌else◌, ltb, leb, length, drop, Ok, Err};
ghost use Rattle.lists.specs.Lists.{over_front};
ghost use Rattle.events.specs.Records.{bytes_of, field, kind_of, new_board_in, submit_in, grid_board_in, whole_or15, read_from, written, written_buffer, submission_of, told_read, told_written};

use tasks::Submission;

// What an event of kind 2 asks for, as its body says it: its own, so that a later field of a submission changes no record.
#[derive(Clone, Copy)]
pub struct Ask {
    pub id: u32,
    pub e: u32,
    pub d: u32,
    pub w: u16,
    pub h: u16,
}

// "an event's fields have the record's widths". A board on a grid is an event of its own, and not a new board with a
// grid of 1 or more: so a record of kind 5 with g 1 is written again as kind 5, and one of kind 1 as kind 1.
#[derive(Clone, Copy)]
pub enum Event {
    NewBoard { columns: u16, rows: u16 },
    Submit { planner: u8, ask: Ask },
    Clock { instant: u32 },
    Withdraw { id: u32 },
    GridBoard { columns: u16, rows: u16, grid: u8 },
}

// Why there is no event: 15 and 16, each with the kind byte.
#[derive(Clone, Copy, PartialEq, Eq)]
pub enum ReadError {
    CutShort(u8),
    Unknown(u8),
}

// What the reader returns: the event and the bytes it took; none at the end; 15 or 16.
pub type Reading = Result<Option<(Event, usize)>, ReadError>;

// 17: the buffer has no room for the record.
#[derive(Clone, Copy, PartialEq, Eq)]
pub struct NoRoom;

// What the writer returns: the record's length; 17.
pub type Written = Result<usize, NoRoom>;

// What a body of each kind gives: its event with the kind byte and the body taken, or 15.
fn read_new_board(body: &[u8]) -> Reading
    ensures { result ≡ whole_or15 1 4 body.now (new_board_in body.now) }
{
    if body.len() < 4 {
        return Err(ReadError::CutShort(1));
    }
    let columns = u16::from_le_bytes(fields::bytes_at(body, 0));
    let rows = u16::from_le_bytes(fields::bytes_at(body, 2));
    Ok(Some((Event::NewBoard { columns, rows }, 5)))
}

fn read_submit(body: &[u8]) -> Reading
    ensures { result ≡ whole_or15 2 17 body.now (submit_in body.now) }
{
    if body.len() < 17 {
        return Err(ReadError::CutShort(2));
    }
    let planner = body[0];
    let ask = Ask {
        id: u32::from_le_bytes(fields::bytes_at(body, 1)),
        w: u16::from_le_bytes(fields::bytes_at(body, 5)),
        h: u16::from_le_bytes(fields::bytes_at(body, 7)),
        e: u32::from_le_bytes(fields::bytes_at(body, 9)),
        d: u32::from_le_bytes(fields::bytes_at(body, 13)),
    };
    Ok(Some((Event::Submit { planner, ask }, 18)))
}

// The one number of a clock record and of a withdrawal.
fn read_number(kind: u8, body: &[u8]) -> Result<u32, ReadError>
    ensures { result ≡ (if ltb (length body.now) 4 then Err (ReadError.CutShort kind) else Ok (field 0 4 body.now)) }
{
    if body.len() < 4 {
        return Err(ReadError::CutShort(kind));
    }
    Ok(u32::from_le_bytes(fields::bytes_at(body, 0)))
}

fn read_grid_board(body: &[u8]) -> Reading
    ensures { result ≡ whole_or15 5 5 body.now (grid_board_in body.now) }
{
    if body.len() < 5 {
        return Err(ReadError::CutShort(5));
    }
    let columns = u16::from_le_bytes(fields::bytes_at(body, 0));
    let rows = u16::from_le_bytes(fields::bytes_at(body, 2));
    let grid = body[4];
    let event = Event::GridBoard {
        columns,
        rows,
        grid,
    };
    Ok(Some((event, 6)))
}

// The kind byte of an event.
pub fn kind_of(event: Event) -> u8
    ensures { result ≡ kind_of event }
{
    match event {
        Event::NewBoard { .. } => 1,
        Event::Submit { .. } => 2,
        Event::Clock { .. } => 3,
        Event::Withdraw { .. } => 4,
        Event::GridBoard { .. } => 5,
    }
}

// What such an event asks of a planner.
impl From<Ask> for Submission {
    ghost from_gives = { λ ask submission. submission ≡ submission_of ask };

    fn from(ask: Ask) -> Submission {
        let Ask { id, e, d, w, h } = ask;
        Submission { id, e, d, w, h }
    }
}

// THE READER, from a place of a longer buffer on: nothing is copied, and a place past the end is the end.
pub fn read_at(s: &[u8], at: usize) -> Reading
    ensures value { result ≡ read_from (drop at s.now) }
    ensures result_value { told_read result ≡ told_read (read_from (drop at s.now)) }
{
    if s.len() <= at {
        return Ok(None);
    }
    let kind = s[at];
    let body = &s[at + 1..];
    match kind {
        1 => read_new_board(body),
        2 => read_submit(body),
        3 => {
            let instant = read_number(3, body)?;
            Ok(Some((Event::Clock { instant }, 5)))
        }
        4 => {
            let id = read_number(4, body)?;
            Ok(Some((Event::Withdraw { id }, 5)))
        }
        5 => read_grid_board(body),
        _ => Err(ReadError::Unknown(kind)),
    }
}

// THE READER: the event whose record stands at the front, and the bytes it took.
pub fn read(s: &[u8]) -> Reading
    ensures value { result ≡ read_from s.now }
    ensures result_value { told_read result ≡ told_read (read_from s.now) }
{
    read_at(s, 0)
}

// The record of each kind, at the front of a buffer that has room; 17 is found before a byte is stored.
fn write_new_board(buffer: &mut [u8], columns: u16, rows: u16) -> Written
    ensures value { result ≡ written (Event.NewBoard columns rows) (length buffer.old) }
    ensures buffer_after { buffer.new ≡ written_buffer (Event.NewBoard columns rows) buffer.old }
{
    if buffer.len() < 5 {
        return Err(NoRoom);
    }
    buffer[0] = 1;
    fields::put(buffer, 1, &columns.to_le_bytes());
    fields::put(buffer, 3, &rows.to_le_bytes());
    Ok(5)
}

fn write_submit(buffer: &mut [u8], planner: u8, ask: Ask) -> Written
    ensures value { result ≡ written (Event.Submit planner ask) (length buffer.old) }
    ensures buffer_after { buffer.new ≡ written_buffer (Event.Submit planner ask) buffer.old }
{
    if buffer.len() < 18 {
        return Err(NoRoom);
    }
    buffer[0] = 2;
    buffer[1] = planner;
    fields::put(buffer, 2, &ask.id.to_le_bytes());
    fields::put(buffer, 6, &ask.w.to_le_bytes());
    fields::put(buffer, 8, &ask.h.to_le_bytes());
    fields::put(buffer, 10, &ask.e.to_le_bytes());
    fields::put(buffer, 14, &ask.d.to_le_bytes());
    Ok(18)
}

// Of a kind with one number: a clock record, a withdrawal.
fn write_number(buffer: &mut [u8], kind: u8, number: u32) -> Written
    ensures value { result ≡ (if leb 5 (length buffer.old) then Ok 5 else Err (record {})) }
    ensures buffer_after { buffer.new ≡ (if leb 5 (length buffer.old) then over_front (kind ∷ bytes_of 4 number) buffer.old else buffer.old) }
{
    if buffer.len() < 5 {
        return Err(NoRoom);
    }
    buffer[0] = kind;
    fields::put(buffer, 1, &number.to_le_bytes());
    Ok(5)
}

fn write_grid_board(buffer: &mut [u8], columns: u16, rows: u16, grid: u8) -> Written
    ensures value { result ≡ written (Event.GridBoard columns rows grid) (length buffer.old) }
    ensures buffer_after { buffer.new ≡ written_buffer (Event.GridBoard columns rows grid) buffer.old }
{
    if buffer.len() < 6 {
        return Err(NoRoom);
    }
    buffer[0] = 5;
    fields::put(buffer, 1, &columns.to_le_bytes());
    fields::put(buffer, 3, &rows.to_le_bytes());
    buffer[5] = grid;
    Ok(6)
}

// THE WRITER: one record at the front of a lent buffer; bytes beyond it stay, and a refusal leaves every byte.
pub fn write(buffer: &mut [u8], v: Event) -> Written
    ensures value { result ≡ written v (length buffer.old) }
    ensures buffer_after { buffer.new ≡ written_buffer v buffer.old }
    ensures result_value { told_written result ≡ told_written (written v (length buffer.old)) }
{
    match v {
        Event::NewBoard { columns, rows } => write_new_board(buffer, columns, rows),
        Event::Submit { planner, ask } => write_submit(buffer, planner, ask),
        Event::Clock { instant } => write_number(buffer, 3, instant),
        Event::Withdraw { id } => write_number(buffer, 4, id),
        Event::GridBoard {
            columns,
            rows,
            grid,
        } => write_grid_board(buffer, columns, rows, grid),
    }
}
