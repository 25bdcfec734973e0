// What `ask` answers with, as text: the line of the answer, and a board with its live tasks.
#![tactic(auto)]

ghost use Rattle.std.specs.Prelude.{◌≡◌, cond, eqb, [], ◌∷◌, ◌++◌, ◌+◌, ◌≤◌, ◌<◌, length};
ghost use Rattle.lists.specs.Lists.{over_front};
ghost use Rattle.tasks.specs.Tasks.{live};
ghost use Rattle.text.specs.Text.{decimal, row_text};
ghost use Rattle.text.specs.Digits.{Put};
ghost use Rattle.board_text.specs.BoardText.{phase_word, answer_text, is_cut_short, is_unknown, halt_text, task_text, tasks_text, device_row, shown_text, board_text, stamp_text};

use board::Board;
use tasks::{Phase, Task};

// "phase in words", the last of a row, and the newline.
// Stays: bytes and no Display, since std's `write!` into a lent `&mut [u8]` may fail, and no clause tells the bytes it puts.
fn phase_line(phase: Phase) -> &'static [u8]
    ensures line { result.now ≡ phase_word phase ++ (10 ∷ []) }
    ensures upper_bound { length result.now ≤ 8 }
{
    match phase {
        Phase::Ended => b"ended\n",
        Phase::Waiting => b"waiting\n",
        Phase::Running => b"running\n",
    }
}

// "a row `slot id w h e d column start finish phase`"; the place after it.
fn put_task(out: &mut [u8], at: usize, slot: u32, k: Task) -> usize
    requires { at + 117 ≤ length out.old }
    ensures put { Put out.old at (task_text slot k) out.new result }
    ensures upper_bound { result ≤ at + 117 }
{
    let words = [
        slot,
        k.id,
        u32::from(k.w),
        u32::from(k.h),
        k.e,
        k.d,
        u32::from(k.column),
        k.start,
    ];
    let finish_at = text::put_spaced(out, at, &words);
    let phase_at = text::put_ended::<10>(out, finish_at, u64::from(k.start) + u64::from(k.e), b' ');
    text::put_bytes(out, phase_at, phase_line(k.phase))
}

// The row of a slot, if a live task is in it: `k` decides, and `s` is the record to show.
fn put_slot(out: &mut [u8], at: usize, slot: u32, k: Task, s: Task) -> usize
    requires { at + 117 ≤ length out.old }
    ensures put { Put out.old at (cond (live k) (task_text slot s) []) out.new result }
    ensures upper_bound { result ≤ at + 117 }
{
    if tasks::is_live(k) {
        put_task(out, at, slot, s)
    } else {
        at
    }
}

// "for each live task by slot, slots counted from 1"; the place after the last row.
fn put_tasks(out: &mut [u8], at: usize, tasks: [Task; 64], shown: [Task; 64]) -> usize
    requires { at + 7488 ≤ length out.old }
    ensures put { Put out.old at (tasks_text 1 tasks shown) out.new result }
    ensures upper_bound { result ≤ at + 7488 }
{
    let mut place = at;
    for i in 0..64 {
        let k = tasks[i];
        let s = shown[i];
        place = put_slot(out, place, i as u32 + 1, k, s);
    }
    place
}

// "a row `W H now` for g 1 and `W H now G` otherwise"; the place after it.
fn put_device(out: &mut [u8], board: Board) -> usize
    requires { 44 ≤ length out.old }
    ensures put { Put out.old 0 (row_text (device_row board)) out.new result }
    ensures upper_bound { result ≤ 44 }
{
    let words = [
        u32::from(board.device.columns),
        u32::from(board.device.rows),
        board.now,
        u32::from(board.device.grid),
    ];
    if board.device.grid == 1 {
        return text::put_words(out, 0, &words[..3]);
    }
    text::put_words(out, 0, &words)
}

// A board, its live tasks shown by the records of another table. The text of 64 tasks is shorter than the buffer.
fn put_shown(out: &mut [u8; 8192], board: Board, shown: [Task; 64]) -> usize
    ensures value { result ≡ length (shown_text board shown) }
    ensures out_after { out.new ≡ over_front (shown_text board shown) out.old }
    ensures upper_bound { result ≤ length out.new }
{
    let tasks = board.tasks;
    let at = put_device(out, board);
    put_tasks(out, at, tasks, shown)
}

// "`ask board`": the row of the device, "then a row .. for each live task by slot", at the front of the buffer; how many bytes they take.
pub fn put_board(out: &mut [u8; 8192], board: Board) -> usize
    ensures value { result ≡ length (board_text board) }
    ensures out_after { out.new ≡ over_front (board_text board) out.old }
    ensures upper_bound { result ≤ length out.new }
{
    let tasks = board.tasks;
    put_shown(out, board, tasks)
}

// "`ask stamp T`: as `ask board`, the phases stamped at T".
pub fn put_stamped(out: &mut [u8; 8192], board: Board, instant: u32) -> usize
    ensures value { result ≡ length (stamp_text instant board) }
    ensures out_after { out.new ≡ over_front (stamp_text instant board) out.old }
    ensures upper_bound { result ≤ length out.new }
{
    let tasks = board.tasks;
    let stamped = stamping::stamp_slots(tasks, instant);
    put_shown(out, board, stamped)
}

// "Its first line is `answer N` with 01's number", at the front of the buffer; how many bytes it takes.
pub fn put_answer(out: &mut [u8; 8192], number: u32) -> usize
    ensures value { result ≡ length (answer_text number) }
    ensures out_after { out.new ≡ over_front (answer_text number) out.old }
    ensures upper_bound { result ≤ length out.new }
{
    let at = text::put_bytes(out, 0, b"answer ");
    text::put_ended::<10>(out, at, u64::from(number), b'\n')
}

// The end of the message below: what the answer says of the record.
fn halt_tail(end: u8) -> &'static [u8]
    ensures tail { result.now ≡ cond (eqb end 15) is_cut_short is_unknown }
    ensures upper_bound { length result.now ≤ 60 }
{
    if end == 15 {
        b") is cut short (15): not answered\n"
    } else {
        b") is of no known kind (16): not answered\n"
    }
}

// The message of a recording that ends in 15 or 16, at the front of the buffer; how many bytes it takes.
// Stays: `end` is document 01's number, as the definition `halt_text` has it; `asking` has an enum for the two (`Ending`).
pub fn put_halt(out: &mut [u8; 8192], event: u32, kind: u8, end: u8) -> usize
    ensures value { result ≡ length (halt_text event kind end) }
    ensures out_after { out.new ≡ over_front (halt_text event kind end) out.old }
    ensures upper_bound { result ≤ length out.new }
{
    text::put_event(
        out,
        0,
        b"ask: event ",
        u64::from(event),
        kind,
        halt_tail(end),
    )
}
