// The demonstration: the seven tasks of Table 1 of source document 003, played on its device of 10 x 6 under each planner, with a
// picture of what each did.
#![tactic(auto)]

ghost use Rattle.std.specs.Prelude.{◌≡◌, ◌+◌, ◌≤◌, length, position};
ghost use Rattle.std.proofs.lemmas.List.Edits.{sets};
ghost use Rattle.lists.specs.Lists.{index_of};
ghost use Rattle.tasks.specs.Tasks.{holds};
ghost use Rattle.demo.specs.Picture.{mark, across};

use board::{Answer, Board};
use std::io;
use tasks::{Submission, Task};

// A place as document 01 writes it: column, start.
fn show_answer(rt: &impl Print, answer: Answer) -> io::Result<()> {
    match answer {
        Answer::Placed { column, start, .. } => print!(rt; " ({column},{start})"),
        Answer::Rejected => print!(rt; " rejected"),
        Answer::Refused(number) => print!(rt; " refused {number}"),
    }
}

// The record of a task that was placed; a free slot, which holds nothing, for another.
fn placed(answer: Answer, clock: u32, a: Submission) -> Task {
    match answer {
        Answer::Placed { column, start, .. } => tasks::booked(clock, a, start, column),
        Answer::Rejected | Answer::Refused(_) => tasks::free_slot(),
    }
}

#[derive(Clone, Copy)]
struct Move {
    board: Board,
    task: Task,
}

// The clock to a task's arrival, and the task to a planner.
fn played(rt: &impl Print, board: Board, planner: u8, id: u32, row: [u32; 5]) -> io::Result<Move> {
    let [arrival, e, d, w, h] = row;
    // Stays: a row is five numbers of 32 bits, and u16::try_from would add a refusal that never comes.
    let a = Submission {
        id,
        e,
        d,
        w: (w % 65536) as u16,
        h: (h % 65536) as u16,
    };
    let submitted = board.clock(arrival).board.submit(planner, a);
    show_answer(rt, submitted.answer)?;
    Ok(Move {
        board: submitted.board,
        task: placed(submitted.answer, arrival, a),
    })
}

// The seven tasks under a planner, as they were placed.
fn play(rt: &impl Print, planner: u8) -> io::Result<[Task; 7]> {
    let rows = table1::rows();
    let mut board = Board::new(10, 6).board;
    let mut tasks = [tasks::free_slot(); 7];
    for i in 0..7 {
        let moved = played(rt, board, planner, i as u32 + 1, rows[i])?;
        board = moved.board;
        tasks[i] = moved.task;
    }
    println!(rt)?;
    Ok(tasks)
}

// Whether a task holds a column at a tick.
fn is_held(k: Task, tick: u32, column: u32) -> bool
    ensures { result ≡ holds tick column k }
{
    ((k.start <= tick) & ((tick as u64) < k.start as u64 + k.e as u64))
        & ((k.column as u32 <= column) & (column < k.column as u32 + k.w as u32))
}

// The place in the list of the task that holds a column at a tick, if one does.
fn holder(tasks: &[Task; 7], tick: u32, column: u32) -> Option<usize>
    ensures { result ≡ position (holds tick column) tasks.now }
{
    tasks.iter().position(|k| is_held(*k, tick, column))
}

// The mark of a square: the task's number, or a dot.
fn mark_at(tasks: &[Task; 7], tick: u32, column: u32) -> u8
    ensures { result ≡ mark (index_of (holds tick column) tasks.now) }
{
    match holder(tasks, tick, column) {
        Some(place) => b'1' + place as u8,
        None => b'.',
    }
}

// The ten columns at a tick.
fn put_across(line: &mut [u8], at: usize, tasks: &[Task; 7], tick: u32)
    requires { at + 10 ≤ length line.old }
    ensures { line.new ≡ sets line.old at (across tasks.now tick) }
{
    for i in 0..10 {
        line[at + i] = mark_at(tasks, tick, i as u32 + 1);
    }
}

// A tick of the four pictures, side by side.
fn show_tick(rt: &impl Print, tick: u32, pictures: &[[Task; 7]; 4]) -> io::Result<()> {
    let mut line = [b' '; 47];
    for (i, tasks) in pictures.iter().enumerate() {
        put_across(&mut line, i * 12, tasks, tick);
    }
    line[46] = b'\n';
    print!(rt; "  {tick:>2}  ")?;
    rt.write_all(&line)
}

// The planners in the order of their numbers: a name, and what document 01 has for tasks 1 to 7.
const PLANNERS: [(&str, &str); 4] = [
    (
        "reference",
        "(1,0) (4,0) rejected rejected rejected rejected (4,3)",
    ),
    ("horizon", "(1,0) (4,0) (4,3) (7,3) (7,6) (4,15) (4,18)"),
    ("stuffing", "(1,0) (4,0) (4,3) (7,3) (7,6) (4,15) (7,8)"),
    ("full", "(1,0) (4,0) (4,3) (7,3) (7,6) (4,15) (7,8)"),
];

fn main(rt: HostRuntime) -> io::Result<()> {
    println!(rt;
        "Table 1 on 10 x 6: column, start of tasks 1 to 7, as planned here and as document 01 has it"
    )?;
    let mut pictures = [[tasks::free_slot(); 7]; 4];
    for (planner, (name, wanted)) in PLANNERS.iter().enumerate() {
        print!(rt; "{name:<10} here:")?;
        pictures[planner] = play(&rt, planner as u8)?;
        println!(rt; "           01:   {wanted}")?;
    }
    println!(rt;
        "\nWhat each planner did: columns 1 to 10 across, time down; the number of the task that holds the column, a dot where it is free"
    )?;
    println!(rt; "tick  reference   horizon     stuffing    full")?;
    // Tick 0 to 20, where the last task ends.
    for tick in 0..21 {
        show_tick(&rt, tick, &pictures)?;
    }
    Ok(())
}
