// The benchmark (tests/time/bench.sh): sessions drawn by a small generator. A line of standard input is nine bytes: a digit for the
// planner (for workloads 3, 5, 6 and 7 the board), one for the workload, six for the number of rounds, and the end of the line.
// Each is answered by a checksum.
#![tactic(auto)]

ghost use Rattle.std.specs.Prelude.{◌≤◌};

use board::{Answer, Board};
use std::io;
use std::io::Read;
use tasks::Submission;

// What a session draws from: the least and how much more it may be.
#[derive(Clone, Copy)]
struct Load {
    columns: u16,
    w: u16,
    w_more: u16,
    e: u16,
    e_more: u16,
    laxity_more: u16,
    step_more: u16,
}

// 0: the source's section 5.1. 1: a wide device, about 30 live tasks. 2: the slots nearly full.
// Stays: workloads and planners are digits of a line of standard input: an enum would be made of the digit by one match, and
// told apart by the same match again.
fn drawing(workload: u8) -> Load {
    match workload {
        0 => Load {
            columns: 96,
            w: 7,
            w_more: 15,
            e: 5,
            e_more: 95,
            laxity_more: 49,
            step_more: 8,
        },
        1 => Load {
            columns: 256,
            w: 1,
            w_more: 39,
            e: 5,
            e_more: 195,
            laxity_more: 199,
            step_more: 5,
        },
        _ => Load {
            columns: 256,
            w: 1,
            w_more: 7,
            e: 200,
            e_more: 800,
            laxity_more: 499,
            step_more: 18,
        },
    }
}

// The generator's next number, below 2 to the 31.
fn next(seed: u64) -> u64 {
    (seed % 2_147_483_648 * 1_103_515_245 + 12_345) % 2_147_483_648
}

// The five numbers of a round.
fn draws(seed: u64) -> [u64; 5] {
    let a = next(seed);
    let b = next(a);
    let c = next(b);
    let d = next(c);
    [a, b, c, d, next(d)]
}

fn pick(drawn: u64, least: u16, more: u16) -> u32
    ensures { result ≤ 131070 }
{
    let x = (drawn / 1024 % 2_097_152) as u32;
    u32::from(least) + x % (u32::from(more) + 1) % 65536
}

fn later(clock: u32, ticks: u32) -> u32 {
    ((u64::from(clock) + u64::from(ticks)) % 2_000_000_001) as u32
}

fn asked(s: [u64; 5], l: Load, clock: u32, id: u32) -> Submission {
    let e = pick(s[1], l.e, l.e_more);
    let laxity = pick(s[2], 1, l.laxity_more);
    Submission {
        id,
        e,
        d: later(clock, e + laxity),
        w: (pick(s[3], l.w, l.w_more) % 65536) as u16,
        h: (pick(s[4], 7, 15) % 65536) as u16,
    }
}

// An answer mixed into the checksum.
fn mixed(sum: u64, answer: Answer) -> u64 {
    let base = sum % 1_000_000_007 * 31;
    match answer {
        Answer::Rejected => base + 10,
        Answer::Refused(number) => base + u64::from(number),
        Answer::Placed {
            column,
            start,
            finish,
        } => base + u64::from(column) * 7 + u64::from(start) + u64::from(finish),
    }
}

// A session: the clock moved on, a task submitted.
fn session(planner: u8, l: Load, rounds: u32) -> u64 {
    let mut board = Board::new(l.columns, 64).board;
    let mut seed: u64 = 1;
    let mut sum: u64 = 0;
    let mut clock: u32 = 0;
    for round in 0..rounds {
        let s = draws(seed);
        seed = s[4];
        clock = later(clock, pick(s[0], 0, l.step_more));
        let a = asked(s, l, clock, round + 1);
        let submitted = board.clock(clock).board.submit(planner, a);
        sum = mixed(sum, submitted.answer);
        board = submitted.board;
    }
    sum
}

// Every eighth task stays long, the others end one after the other.
fn stay(i: u32) -> u32 {
    if i % 8 == 0 {
        return 1_000_000;
    }
    1000 + i % 64 * 16
}

// A board of 256 columns on a grid, with so many tasks, four columns each, side by side.
fn filled(count: u32, grid: u8) -> Board {
    let mut board = Board::with_grid(256, 64, grid).board;
    for i in 1..=count {
        let a = Submission {
            id: i,
            e: stay(i),
            d: 10_000_000,
            w: 4,
            h: 1,
        };
        board = board.submit(3, a).board;
    }
    board
}

// 3: the soundness test alone, of so many live tasks.
fn tested(count: u32, rounds: u32) -> u64 {
    let mut board = filled(count, 1);
    let mut sum: u64 = 0;
    for round in 0..rounds {
        board.now = round % 8;
        sum = sum % 1_000_000_007 + u64::from(board.is_sound());
    }
    sum
}

fn wanted(w: u16, e: u32, d: u32) -> Submission {
    Submission {
        id: 1000,
        e,
        d,
        w,
        h: 1,
    }
}

// 4: a task that fits nowhere among 63 others.
fn stuck(planner: u8, rounds: u32) -> u64 {
    let mut board = filled(63, 1);
    let mut sum: u64 = 0;
    for round in 0..rounds {
        let submitted = board.submit(planner, wanted(33, 50 + round % 8, 500_000));
        sum = mixed(sum, submitted.answer);
        board = submitted.board;
    }
    sum
}

fn empty() -> Board {
    Board::new(256, 64).board
}

// A board of 256 columns and 64 tasks of drawn sizes, placed by Full: 34 of them wait, the last ends at tick 2072.
fn scattered() -> Board {
    let mut board = empty();
    let mut seed: u64 = 1;
    for i in 1..=64 {
        let s = draws(seed);
        seed = s[4];
        let a = Submission {
            id: i,
            e: pick(s[1], 200, 800),
            d: 10_000_000,
            w: (pick(s[3], 1, 15) % 65536) as u16,
            h: 1,
        };
        board = board.submit(3, a).board;
    }
    board
}

// A board of 256 columns late in its life, all of them held by 64 tasks one after the other, up to tick 1,996,399,999.
fn walled() -> Board {
    let mut board = empty().clock(1_989_999_999).board;
    for id in 1..=64 {
        let a = Submission {
            id,
            ..wanted(256, 100_000, 2_000_000_000)
        };
        board = board.submit(3, a).board;
    }
    board
}

// A word of a lent buffer, 0 past its end.
fn word(buffer: &[u32], i: usize) -> u32 {
    buffer.get(i).copied().unwrap_or(0)
}

// All words of a lent buffer.
fn total(buffer: &[u32]) -> u64 {
    buffer
        .iter()
        .fold(0, |sum, &word| sum % 1_000_000_007 * 31 + u64::from(word))
}

// A start and a column.
#[derive(Clone, Copy, Default)]
struct Pair {
    start: u32,
    column: u32,
}

// The last pair that was written.
fn last_pair(buffer: &[u32], count: usize) -> Pair {
    if count == 0 || 8192 < count {
        return Pair::default();
    }
    Pair {
        start: word(buffer, count * 2 - 2),
        column: word(buffer, count * 2 - 1),
    }
}

// An answer to a request for openings mixed into the checksum, with the last pair that was written.
fn counted(sum: u64, count: usize, more: bool, last: Pair) -> u64 {
    let base = sum % 1_000_000_007 * 31 + count as u64 % 65536 * 5 + u64::from(more) * 3;
    base + u64::from(last.start) + u64::from(last.column) * 7
}

// Openings asked for again and again. `on`: those after the last pair given while a further one remains; else always the same
// ones. The words that stand in the buffer in the end are in the sum.
fn asking(
    standing: Board,
    a: Submission,
    from: Pair,
    on: bool,
    buffer: &mut [u32],
    rounds: u32,
) -> u64 {
    let clock = standing.now;
    let mut board = standing;
    let mut pair = from;
    let mut sum: u64 = 0;
    for round in 0..rounds {
        board.now = later(clock, round % 8);
        let opened = board.openings(a, pair.start, pair.column, buffer);
        let last = last_pair(buffer, opened.count);
        sum = counted(sum, opened.count, opened.more, last);
        pair = if on && opened.more { last } else { from };
        board = opened.board;
    }
    sum % 1_000_000_007 + total(buffer) % 1_000_000_007
}

fn paged(standing: Board, a: Submission, rounds: u32) -> u64 {
    let mut buffer = [0u32; 16384];
    asking(standing, a, Pair::default(), true, &mut buffer, rounds)
}

fn first(standing: Board, a: Submission, start: u32, column: u32, rounds: u32) -> u64 {
    let mut buffer = [0u32; 2];
    asking(
        standing,
        a,
        Pair { start, column },
        false,
        &mut buffer,
        rounds,
    )
}

// 5: openings into a large buffer. Empty; 64 live tasks, until the last has ended; empty and a wide task.
fn pages(board: u8, rounds: u32) -> u64 {
    match board {
        0 => paged(empty(), wanted(1, 1, 10_000_001), rounds),
        1 => paged(scattered(), wanted(4, 20, 2092), rounds),
        _ => paged(empty(), wanted(33, 1, 10_000_001), rounds),
    }
}

// 6: the first opening. Empty; 64 live tasks; all columns held for 6,400,000 ticks; only the one at 1,999,999,999 left.
fn firsts(board: u8, rounds: u32) -> u64 {
    match board {
        0 => first(empty(), wanted(1, 1, 10_000_001), 0, 0, rounds),
        1 => first(scattered(), wanted(8, 20, 10_000_020), 0, 0, rounds),
        2 => first(walled(), wanted(1, 1, 2_000_000_000), 0, 0, rounds),
        _ => first(
            walled(),
            wanted(256, 1, 2_000_000_000),
            1_999_999_998,
            1,
            rounds,
        ),
    }
}

// 7: a whole list of openings, in one column a step and in several. Empty, a task of 16 columns: 1 and 16 a step; 32 live tasks of
// four columns and one more: 1 and 4 a step.
fn stepped(board: u8, rounds: u32) -> u64 {
    match board {
        0 => paged(filled(0, 1), wanted(16, 1, 33), rounds),
        1 => paged(filled(0, 16), wanted(16, 1, 33), rounds),
        2 => paged(filled(32, 1), wanted(4, 1, 60), rounds),
        _ => paged(filled(32, 4), wanted(4, 1, 60), rounds),
    }
}

fn live(planner: u8) -> u32 {
    match planner {
        0 => 0,
        1 => 16,
        2 => 32,
        _ => 64,
    }
}

fn run(planner: u8, workload: u8, rounds: u32) -> u64 {
    match workload {
        0..=2 => session(planner, drawing(workload), rounds),
        3 => tested(live(planner), rounds),
        5 => pages(planner, rounds),
        6 => firsts(planner, rounds),
        7 => stepped(planner, rounds),
        _ => stuck(planner, rounds),
    }
}

// A digit is the low half of its byte.
fn digit(byte: u8) -> u8
    ensures { result ≤ 15 }
{
    byte % 16
}

fn more(x: u32, byte: u8) -> u32 {
    x % 100_000 * 10 + u32::from(digit(byte))
}

// One line read and answered; false where there is none.
fn answered(rt: &impl Print, lines: &mut impl Read) -> io::Result<bool> {
    let mut line = [0u8; 9];
    if lines.read_exact(&mut line).is_err() {
        return Ok(false);
    }
    let planner = digit(line[0]);
    let workload = digit(line[1]);
    let rounds = line[2..8].iter().fold(0, |x, &byte| more(x, byte));
    let sum = run(planner, workload, rounds);
    println!(rt; "{planner} {workload} {sum}")?;
    Ok(true)
}

fn main(rt: HostRuntime) -> io::Result<()> {
    let mut lines = rt.stdin();
    for _ in 0..1000 {
        if !answered(&rt, &mut lines)? {
            break;
        }
    }
    Ok(())
}
