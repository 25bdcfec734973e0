// The run of a recording. The board that it is handed is tested once; inside, soundness is carried by proof. No board is copied: the
// live tasks stand in one table, and the records are brought up to the clock at the end.
#![tactic(auto)]

ghost use Rattle.std.specs.Prelude.{◌≡◌, [], ◌∷◌, ◌+◌, ◌-◌, ◌*◌, ◌≤◌, ◌<◌, length};
ghost use Rattle.std.proofs.lemmas.List.Edits.{sets};
ghost use Rattle.tasks.specs.declared.Task.{Task};
ghost use Rattle.session.specs.Recording.{most_events, room_for, ran, ran_buffer};
ghost use Rattle.steps.specs.Standing.{as_booked};

use board::Board;
use steps::{Brief, Change, State};
use tasks::Task;

// "it also stops, without a line, after 1,000,000,000 events".
pub const MOST_EVENTS: u32 = 1_000_000_000;

// How a recording ends: not yet; after a whole record; in 15 or 16, with the kind byte; at the last event that may be, with no
// byte after it, or with one.
// Stays: `NotYet` stands among the ends and is no Option's none, since what tells of an end (`reader::close`) gives them all as one.
#[derive(Clone, Copy)]
pub enum Ending {
    NotYet,
    AtEnd,
    In15(u8),
    In16(u8),
    AtLast,
    PastLast,
}

// How many whole records were taken, their bytes, and the state that follows.
#[derive(Clone, Copy)]
pub struct Ran {
    pub count: usize,
    pub taken: usize,
    pub state: State,
}

// "event number from 1, kind, answer, column, start, finish"
pub fn put_line(
    answers: &mut [u32],
    at: usize,
    event: u32,
    kind: u8,
    number: u8,
    column: u16,
    start: u32,
    finish: u32,
)
    requires { at + 6 ≤ length answers.old }
    ensures { answers.new ≡ sets answers.old at (event ∷ kind ∷ number ∷ column ∷ start ∷ finish ∷ []) }
{
    // Stays: six stores; an array copied into the part is no shorter, and took 30 instructions more an event (`plan`, 200,000 events).
    answers[at] = event;
    answers[at + 1] = u32::from(kind);
    answers[at + 2] = u32::from(number);
    answers[at + 3] = u32::from(column);
    answers[at + 4] = start;
    answers[at + 5] = finish;
}

// How many events more: six words a line, and 1,000,000,000 events in all.
pub fn room(words: usize, number: u32) -> usize
    ensures { result ≡ room_for words number }
{
    (words / 6).min(MOST_EVENTS.saturating_sub(number) as usize)
}

// The records brought up to the clock.
fn brought(tasks: [Task; 64], d: Brief) -> [Task; 64]
    ensures { result ≡ as_booked d tasks }
{
    if d.found.is_some() {
        return slots::all_aged(tasks, d.clock);
    }
    tasks
}

// A recording's whole records from a state on, of which `number` events are done: six words a line into the lent buffer. It stops
// before a record that is cut short or of no known kind; `events::read_at` tells its caller which.
pub fn run(state: State, number: u32, bytes: &[u8], answers: &mut [u32]) -> Ran
    ensures value { result ≡ ran state number bytes.now (length answers.old) }
    ensures answers_after { answers.new ≡ ran_buffer state number bytes.now answers.old }
    ensures count_in_bounds { (result.count * 6 ≤ length answers.old) × (result.taken ≤ length bytes.now) × (number ≤ most_events → number + result.count ≤ most_events) }
{
    let board = state.board;
    let mut tasks = board.tasks;
    let on = board.device;
    let mut live = [0u32; 384];
    let mut masks = [0u64; 256];
    let stood = soundness::stand(on, board.now, tasks, &mut live, &mut masks);
    let mut d = Brief {
        clock: board.now,
        device: on,
        found: stood.ok(),
    };
    let most = room(answers.len(), number);
    let mut at: usize = 0;
    let mut count: usize = 0;
    for n in 0..most {
        let Ok(Some((event, size))) = events::read_at(bytes, at) else {
            break;
        };
        let r = steps::answered(&mut live, &mut masks, d, event);
        put_line(
            answers,
            n * 6,
            number + n as u32 + 1,
            events::kind_of(event),
            r.number,
            r.column,
            r.start,
            r.finish,
        );
        d = r.brief;
        at += size;
        count = n + 1;
        match r.change {
            Change::Nothing => {}
            Change::Booked { slot, task } => tasks[slot] = task,
            Change::Freed { slot } => tasks[slot] = tasks::free_slot(),
            Change::Cleared => tasks = [tasks::free_slot(); 64],
        }
    }
    let state = State {
        board: Board {
            tasks: brought(tasks, d),
            now: d.clock,
            device: d.device,
        },
    };
    Ran {
        count,
        taken: at,
        state,
    }
}
