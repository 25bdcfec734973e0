// What each event does to the board inside a run. Soundness is carried by proof, and no board is copied: its live tasks stand in the
// table that the planners read.
#![tactic(auto)]

ghost use Rattle.std.specs.Prelude.{◌≡◌, List};
ghost use Rattle.tasks.specs.declared.Task.{Task};
ghost use Rattle.events.specs.declared.Event.TheVariants.{Clock, Withdraw};
ghost use Rattle.steps.specs.declared.Change.TheVariants.{Cleared};
ghost use Rattle.steps.specs.Outcomes.{first_state, board_outcome, submit_outcome, outcome};
ghost use Rattle.steps.specs.Standing.{state_of, Keeps, Has, Follows};

use board::{Answer, Board};
use events::Event;
use live::{Live, Masks};
use refusals::Refusal;
use survey::Findings;
use tasks::{Device, Submission, Task};

// The state of a run: what one event hands on to the next.
#[derive(Clone, Copy)]
pub struct State {
    pub board: Board,
}

// "begins with an unsound board of zeros".
pub fn first_state() -> State
    ensures { result ≡ first_state }
{
    State {
        board: Board::new(0, 0).board,
    }
}

// The board inside a run in brief, without its slots: what stands in them where it is sound.
#[derive(Clone, Copy)]
pub struct Brief {
    pub clock: u32,
    pub device: Device,
    pub found: Option<Findings>,
}

// What an event changed in the slots.
#[derive(Clone, Copy)]
pub enum Change {
    Nothing,
    Booked { slot: usize, task: Task },
    Freed { slot: usize },
    Cleared,
}

// What an event did: document 01's number and values, the board in brief that follows, and what changed in the slots.
// Stays: the number as document 01 has it, and zeros where there is no place: they are the words of the event's line.
#[derive(Clone, Copy)]
pub struct Done {
    pub number: u8,
    pub column: u16,
    pub start: u32,
    pub finish: u32,
    pub brief: Brief,
    pub change: Change,
}

// A number without a place.
fn bare(number: u8, d: Brief, change: Change) -> Done
    ensures { result ≡ record { number = number; column = 0; start = 0; finish = 0; brief = d; change = change } }
{
    Done {
        number,
        column: 0,
        start: 0,
        finish: 0,
        brief: d,
        change,
    }
}

// A board without a task.
fn empty(number: u8, on: Device, found: Option<Findings>) -> Done
    ensures { result ≡ record { number = number; column = 0; start = 0; finish = 0; brief = record { clock = 0; device = on; found = found }; change = Cleared } }
{
    bare(
        number,
        Brief {
            clock: 0,
            device: on,
            found,
        },
        Change::Cleared,
    )
}

// A new board on a grid; 2 and the board of zeros where W, H or the grid is out of range, or W no multiple of the grid.
fn new_board<'a>(
    live: &'a Live,
    masks: &'a Masks,
    d: Brief,
    columns: u16,
    rows: u16,
    grid: u8,
) -> Done
    requires { Has d live.now masks.now }
    ensures { (ks : List Task) → Keeps d ks live.now masks.now → Follows d ks (board_outcome (state_of ks d) columns rows grid) result live.now masks.now }
{
    let on = Device {
        columns,
        rows,
        grid,
    };
    if tasks::device_fits(on) {
        return empty(0, on, Some(Findings { count: 0, used: 0 }));
    }
    empty(
        u8::from(Refusal::BadDevice),
        Device {
            columns: 0,
            rows: 0,
            grid: 0,
        },
        None,
    )
}

// The clock moved to an instant: the tasks that have finished are the last ones.
fn clock<'a>(live: &'a Live, masks: &'a Masks, d: Brief, instant: u32) -> Done
    requires { Has d live.now masks.now }
    ensures { (ks : List Task) → Keeps d ks live.now masks.now → Follows d ks (outcome (state_of ks d) (Clock instant)) result live.now masks.now }
{
    let Some(v) = d.found else {
        return bare(u8::from(Refusal::Unsound), d, Change::Nothing);
    };
    if let Err(refusal) = refusals::refuse_instant(d.clock, instant) {
        return bare(u8::from(refusal), d, Change::Nothing);
    }
    let count = live::after(live, v.count, instant);
    let used = keeping::without_slots(live, v.used, count, v.count);
    bare(
        0,
        Brief {
            clock: instant,
            found: Some(Findings { count, used }),
            ..d
        },
        Change::Nothing,
    )
}

// A waiting task withdrawn. Where no live task has the id, whether one has begun is not asked: 13 comes first.
fn withdraw<'a>(live: &'a mut Live, masks: &'a mut Masks, d: Brief, id: u32) -> Done
    requires { Has d live.old masks.old }
    ensures { (ks : List Task) → Keeps d ks live.old masks.old → Follows d ks (outcome (state_of ks d) (Withdraw id)) result live.new masks.new }
{
    let Some(v) = d.found else {
        return bare(u8::from(Refusal::Unsound), d, Change::Nothing);
    };
    let place = keeping::find(live, v.count, id);
    let begun = match place {
        Some(i) => live[live::FROM + i] <= d.clock,
        None => false,
    };
    if let Err(refusal) = refusals::refuse_withdrawal(place.is_some(), begun) {
        return bare(u8::from(refusal), d, Change::Nothing);
    }
    let i = place.unwrap();
    let slot = live[live::SLOT + i];
    keeping::remove(live, masks, v.count, i);
    let left = Findings {
        count: v.count - 1,
        used: live::without_slot(v.used, slot),
    };
    bare(
        0,
        Brief {
            found: Some(left),
            ..d
        },
        Change::Freed {
            slot: slot as usize,
        },
    )
}

// A task submitted to a planner, and booked where it is placed.
fn submit<'a>(
    live: &'a mut Live,
    masks: &'a mut Masks,
    d: Brief,
    planner: u8,
    a: Submission,
) -> Done
    requires { Has d live.old masks.old }
    ensures { (ks : List Task) → Keeps d ks live.old masks.old → Follows d ks (submit_outcome (state_of ks d) planner a) result live.new masks.new }
{
    let Some(v) = d.found else {
        return bare(u8::from(Refusal::Unsound), d, Change::Nothing);
    };
    let free = live::lowest_free(v.used);
    let slot = free as usize;
    let answer = board::decide(live, masks, v.count, slot, d.device, d.clock, planner, a);
    match answer {
        Answer::Rejected => bare(10, d, Change::Nothing),
        Answer::Refused(number) => bare(number, d, Change::Nothing),
        Answer::Placed {
            column,
            start,
            finish,
        } => {
            let task = tasks::booked(d.clock, a, start, column);
            keeping::insert(live, masks, v.count, free, task);
            let more = Findings {
                count: v.count + 1,
                used: live::with_slot(v.used, free),
            };
            Done {
                number: 0,
                column,
                start,
                finish,
                brief: Brief {
                    found: Some(more),
                    ..d
                },
                change: Change::Booked { slot, task },
            }
        }
    }
}

// What an event did.
pub fn answered<'a>(live: &'a mut Live, masks: &'a mut Masks, d: Brief, event: Event) -> Done
    requires { Has d live.old masks.old }
    ensures { (ks : List Task) → Keeps d ks live.old masks.old → Follows d ks (outcome (state_of ks d) event) result live.new masks.new }
{
    match event {
        Event::NewBoard { columns, rows } => new_board(live, masks, d, columns, rows, 1),
        Event::Submit { planner, ask } => submit(live, masks, d, planner, ask.into()),
        Event::Clock { instant } => clock(live, masks, d, instant),
        Event::Withdraw { id } => withdraw(live, masks, d, id),
        Event::GridBoard {
            columns,
            rows,
            grid,
        } => new_board(live, masks, d, columns, rows, grid),
    }
}
