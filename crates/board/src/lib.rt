// The board of document 01, its calls and what they answer. The calls test what they are handed and put the answer together;
// the work is done in the crates below.
#![tactic(auto)]

ghost use Rattle.std.specs.Prelude.{◌≡◌, List, ℕ, ◌+◌, ◌≤◌, ◌<◌, length};
ghost use Rattle.tasks.specs.declared.Task.{Task};
ghost use Rattle.live.specs.Live.{Masked};
ghost use Rattle.live.specs.Kept.{Kept, lowest_free};
ghost use Rattle.board.specs.declared.Answer.TheVariants.{Placed};
ghost use Rattle.board.specs.Answers.{told};
ghost use Rattle.board.specs.Refusals.{sound_board};
ghost use Rattle.board.specs.Calls.{fresh_board, created, submitted, clocked, withdrawn, opened, opened_buffer, listed, listed_buffer, counted};
ghost use Rattle.board.specs.Standing.{submitted_booked, board_of, Standing};

use live::{Live, Masks};
use planners::{Place, Window};
use refusals::Refusal;
use tasks::{Device, Submission, Task};

// "A board is a device of W columns and H rows, a clock called now, and at most 64 live tasks." The device has a grid too.
#[derive(Clone, Copy)]
pub struct Board {
    pub tasks: [Task; 64],
    pub now: u32,
    pub device: Device,
}

// "A submission is answered by one of three: a place, a rejection, or a refusal."
// Stays: "Refused with its number" is a form that document 01 names (docs/DECISIONS.md, its last table), and the definitions of the
// calls (`submitted`, `clocked` and the others) and `told` give these numbers, here and as `number` below.
#[derive(Clone, Copy)]
pub enum Answer {
    Rejected,
    Placed {
        column: u16,
        start: u32,
        finish: u32,
    },
    Refused(u8),
}

// Each call hands back the board that follows inside its own answer.
// Stays: three of them have the same fields, and each is the answer struct of its call (document 01), named so by the call's definition.
#[derive(Clone, Copy)]
pub struct Created {
    pub number: u8,
    pub board: Board,
}

#[derive(Clone, Copy)]
pub struct Submitted {
    pub answer: Answer,
    pub board: Board,
}

#[derive(Clone, Copy)]
pub struct Clocked {
    pub number: u8,
    pub board: Board,
}

#[derive(Clone, Copy)]
pub struct Withdrawn {
    pub number: u8,
    pub board: Board,
}

// How many openings were written to the lent buffer, and whether a further one remains.
#[derive(Clone, Copy)]
pub struct Opened {
    pub number: u8,
    pub count: usize,
    pub more: bool,
    pub board: Board,
}

// How many runs of the horizon were written to the lent buffer.
#[derive(Clone, Copy)]
pub struct Listed {
    pub number: u8,
    pub count: usize,
    pub board: Board,
}

// How many columns are held.
#[derive(Clone, Copy)]
pub struct Counted {
    pub number: u8,
    pub count: u32,
    pub board: Board,
}

// The words of the live tasks' columns, for a planner that reads them: not for Horizon, 1, and Stuffing, 2.
fn mark_for<'a>(planner: u8, live: &'a Live, n: usize, masks: &'a mut Masks)
    requires { (n ≤ 64) × (length masks.old ≡ 256) }
    ensures { (planner ≡ 1 → ⊥) → (planner ≡ 2 → ⊥) → Masked n live.now masks.new }
{
    if planner != 1 && planner != 2 {
        sorting::mark(live, n, masks);
    }
}

// What is asked of a planner, or of the openings, for a task.
fn window_of(on: Device, clock: u32, a: Submission) -> Window
    ensures { result ≡ record { width = on.columns; clock = clock; w = a.w; e = a.e; d = a.d } }
{
    Window {
        width: u32::from(on.columns),
        clock,
        w: u32::from(a.w),
        e: a.e,
        d: a.d,
    }
}

// What a task submitted to a sound board is answered, its live tasks lent: 3 to 9, 18, a place, or the rejection. `free` is the
// lowest free slot.
pub fn decide<'a>(
    live: &'a Live,
    masks: &'a Masks,
    count: usize,
    free: usize,
    on: Device,
    clock: u32,
    planner: u8,
    a: Submission,
) -> Answer
    requires { Standing on clock count free planner live.now masks.now }
    ensures { (ks : List Task) → Kept on clock ks count live.now → free ≡ lowest_free ks → result ≡ (submitted (board_of ks clock on) planner a).answer }
{
    let known = keeping::among(live, count, a.id);
    let full = tasks::MOST_TASKS <= free;
    if let Err(refusal) = refusals::refuse_submission(on, clock, planner, a, known, full) {
        return Answer::Refused(u8::from(refusal));
    }
    let found = place::find(planner, live, masks, count, window_of(on, clock, a));
    match found {
        None => Answer::Rejected,
        Some(Place { column, start }) => Answer::Placed {
            column: (column % 65536) as u16,
            start,
            finish: start + a.e,
        },
    }
}

// "A new board has the W and H asked for, now 0 and 64 free slots", and the grid asked for.
fn fresh(on: Device) -> Board
    ensures { result ≡ fresh_board on }
{
    Board {
        tasks: [tasks::free_slot(); 64],
        now: 0,
        device: on,
    }
}

impl Board {
    // A new board on which a task may begin at any column, document 01's: the grid is 1.
    pub fn new(columns: u16, rows: u16) -> Created
        ensures { result ≡ created columns rows 1 }
    {
        Board::with_grid(columns, rows, 1)
    }

    // A new board on a grid; 2 and the board of zeros where W, H or the grid is out of range, or W no multiple of the grid.
    pub fn with_grid(columns: u16, rows: u16, grid: u8) -> Created
        ensures { result ≡ created columns rows grid }
    {
        let on = Device {
            columns,
            rows,
            grid,
        };
        if tasks::device_fits(on) {
            let board = fresh(on);
            return Created { number: 0, board };
        }
        let board = fresh(Device {
            columns: 0,
            rows: 0,
            grid: 0,
        });
        Created {
            number: u8::from(Refusal::BadDevice),
            board,
        }
    }

    // Whether the board is sound, whatever stands in it.
    pub fn is_sound(self) -> bool
        ensures { result ≡ sound_board self }
    {
        soundness::is_sound(self.device, self.now, self.tasks)
    }

    // A task submitted to a planner: 1, 3 to 9, 18; a place, or the rejection.
    pub fn submit(self, planner: u8, a: Submission) -> Submitted
        ensures value { result ≡ submitted self planner a }
        ensures answer_value { told result.answer ≡ told (submitted self planner a).answer }
    {
        let mut live = [0u32; 384];
        let Ok(v) = soundness::test(self.device, self.now, self.tasks, &mut live) else {
            return Submitted {
                answer: Answer::Refused(u8::from(Refusal::Unsound)),
                board: self,
            };
        };
        let mut masks = [0u64; 256];
        mark_for(planner, &live, v.count, &mut masks);
        let free = live::lowest_free(v.used) as usize;
        let answer = decide(
            &live,
            &masks,
            v.count,
            free,
            self.device,
            self.now,
            planner,
            a,
        );
        match answer {
            Answer::Placed { column, start, .. } => self.book(a, free, column, start),
            Answer::Rejected | Answer::Refused(_) => Submitted {
                answer,
                board: self,
            },
        }
    }

    // A task booked into a slot.
    fn book(mut self, a: Submission, slot: usize, column: u16, start: u32) -> Submitted
        requires { (slot < 64) × (start + a.e ≤ 4294967295) }
        ensures { result ≡ submitted_booked self a slot column start }
    {
        self.tasks[slot] = tasks::booked(self.now, a, start, column);
        Submitted {
            answer: Answer::Placed {
                column,
                start,
                finish: start + a.e,
            },
            board: self,
        }
    }

    // The clock moved to an instant: 1, 11, 12.
    pub fn clock(self, instant: u32) -> Clocked
        ensures { result ≡ clocked self instant }
    {
        if !self.is_sound() {
            return Clocked {
                number: u8::from(Refusal::Unsound),
                board: self,
            };
        }
        if let Err(refusal) = refusals::refuse_instant(self.now, instant) {
            return Clocked {
                number: u8::from(refusal),
                board: self,
            };
        }
        Clocked {
            number: 0,
            board: Board {
                tasks: slots::all_aged(self.tasks, instant),
                now: instant,
                ..self
            },
        }
    }

    // A waiting task withdrawn: 1, 13, 14. Where no live task has the id, whether one has begun is not asked: 13 comes first.
    pub fn withdraw(mut self, id: u32) -> Withdrawn
        ensures { result ≡ withdrawn self id }
    {
        if !self.is_sound() {
            return Withdrawn {
                number: u8::from(Refusal::Unsound),
                board: self,
            };
        }
        let found = slots::slot_named(self.tasks, id);
        let begun = match found {
            Some(slot) => !tasks::is_waiting(self.tasks[slot]),
            None => false,
        };
        if let Err(refusal) = refusals::refuse_withdrawal(found.is_some(), begun) {
            return Withdrawn {
                number: u8::from(refusal),
                board: self,
            };
        }
        let slot = found.unwrap();
        self.tasks[slot] = tasks::free_slot();
        Withdrawn {
            number: 0,
            board: self,
        }
    }

    // The openings for a task strictly after a pair, as many as the lent buffer has room for, start and column each: 1, 5, 6, 8, 18.
    pub fn openings(self, a: Submission, start: u32, column: u32, buffer: &mut [u32]) -> Opened
        ensures value { result ≡ opened self a start column (length buffer.old) }
        ensures buffer_after { buffer.new ≡ opened_buffer self a start column buffer.old }
    {
        let mut live = [0u32; 384];
        let mut masks = [0u64; 256];
        let stood = soundness::stand(self.device, self.now, self.tasks, &mut live, &mut masks);
        let Ok(v) = stood else {
            return Opened {
                number: u8::from(Refusal::Unsound),
                count: 0,
                more: false,
                board: self,
            };
        };
        if let Err(refusal) = refusals::refuse_openings(self.device, self.now, a) {
            return Opened {
                number: u8::from(refusal),
                count: 0,
                more: false,
                board: self,
            };
        }
        let filled = openings::list(
            &live,
            &masks,
            v.count,
            window_of(self.device, self.now, a),
            u32::from(self.device.grid),
            start,
            column,
            buffer,
        );
        Opened {
            number: 0,
            count: filled.count,
            more: filled.more,
            board: self,
        }
    }

    // The horizon list in a lent buffer: 1, 17. A refusal leaves every word.
    pub fn horizon(self, buffer: &mut [u32]) -> Listed
        ensures value { result ≡ listed self (length buffer.old) }
        ensures buffer_after { buffer.new ≡ listed_buffer self buffer.old }
    {
        let mut live = [0u32; 384];
        let Ok(v) = soundness::test(self.device, self.now, self.tasks, &mut live) else {
            return Listed {
                number: u8::from(Refusal::Unsound),
                count: 0,
                board: self,
            };
        };
        let room = buffer.len();
        let columns = u32::from(self.device.columns);
        let count = horizon_list::list(&live, v.count, columns, self.now, buffer);
        if room < 3 * count {
            return Listed {
                number: u8::from(Refusal::ShortBuffer),
                count: 0,
                board: self,
            };
        }
        Listed {
            number: 0,
            count,
            board: self,
        }
    }

    // The number of columns held at an instant: 1, 11, 12.
    pub fn busy(self, instant: u32) -> Counted
        ensures { result ≡ counted self instant }
    {
        let mut live = [0u32; 384];
        let Ok(v) = soundness::test(self.device, self.now, self.tasks, &mut live) else {
            return Counted {
                number: u8::from(Refusal::Unsound),
                count: 0,
                board: self,
            };
        };
        if let Err(refusal) = refusals::refuse_instant(self.now, instant) {
            return Counted {
                number: u8::from(refusal),
                count: 0,
                board: self,
            };
        }
        let count = busy::count(&live, v.count, u32::from(self.device.columns), instant);
        Counted {
            number: 0,
            count,
            board: self,
        }
    }
}
