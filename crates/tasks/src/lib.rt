// The task's own record: what a slot of the board holds, and what a submission asks for.
#![tactic(auto)]

ghost use Rattle.std.specs.Prelude.{◌≡◌, ◌&&◌, ◌+◌};
ghost use Rattle.tasks.specs.Numbers.{within, multiple, may_begin, device_fits, size_fits, time_fits};
ghost use Rattle.tasks.specs.Tasks.{live, waiting_phase, same_phase, phase_at, stamped, free_slot, zeros, booked};

// The limits of document 01, "Numbers": each once.
pub const MOST_COLUMNS: u16 = 256;

pub const MOST_ROWS: u16 = 1024;

pub const MOST_GRID: u8 = 16;

pub const LONGEST: u32 = 1_000_000;

pub const LAST_INSTANT: u32 = 2_000_000_000;

pub const LARGEST_ID: u32 = 4_294_967_295;

pub const MOST_TASKS: usize = 64;

pub const LAST_PLANNER: u8 = 3;

// The columns and rows of a board, and the grid on which its columns come: what a task has to fit.
#[derive(Clone, Copy)]
pub struct Device {
    pub columns: u16,
    pub rows: u16,
    pub grid: u8,
}

// "each record carries its phase: waiting, running or ended". Ended is first: a free slot is then all zeros.
#[derive(Clone, Copy, PartialEq, Eq)]
pub enum Phase {
    Ended,
    Waiting,
    Running,
}

// "A record holds id, w, h, e, d, column, start and phase." Largest fields first: the record then has no holes (24 bytes).
#[derive(Clone, Copy)]
pub struct Task {
    pub id: u32,
    pub e: u32,
    pub d: u32,
    pub start: u32,
    pub w: u16,
    pub h: u16,
    pub column: u16,
    pub phase: Phase,
}

// What is asked of a planner or of the openings call, which does not read the id.
#[derive(Clone, Copy)]
pub struct Submission {
    pub id: u32,
    pub e: u32,
    pub d: u32,
    pub w: u16,
    pub h: u16,
}

// Waiting or running.
pub fn is_live(k: Task) -> bool
    ensures { result ≡ live k }
{
    k.phase != Phase::Ended
}

// It has not begun to hold its columns.
pub fn is_waiting(k: Task) -> bool
    ensures { result ≡ waiting_phase k.phase }
{
    k.phase == Phase::Waiting
}

// Zeros and the phase ended.
pub fn free_slot() -> Task
    ensures { result ≡ free_slot }
{
    Task {
        id: 0,
        e: 0,
        d: 0,
        start: 0,
        w: 0,
        h: 0,
        column: 0,
        phase: Phase::Ended,
    }
}

// Every number of the record is 0.
// Stays: `==` with a free slot would read the phase too, which `zeros` does not.
#[tactic(auto, unfolding(crate::specs::Tasks::zeros))]
pub fn is_zeros(k: Task) -> bool
    ensures { result ≡ zeros k }
{
    (k.id == 0)
        & (k.e == 0)
        & (k.d == 0)
        & (k.start == 0)
        & (k.w == 0)
        & (k.h == 0)
        & (k.column == 0)
}

// "its finish s + e", "summed without wrap".
fn finish(start: u32, e: u32) -> u64
    ensures { result ≡ start + e }
{
    u64::from(start) + u64::from(e)
}

// The phase that the record has at an instant.
#[tactic(auto, unfolding(crate::specs::Tasks::phase_at))]
fn phase_at(k: Task, instant: u32) -> Phase
    ensures { result ≡ phase_at instant k }
{
    if instant < k.start {
        Phase::Waiting
    } else if u64::from(instant) < finish(k.start, k.e) {
        Phase::Running
    } else {
        Phase::Ended
    }
}

// Whether the record's phase is the one that it has at an instant.
pub fn in_phase(k: Task, instant: u32) -> bool
    ensures { result ≡ same_phase k.phase (phase_at instant k) }
{
    k.phase == phase_at(k, instant)
}

// The record with the phase that it has at an instant.
#[tactic(auto, unfolding(crate::specs::Tasks::stamped))]
pub fn stamp(k: Task, instant: u32) -> Task
    ensures { result ≡ stamped instant k }
{
    Task {
        phase: phase_at(k, instant),
        ..k
    }
}

// Whether n is a multiple of the grid. Only a device that is refused has the grid 0; a grid of 1, document 01's, takes no division.
fn is_multiple(grid: u8, n: u16) -> bool
    ensures { result ≡ multiple grid n }
{
    if grid == 1 {
        return true;
    }
    if grid == 0 {
        return n == 0;
    }
    n % u16::from(grid) == 0
}

// Whether a task may begin at a column: "only where c − 1 is a multiple of g".
fn may_begin(grid: u8, column: u16) -> bool
    ensures { result ≡ may_begin grid column }
{
    if column == 0 {
        return true;
    }
    is_multiple(grid, column - 1)
}

// Whether w columns from a column on are whole steps of the grid. A grid of 1 takes one branch: this is asked of every live task.
pub fn in_steps(grid: u8, column: u16, w: u16) -> bool
    ensures { result ≡ (multiple grid w && may_begin grid column) }
{
    if grid == 1 {
        return true;
    }
    let width = is_multiple(grid, w);
    let begins = may_begin(grid, column);
    width & begins
}

// "W 1 to 256; H 1 to 1,024"; "a grid g from 1 to 16", W a multiple of it.
pub fn device_fits(on: Device) -> bool
    ensures { result ≡ device_fits on }
{
    let stepped = is_multiple(on.grid, on.columns);
    ((1 <= on.columns) & (on.columns <= MOST_COLUMNS))
        & ((1 <= on.rows) & (on.rows <= MOST_ROWS))
        & ((1 <= on.grid) & (on.grid <= MOST_GRID))
        & stepped
}

// "Width 1 to W; height 1 to H".
pub fn size_in_range(on: Device, w: u16, h: u16) -> bool
    ensures { result ≡ (within 1 on.columns w && within 1 on.rows h) }
{
    ((1 <= w) & (w <= on.columns)) & ((1 <= h) & (h <= on.rows))
}

// And the width a multiple of the grid.
pub fn size_fits(on: Device, w: u16, h: u16) -> bool
    ensures { result ≡ size_fits on w h }
{
    let within = size_in_range(on, w, h);
    let stepped = is_multiple(on.grid, w);
    within & stepped
}

// "execution e 1 to 1,000,000; deadline d .. 0 to 2,000,000,000".
pub fn time_fits(e: u32, d: u32) -> bool
    ensures { result ≡ time_fits e d }
{
    ((1 <= e) & (e <= LONGEST)) & (d <= LAST_INSTANT)
}

// The record as submitted with the column and start answered, in the phase that it has at now.
#[tactic(auto, unfolding(crate::specs::Tasks::booked))]
pub fn booked(clock: u32, a: Submission, start: u32, column: u16) -> Task
    ensures { result ≡ booked clock a start column }
{
    stamp(
        Task {
            id: a.id,
            e: a.e,
            d: a.d,
            start,
            w: a.w,
            h: a.h,
            column,
            phase: Phase::Ended,
        },
        clock,
    )
}
