// Where the list of openings looks next, and a run of openings written.
#![tactic(auto)]

ghost use Rattle.std.specs.Prelude.{◌≡◌, ℕ, ◌+◌, ◌*◌, ◌≤◌, ◌<◌, max, min, length};
ghost use Rattle.std.proofs.lemmas.List.Edits.{sets};
ghost use Rattle.planners.specs.Lent.{Rounded, run_at};
ghost use Rattle.planners.specs.Openings.{pair_numbers};
ghost use Rattle.live.specs.Live.{Falling, After};
ghost use Rattle.looking.specs.Looking.{Stopped, NextTick};

use live::Live;

// The openings at t from column `from` up to, not including, `to`, a step apart: start and column of each, from the word `at` on. The
// word after the last.
fn put_steps(buffer: &mut [u32], at: usize, t: u32, from: u32, to: u32, step: u32) -> usize
    requires { ((k : ℕ) × (to ≡ from + k * step) × (at + 2 * k ≤ length buffer.old)) × (1 ≤ step) × (to ≤ 512) }
    ensures { (k : ℕ) → to ≡ from + k * step → (result ≡ at + 2 * k) × (buffer.new ≡ sets buffer.old at (pair_numbers (run_at t step from k))) }
{
    // Stays: two numbers go on here, each by a step of its own, and stored so four openings go out at a time.
    let mut i = at;
    let mut c = from;
    while c < to {
        buffer[i] = t;
        buffer[i + 1] = c;
        i += 2;
        c += step;
    }
    i
}

// The same, with a loop of its own for a step of one column: compiled so, four openings are stored at a time, in half the time.
pub fn put_run(buffer: &mut [u32], at: usize, t: u32, from: u32, to: u32, step: u32) -> usize
    requires { ((k : ℕ) × (to ≡ from + k * step) × (at + 2 * k ≤ length buffer.old)) × (1 ≤ step) × (to ≤ 512) }
    ensures { (k : ℕ) → to ≡ from + k * step → (result ≡ at + 2 * k) × (buffer.new ≡ sets buffer.old at (pair_numbers (run_at t step from k))) }
{
    if step == 1 {
        return put_steps(buffer, at, t, from, to, 1);
    }
    put_steps(buffer, at, t, from, to, step)
}

// Where to stop: of the openings from `from` up to `to`, a step apart, as many as there is room for.
pub fn stop(from: u32, to: u32, room: usize, step: u32) -> u32
    requires { (1 ≤ step) × (step ≤ 256) × (from ≤ 256) × (from < to) × (to ≤ from + 256) × (1 ≤ room) }
    ensures { (k : ℕ) → to ≡ from + k * step → Stopped from to room step result }
{
    (from + room.min(256) as u32 * step).min(to)
}

// The first tick to look at: none before now.
pub fn from_tick(clock: u32, s: u32) -> u32
    ensures { result ≡ max clock s }
{
    clock.max(s)
}

// The column after which to look there, rounded up to the grid: no task begins between. No task begins past the device's last column.
pub fn from_column(clock: u32, s: u32, c: u32, width: u32, step: u32) -> u32
    requires { (width ≤ 256) × (1 ≤ step) × (step ≤ 256) }
    ensures { (s < clock → result ≡ 0) × (clock ≤ s → Rounded step (min c width) result) }
{
    if s < clock {
        0
    } else {
        c.min(width).next_multiple_of(step)
    }
}

// Where to look when nothing more is open at t after a column; the first n tasks are those that finish after t.
pub fn next_tick(live: &Live, n: usize, t: u32, column: u32) -> u32
    requires { (n ≤ 64) × (t < 4294967295) }
    ensures { (count : ℕ) → Falling count live.now → After live.now count t n → NextTick live.now count t column result }
{
    if 0 < column {
        t + 1
    } else {
        live::next_finish(live, n)
    }
}
