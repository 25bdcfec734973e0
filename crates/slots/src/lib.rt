// The 64 slots of a board: whether each by itself is sound, which has an id, and what the clock makes of them.
#![tactic(auto)]

ghost use Rattle.std.specs.Prelude.{◌≡◌, ◌≤◌, position};
ghost use Rattle.tasks.specs.declared.Task.{Task};
ghost use Rattle.slots.specs.Slots.{task_sound, slot_sound, aged_to, all_aged_to, named};

use tasks::{Device, Task};

// A live task within the numbers, on the grid, done by its deadline and not before now, in the phase that it has at now.
fn task_sound(on: Device, now: u32, k: Task) -> bool
    ensures { result ≡ task_sound on now k }
{
    let size = tasks::size_in_range(on, k.w, k.h);
    let time = tasks::time_fits(k.e, k.d);
    let on_grid = tasks::in_steps(on.grid, k.column, k.w);
    let phase = tasks::in_phase(k, now);
    ((1 <= k.id) & (k.id <= tasks::LARGEST_ID))
        & size
        & time
        & (1 <= k.column)
        & (u32::from(k.column) + u32::from(k.w) <= u32::from(on.columns) + 1)
        & on_grid
        & (u64::from(k.start) + u64::from(k.e) <= u64::from(k.d))
        & (u64::from(now) < u64::from(k.start) + u64::from(k.e))
        & phase
}

// A live task that is sound, or a free slot of zeros.
#[tactic(auto, unfolding(crate::specs::Slots::slot_sound))]
pub fn slot_sound(on: Device, now: u32, k: Task) -> bool
    ensures { result ≡ slot_sound on now k }
{
    if tasks::is_live(k) {
        task_sound(on, now, k)
    } else {
        tasks::is_zeros(k)
    }
}

// A slot at an instant: a task that has finished leaves it free, another has the phase of the instant.
#[tactic(auto, unfolding(crate::specs::Slots::aged_to))]
fn aged(k: Task, instant: u32) -> Task
    ensures { result ≡ aged_to instant k }
{
    if tasks::is_live(k) {
        if u64::from(k.start) + u64::from(k.e) <= u64::from(instant) {
            return tasks::free_slot();
        }
        return tasks::stamp(k, instant);
    }
    k
}

// Every slot at an instant.
#[tactic(auto, unfolding(crate::specs::Slots::all_aged_to))]
pub fn all_aged(tasks: [Task; 64], instant: u32) -> [Task; 64]
    ensures { result ≡ all_aged_to instant tasks }
{
    let mut next = tasks;
    for k in next.iter_mut() {
        *k = aged(*k, instant);
    }
    next
}

#[tactic(auto, unfolding(crate::specs::Slots::named))]
fn is_named(k: Task, id: u32) -> bool
    ensures { result ≡ named id k }
{
    let live = tasks::is_live(k);
    live & (k.id == id)
}

// The slot of the live task of that id, if there is one.
pub fn slot_named(tasks: [Task; 64], id: u32) -> Option<usize>
    ensures { result ≡ position (named id) tasks }
{
    tasks.iter().position(|k| is_named(*k, id))
}
