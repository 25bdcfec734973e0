// One pass over the 64 slots of a board: whether each by itself is sound, and the live tasks in a table, in slot order.
#![tactic(auto)]

ghost use Rattle.std.specs.Prelude.{◌≡◌, ◌&&◌, ◌||◌, ℕ, ◌<◌, eqb, length};
ghost use Rattle.words.specs.Words.{bit};
ghost use Rattle.tasks.specs.declared.Task.{Task};
ghost use Rattle.survey.specs.Survey.{Surveyed};

use live::Live;
use tasks::{Device, Task};

// How many live tasks there are, and which slots are theirs.
#[derive(Clone, Copy)]
pub struct Findings {
    pub count: usize,
    pub used: u64,
}

// The slots in use, slot i too where it is live.
fn used_with(used: u64, i: u32, on: bool) -> u64
    requires { i < 64 }
    ensures { (j : ℕ) → j < 64 → bit result j ≡ (bit used j || (on && eqb j i)) }
{
    if on {
        return live::with_slot(used, i);
    }
    used
}

// The survey of the slots: what it finds, as an error where one of them is not sound. Each slot is put at `count`, and `count` goes
// past it only where it is live: no branch to miss.
pub fn survey(
    on: Device,
    clock: u32,
    tasks: [Task; 64],
    live: &mut Live,
) -> Result<Findings, Findings>
    requires { length live.old ≡ 384 }
    ensures { Surveyed on clock tasks live.new result }
{
    let mut count: usize = 0;
    let mut used: u64 = 0;
    let mut sound = true;
    for (i, &k) in tasks.iter().enumerate() {
        let well = slots::slot_sound(on, clock, k);
        let lives = tasks::is_live(k);
        sound &= well;
        live::put(
            live,
            count,
            k.start,
            k.start.wrapping_add(k.e),
            u32::from(k.column),
            u32::from(k.column) + u32::from(k.w),
            k.id,
            i as u32,
        );
        count += lists::one_if(lives) as usize;
        used = used_with(used, i as u32, lives);
    }
    let found = Findings { count, used };
    if sound { Ok(found) } else { Err(found) }
}
