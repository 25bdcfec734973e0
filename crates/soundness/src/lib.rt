// Whether the slots make a sound board: what the survey found, and each pair of live tasks.
#![tactic(auto)]

ghost use Rattle.std.specs.Prelude.{◌≡◌, not, ℕ, ◌+◌, ◌-◌, ◌<◌, ◌≤◌, eqb, length};
ghost use Rattle.lists.specs.Lists.{all?, pairwise?, range};
ghost use Rattle.tasks.specs.declared.Task.{Task};
ghost use Rattle.slots.specs.Slots.{sound};
ghost use Rattle.live.specs.Live.{id_at, OnDevice, Falling};
ghost use Rattle.soundness.specs.Tested.{Taken, Judged, Tested, Stood};

use live::{Live, Masks};
use survey::Findings;
use tasks::{Device, Task};

// How many of the tasks after i, up to n, have the id of task i. They are counted and the walk is not left early: that is done
// several at a time.
fn same_ids(live: &Live, i: usize, n: usize) -> u32
    requires { (i < n) × (n ≤ 64) }
    ensures { eqb result 0 ≡ all? (λ (j : ℕ). not (eqb (id_at live.now i) (id_at live.now j))) (range (i + 1) (n - (i + 1))) }
{
    let id = live[live::ID + i];
    let mut hits: u32 = 0;
    for j in i + 1..n {
        hits += lists::one_if(id == live[live::ID + j]);
    }
    hits
}

// No two of the first n tasks have one id.
fn ids_differ(live: &Live, n: usize) -> bool
    requires { n ≤ 64 }
    ensures { result ≡ pairwise? (λ i j. not (eqb (id_at live.now i) (id_at live.now j))) (range 0 n) }
{
    for i in 0..n {
        if 0 < same_ids(live, i, n) {
            return false;
        }
    }
    true
}

// The columns from `left` up to, not including, `past` are taken by a task that starts at `start`. Gives how many of them were taken by one
// that starts before `finish`.
fn take(row: &mut [u32; 257], left: u32, past: u32, start: u32, finish: u32) -> u32
    requires { (left ≤ past) × (past ≤ 257) × (length row.old ≡ 257) }
    ensures { Taken left past start finish row.old row.new result }
{
    let mut hits: u32 = 0;
    for c in left..past {
        let at = c as usize;
        hits += lists::one_if(row[at] < finish);
        row[at] = start;
    }
    hits
}

// No two of the first n tasks share a column at a tick. The last to finish comes first, so each task finishes no later than those before it,
// and shares a tick with one of them exactly if that one starts before it finishes. So it is enough to know of each column when the
// earliest of them starts: that is the one that took it last.
fn none_meets(live: &Live, n: usize) -> bool
    requires { OnDevice 256 n live.now × Falling n live.now }
    ensures { Judged n live.now result }
{
    let mut row = [0xffff_ffffu32; 257];
    for i in 0..n {
        let left = live[live::LEFT + i];
        let past = live[live::PAST + i];
        let start = live[live::FROM + i];
        let finish = live[live::FINISH + i];
        if 0 < take(&mut row, left, past, start, finish) {
            return false;
        }
    }
    true
}

// The live tasks of a board where it is sound, the last to finish first, and what the survey found of them; as an error where it is not
// sound: device and clock, each slot, each pair of live tasks.
pub fn test(
    on: Device,
    clock: u32,
    tasks: [Task; 64],
    live: &mut Live,
) -> Result<Findings, Findings>
    requires { length live.old ≡ 384 }
    ensures { Tested on clock tasks live.new result }
{
    let mut raw = [0u32; 384];
    let v = survey::survey(on, clock, tasks, &mut raw)?;
    let fits = tasks::device_fits(on);
    if !(fits & (clock <= tasks::LAST_INSTANT)) {
        return Err(v);
    }
    sorting::sort(&raw, v.count, live);
    let differ = ids_differ(live, v.count);
    let apart = none_meets(live, v.count);
    if differ & apart { Ok(v) } else { Err(v) }
}

// The same with the words of their columns.
pub fn stand<'a>(
    on: Device,
    clock: u32,
    tasks: [Task; 64],
    live: &'a mut Live,
    masks: &'a mut Masks,
) -> Result<Findings, Findings>
    requires { (length live.old ≡ 384) × (length masks.old ≡ 256) }
    ensures { Stood on clock tasks live.new masks.new result }
{
    let v = test(on, clock, tasks, live)?;
    sorting::mark(live, v.count, masks);
    Ok(v)
}

// Whether the slots make a sound board.
pub fn is_sound(on: Device, clock: u32, tasks: [Task; 64]) -> bool
    ensures { result ≡ sound on clock tasks }
{
    let mut live = [0u32; 384];
    test(on, clock, tasks, &mut live).is_ok()
}
