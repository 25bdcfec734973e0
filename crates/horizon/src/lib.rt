// Horizon: the first visited time with a run of released columns that is wide enough.
#![tactic(auto)]

ghost use Rattle.std.specs.Prelude.{◌≡◌, ℕ, ◌≤◌};
ghost use Rattle.planners.specs.Planners.{horizon};
ghost use Rattle.live.specs.Live.{OnDevice, Falling, tasks_of};
ghost use Rattle.planners.specs.Lent.{Fits, wanted, found_of};
ghost use Rattle.releases.specs.Steps.{Rises, Pressed};
ghost use Rattle.horizon.specs.Look.{tried, Looked};

use live::Live;
use planners::{Place, Window};

// What one pass over the columns at a time sees: the least key of a run that is wide enough, and the next release.
// Stays: lists::NONE is none, which is past every key and time: each is the least of some numbers, and one comparison does for two.
#[derive(Clone, Copy)]
struct Seen {
    key: u32,
    next: u32,
}

// The least key, the run from `from` up to `to` tried too, where it is wide enough.
fn closed(w: u32, from: u32, to: u32, key: u32) -> u32
    requires { (from ≤ to) × (to ≤ 257) }
    ensures { result ≡ tried w from to key }
{
    if w <= to - from {
        columns::key(from, to).min(key)
    } else {
        key
    }
}

// One pass over the steps at t. The columns from `from` up to `to` are released by t, and the one before them is not.
fn look<'a>(past: &'a [u32; 256], at: &'a [u32; 256], n: usize, w: u32, t: u32) -> Seen
    requires { (1 ≤ w) × Rises past.now n }
    ensures { (rel : ℕ → ℕ) (W : ℕ) → Pressed rel W past.now at.now n → Looked rel W w t result }
{
    let mut key = lists::NONE;
    let mut next = lists::NONE;
    let mut from: u32 = 1;
    let mut to: u32 = 1;
    for i in 0..n {
        let x = at[i];
        let end = past[i];
        if t < x {
            next = x.min(next);
            key = closed(w, from, to, key);
            from = end;
        }
        to = end;
    }
    key = closed(w, from, to, key);
    Seen { key, next }
}

// Horizon over the live tasks that are lent.
pub fn find(live: &Live, count: usize, q: Window) -> Option<Place>
    requires { OnDevice q.width count live.now × Falling count live.now × Fits q }
    ensures { result ≡ found_of (horizon 1 q.width q.clock (tasks_of count live.now) (wanted q)) }
{
    let row = releases::gather(live, count, q.width, q.clock);
    let mut ends = [0u32; 256];
    let mut at = [0u32; 256];
    let n = releases::press(&row, q.width, &mut ends, &mut at);
    let last = q.d - q.e;
    let mut t = q.clock;
    'walk: loop {
        let o = look(&ends, &at, n, q.w, t);
        if o.key < lists::NONE {
            break 'walk Some(Place {
                column: columns::left_of(o.key),
                start: t,
            });
        }
        if last < o.next {
            break 'walk None;
        }
        t = o.next;
    }
}
