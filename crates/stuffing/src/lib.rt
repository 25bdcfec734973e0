// Stuffing (Algorithm 2 of the source) over the live tasks that are lent, by the plain method: column by column.
#![tactic(auto)]

ghost use Rattle.std.specs.Prelude.{◌≡◌, ◌+◌, ◌<◌, ◌≤◌, length, replicate, if◌then◌else◌, MatchOption};
ghost use Rattle.lists.specs.Lists.{some?, never};
ghost use Rattle.planners.specs.Planners.{stuffing};
ghost use Rattle.live.specs.Live.{OnDevice, Falling, Apart, After, tasks_of};
ghost use Rattle.planners.specs.Lent.{found_of, Fits, wanted};
ghost use Rattle.stuffing.specs.Fit.{meets_at, Marked, unheld, Stretches, FirstHeld, Listed, NextKey};

use live::Live;
use planners::{Place, Window};

// A column, or 0, which is none, where the task does not hold it.
fn column_if(holds: bool, column: u32) -> u32
    ensures { result ≡ (if holds then column else 0) }
{
    if holds { column } else { 0 }
}

// The columns that some task holds at t, in a row of zeros: at the first column of each task that holds them, the first one past it. Only
// the first n tasks finish after t. No two of them share a column at t, so a walk along the row jumps from held columns to free ones; what
// stands at 0 means nothing, and spares a branch.
fn mark_held(live: &Live, n: usize, t: u32, row: &mut [u16; 257])
    requires { OnDevice 256 n live.now × (row.old ≡ replicate 257 0) }
    ensures { Marked live.now n t row.new }
{
    for i in 0..n {
        let at = column_if(live[live::FROM + i] <= t, live[live::LEFT + i]) as usize;
        row[at] = live[live::PAST + i] as u16;
    }
}

// The first column from `from` on that a task begins at, or the one past the width.
fn first_held(row: &[u16; 257], from: u32, width: u32) -> u32
    requires { (width ≤ 256) × (from ≤ width + 1) }
    ensures { FirstHeld row.now from width result }
{
    for c in from..width + 1 {
        let at = c as usize;
        if row[at] != 0 {
            return c;
        }
    }
    width + 1
}

// The keys of the free intervals that are wide enough, from left to right; gives their number. Each is stored, and
// counted only where it is wide enough: no branch to miss.
fn list_fits(row: &[u16; 257], width: u32, w: u32, keys: &mut [u32; 129]) -> usize
    requires { (width ≤ 256) × (1 ≤ w) × (w ≤ 256) × Stretches width row.now × (length keys.old ≡ 129) }
    ensures { Listed (unheld row.now) width w keys.new result }
{
    let mut m: usize = 0;
    let mut from: u32 = 1;
    while from + w <= width + 1 {
        let at = from as usize;
        let past = u32::from(row[at]);
        if past == 0 {
            let to = first_held(row, from + 1, width);
            keys[m] = columns::key(from, to);
            m += usize::from(w <= to - from);
            from = to;
        } else {
            from = past;
        }
    }
    m
}

// The least key after `after`, or none. It is kept as what it lies past `after` + 1: a key up to there wraps to a number too large to count,
// so that one comparison does for two.
fn next_key(keys: &[u32; 129], m: usize, after: u32) -> Option<u32>
    requires { (m ≤ 129) × (after < never) }
    ensures { MatchOption result (NextKey keys.now m after never) (λ key. (key < never) × NextKey keys.now m after key) }
{
    let from = after + 1;
    let mut best = lists::NONE - from;
    for key in &keys[..m] {
        best = best.min(key.wrapping_sub(from));
    }
    if best < lists::NONE - from {
        Some(from + best)
    } else {
        None
    }
}

// Whether a stay on w columns from c on, e ticks from t on, shares a column with a task at a tick. Only the first n tasks finish after t.
fn meets_any(
    live: &Live,
    count: usize,
    n: usize,
    width: u32,
    c: u32,
    w: u32,
    t: u32,
    e: u32,
) -> bool
    requires on_device { OnDevice width count live.now × Falling count live.now × After live.now count t n }
    requires le_w { (1 ≤ w) × (1 ≤ e) × (c + w ≤ 4294967295) × (t + e ≤ 4294967295) }
    ensures { result ≡ some? (meets_at c w t e) (tasks_of count live.now) }
{
    let to = c + w;
    let end = t + e;
    for i in 0..n {
        if ((c < live[live::PAST + i]) & (live[live::LEFT + i] < to))
            & (live[live::FROM + i] < end)
        {
            return true;
        }
    }
    false
}

// The first candidate without a conflict ends both walks: through the visited times, and through the free intervals of each
// in best-fit order.
pub fn find(live: &Live, count: usize, q: Window) -> Option<Place>
    requires { OnDevice q.width count live.now × Falling count live.now × Apart count live.now × Fits q }
    ensures { result ≡ found_of (stuffing 1 q.width q.clock (tasks_of count live.now) (wanted q)) }
{
    let last = q.d - q.e;
    let mut t = q.clock;
    let mut n = live::after(live, count, t);
    let mut keys = [0u32; 129];
    'visits: loop {
        let mut row = [0u16; 257];
        mark_held(live, n, t, &mut row);
        let m = list_fits(&row, q.width, q.w, &mut keys);
        let mut after: u32 = 0;
        'tries: while let Some(key) = next_key(&keys, m, after) {
            let column = columns::left_of(key);
            if meets_any(live, count, n, q.width, column, q.w, t, q.e) {
                after = key;
            } else {
                break 'visits Some(Place { column, start: t });
            }
        }
        let next = live::next_finish(live, n);
        if last < next {
            break 'visits None;
        }
        t = next;
        n = live::after(live, n, t);
    }
}
