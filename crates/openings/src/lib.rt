// The list of openings after a pair, written to a lent buffer: a run of columns at a time, in steps of the grid, from tick to tick
// while something is open, from finish to finish where nothing is. Its cost grows with the openings written and the live tasks, not
// with blocked ticks.
#![tactic(auto)]

ghost use Rattle.std.specs.Prelude.{◌≡◌, ◌+◌, ◌-◌, ◌*◌, ◌/◌, ◌<◌, length, take};
ghost use Rattle.lists.specs.Lists.{over_front};
ghost use Rattle.ways.specs.Ways.{pair, openings_after};
ghost use Rattle.planners.specs.Openings.{ways, pair_numbers};
ghost use Rattle.live.specs.Live.{Lent, tasks_of};
ghost use Rattle.planners.specs.Lent.{Fits, Stepped, wanted};
ghost use Rattle.openings.specs.Filled.{filled_of};

use live::{Live, Masks};
use planners::Window;

// How many openings were written, and whether a further one remains.
#[derive(Clone, Copy)]
pub struct Filled {
    pub count: usize,
    pub more: bool,
}

// The openings after the pair (s, c), which may lie off the grid.
pub fn list<'a>(
    live: &'a Live,
    masks: &'a Masks,
    count: usize,
    q: Window,
    grid: u32,
    s: u32,
    c: u32,
    buffer: &'a mut [u32],
) -> Filled
    requires { Lent q.width count live.now masks.now × Fits q × Stepped grid q.width q.w (tasks_of count live.now) }
    ensures value { result ≡ filled_of (length buffer.old) (openings_after (ways grid q.width q.clock (tasks_of count live.now) (wanted q)) (pair s c)) }
    ensures buffer_after { buffer.new ≡ over_front (pair_numbers (take (length buffer.old / 2) (openings_after (ways grid q.width q.clock (tasks_of count live.now) (wanted q)) (pair s c)))) buffer.old }
{
    let last = q.d - q.e;
    let mut t = looking::from_tick(q.clock, s);
    let mut column = looking::from_column(q.clock, s, c, q.width, grid);
    if last < t {
        return Filled {
            count: 0,
            more: false,
        };
    }
    let edge = held::edge(q.width);
    let mut live_now = live::after(live, count, t);
    let mut words = held::held_words(live, masks, edge, live_now, q.width, t, q.e);
    let mut until = held::next_change(live, live_now, t, q.e);
    let room = buffer.len() / 2;
    let mut n: usize = 0;
    'walk: loop {
        if let Some(first) = held::first_free(words, column, q.w) {
            if room <= n {
                break 'walk Filled {
                    count: n,
                    more: true,
                };
            }
            let set = words::next_set(words, first);
            let to = looking::stop(first, set - q.w + grid, room - n, grid);
            n = looking::put_run(buffer, n * 2, t, first, to, grid) / 2;
            column = to - 1;
        } else {
            let next = looking::next_tick(live, live_now, t, column);
            if last < next {
                break 'walk Filled {
                    count: n,
                    more: false,
                };
            }
            t = next;
            column = 0;
            if until <= t {
                live_now = live::after(live, live_now, t);
                words = held::held_words(live, masks, edge, live_now, q.width, t, q.e);
                until = held::next_change(live, live_now, t, q.e);
            }
        }
    }
}
