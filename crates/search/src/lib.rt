// Reference and Full: one search over words of columns, from finish to finish. At an instant: the columns free during the whole stay, and
// the places where w of them begin. Full takes the first; Reference, which looks at now only, the left edge of the narrowest run of
// columns that are free at the instant. It never steps tick by tick.
#![tactic(auto)]

ghost use Rattle.std.specs.Prelude.{◌≡◌, cond};
ghost use Rattle.live.specs.Live.{Lent, tasks_of};
ghost use Rattle.planners.specs.Openings.{full};
ghost use Rattle.planners.specs.Planners.{stuffing};
ghost use Rattle.planners.specs.Lent.{Fits, wanted, found_of};

use live::{Live, Masks};
use planners::{Place, Window};

// The search. With `whole` it is Full; without, the left edges of the free intervals are tried, as Stuffing does, and Reference is that
// with no time after now.
// Stays: a flag, since the clause says what each of the two finds; a closure for the column that is taken would have to bring the same
// two clauses along.
pub fn find<'a>(
    live: &'a Live,
    masks: &'a Masks,
    count: usize,
    q: Window,
    whole: bool,
) -> Option<Place>
    requires { Lent q.width count live.now masks.now × Fits q }
    ensures { result ≡ found_of (cond whole (full 1 q.width q.clock (tasks_of count live.now) (wanted q)) (stuffing 1 q.width q.clock (tasks_of count live.now) (wanted q))) }
{
    let edge = held::edge(q.width);
    let last = q.d - q.e;
    let mut t = q.clock;
    let mut n = live::after(live, count, t);
    'walk: loop {
        let stay = held::held_words(live, masks, edge, n, q.width, t, q.e);
        let fit = erosion::erode(words::inverted(stay), q.w);
        let first = words::next_set(fit, 1);
        if first < 257 {
            if whole {
                break 'walk Some(Place {
                    column: first,
                    start: t,
                });
            }
            let now = held::held_words(live, masks, edge, n, q.width, t, 1);
            if let Some(column) = edges::narrowest(now, fit) {
                break 'walk Some(Place { column, start: t });
            }
        }
        let next = live::next_finish(live, n);
        if last < next {
            break 'walk None;
        }
        t = next;
        n = live::after(live, n, t);
    }
}
