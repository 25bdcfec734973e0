// The four planners by their numbers.
#![tactic(auto)]

ghost use Rattle.std.specs.Prelude.{◌≡◌, ◌≤◌};
ghost use Rattle.live.specs.Live.{LentTo, tasks_of};
ghost use Rattle.tasks.specs.Numbers.{last_planner};
ghost use Rattle.planners.specs.Planners.{planned};
ghost use Rattle.planners.specs.Lent.{found_of, Fits, wanted};

use live::{Live, Masks};
use planners::{Place, Window};

// The place that the named planner finds among the live tasks. Reference is the search with no time after now.
// Stays: the planner's number of document 01, as the public call is told it and the definition `planned` reads it.
pub fn find<'a>(
    planner: u8,
    live: &'a Live,
    masks: &'a Masks,
    count: usize,
    q: Window,
) -> Option<Place>
    requires { (planner ≤ last_planner) × LentTo planner q.width count live.now masks.now × Fits q }
    ensures { result ≡ found_of (planned 1 q.width q.clock (tasks_of count live.now) (wanted q) planner) }
{
    match planner {
        0 => search::find(
            live,
            masks,
            count,
            Window {
                d: q.clock + q.e,
                ..q
            },
            false,
        ),
        1 => horizon::find(live, count, q),
        2 => stuffing::find(live, count, q),
        _ => search::find(live, masks, count, q, true),
    }
}
