// Busy columns: the columns held at an instant are marked in four words, and their ones are counted.
#![tactic(auto)]

ghost use Rattle.std.specs.Prelude.{◌≡◌, ℕ, ◌≤◌};
ghost use Rattle.lists.specs.Lists.{some?};
ghost use Rattle.tasks.specs.Tasks.{holds};
ghost use Rattle.live.specs.Live.{OnDevice, tasks_of};
ghost use Rattle.words.specs.Words.{column};
ghost use Rattle.lookups.specs.Lookups.{busy_columns};

use live::Live;

// The columns that some task holds at the instant, "by the ones in four 64-bit words".
fn held(live: &Live, count: usize, width: u32, instant: u32) -> [u64; 4]
    requires { OnDevice width count live.now }
    ensures { (c : ℕ) → 1 ≤ c → c ≤ 256 → column result c ≡ some? (holds instant c) (tasks_of count live.now) }
{
    let mut words = [0u64; 4];
    for i in 0..count {
        if (live[live::FROM + i] <= instant) & (instant < live[live::FINISH + i]) {
            let more = words::marked(words, live[live::LEFT + i], live[live::PAST + i]);
            words = more;
        }
    }
    words
}

// "The number of columns held at an instant", over the live tasks that are lent.
pub fn count(live: &Live, count: usize, width: u32, instant: u32) -> u32
    requires { OnDevice width count live.now }
    ensures { result ≡ busy_columns width (tasks_of count live.now) instant }
{
    words::count(held(live, count, width, instant))
}
