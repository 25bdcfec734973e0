// A column's release, for each column in a row, and the row pressed into steps of equal release: what Horizon and the horizon
// list stand on.
#![tactic(auto)]

ghost use Rattle.std.specs.Prelude.{◌≡◌, ℕ, suc, ◌<◌, ◌≤◌, length, get_or};
ghost use Rattle.planners.specs.Planners.{release};
ghost use Rattle.live.specs.Live.{OnDevice, Falling, tasks_of};
ghost use Rattle.releases.specs.Steps.{raised_to, in_row, Pressed};

use live::Live;

// The columns from left up to past are released at finish, which is no earlier than what they had.
fn raise(row: &mut [u32; 256], finish: u32, left: u32, past: u32)
    requires { (length row.old ≡ 256) × (1 ≤ left) × (left ≤ past) × (past ≤ 257) }
    ensures row_len { length row.new ≡ 256 }
    ensures by_index { (k : ℕ) → k < 256 → get_or row.new k 0 ≡ raised_to finish left past k (get_or row.old k 0) }
{
    row[left as usize - 1..past as usize - 1].fill(finish);
}

// The row of release times, column 1 first: now, raised to the finishes over each live task's columns, the first to finish first.
pub fn gather(live: &Live, count: usize, width: u32, clock: u32) -> [u32; 256]
    requires { OnDevice width count live.now × Falling count live.now }
    ensures { (k : ℕ) → k < 256 → get_or result k 0 ≡ release clock (tasks_of count live.now) (suc k) }
{
    let mut row = [clock; 256];
    let n = live::after(live, count, clock);
    for i in (0..n).rev() {
        raise(
            &mut row,
            live[live::FINISH + i],
            live[live::LEFT + i],
            live[live::PAST + i],
        );
    }
    row
}

// The row pressed into steps of equal release, left to right: the first column past each, and its release. Gives their number.
// Each column is stored at `n`, and `n` goes past it only where the release changes.
pub fn press<'a>(
    row: &'a [u32; 256],
    width: u32,
    past: &'a mut [u32; 256],
    at: &'a mut [u32; 256],
) -> usize
    requires { (length past.old ≡ 256) × (length at.old ≡ 256) × (1 ≤ width) × (width ≤ 256) }
    ensures { Pressed (in_row row.now) width past.new at.new result }
{
    let mut n: usize = 0;
    let mut x = row[0];
    for c in 1..width {
        let y = row[c as usize];
        past[n] = c + 1;
        at[n] = x;
        if x != y {
            n += 1;
        }
        x = y;
    }
    past[n] = width + 1;
    at[n] = x;
    n + 1
}
