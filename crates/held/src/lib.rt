// Which columns the live tasks hold during a stay of e ticks from an instant on, in four words; where w clear columns begin; how long
// that lasts. Reference, Full and the openings stand on it: none ever steps through blocked ticks.
#![tactic(auto)]

ghost use Rattle.std.specs.Prelude.{◌≡◌, ℕ, ◌+◌, ◌<◌, ◌≤◌, min, slice_index};
ghost use Rattle.live.specs.Live.{After, Falling, Lent, tasks_of};
ghost use Rattle.words.specs.Words.{bit};
ghost use Rattle.held.specs.Held.{Edge, Held, HeldWord, FirstFree, Unchanged};

use live::{Live, Masks};

// The columns past the device's width.
pub fn edge(width: u32) -> [u64; 4]
    requires { width ≤ 256 }
    ensures { Edge width result }
{
    words::marked([0u64; 4], width + 1, 257)
}

// All ones or zero: a choice and no branch.
fn all_if(holds: bool) -> u64
    ensures { (j : ℕ) → j < 64 → bit result j ≡ holds }
{
    if holds { u64::MAX } else { 0 }
}

// The first word of the columns of the first n tasks that start before `end`, with those that are set in `word`.
// Stays: a function for one word and one for four. With one for both, by a const parameter and a loop over the words, the compiler no
// longer takes several tasks at a time, and `plan` took up to 4 % more.
fn held_word<'a>(live: &'a Live, masks: &'a Masks, n: usize, end: u32, word: u64) -> u64
    requires { n ≤ 64 }
    ensures { HeldWord live.now masks.now end 0 n word result }
{
    let mut held = word;
    for i in 0..n {
        held = held | (all_if(live[live::FROM + i] < end) & masks[i]);
    }
    held
}

// The four words in one pass over the tasks.
fn held_four<'a>(live: &'a Live, masks: &'a Masks, edge: [u64; 4], n: usize, end: u32) -> [u64; 4]
    requires { n ≤ 64 }
    ensures { (k : ℕ) → k < 4 → HeldWord live.now masks.now end k n (slice_index edge k) (slice_index result k) }
{
    let mut a = edge[0];
    let mut b = edge[1];
    let mut c = edge[2];
    let mut d = edge[3];
    for i in 0..n {
        let on = all_if(live[live::FROM + i] < end);
        a = a | (on & masks[i]);
        b = b | (on & masks[64 + i]);
        c = c | (on & masks[128 + i]);
        d = d | (on & masks[192 + i]);
    }
    [a, b, c, d]
}

// The columns that a task holds at one of the e ticks from t on, and those past the width; the first n tasks are those that finish
// after t. A device of up to 64 columns needs one word only.
pub fn held_words<'a>(
    live: &'a Live,
    masks: &'a Masks,
    edge: [u64; 4],
    n: usize,
    width: u32,
    t: u32,
    e: u32,
) -> [u64; 4]
    requires { (n ≤ 64) × (width ≤ 256) × (1 ≤ e) × (t + e ≤ 4000000000) × Edge width edge }
    ensures { (count : ℕ) → Lent width count live.now masks.now → After live.now count t n → Held width t e (tasks_of count live.now) result }
{
    if width <= 64 {
        return [
            held_word(live, masks, n, t + e, edge[0]),
            edge[1],
            edge[2],
            edge[3],
        ];
    }
    held_four(live, masks, edge, n, t + e)
}

// The least column after `from` that begins w clear columns.
pub fn first_free(words: [u64; 4], from: u32, w: u32) -> Option<u32>
    requires { (from ≤ 256) × (1 ≤ w) × (w ≤ 256) }
    ensures { FirstFree words from w result }
{
    let mut at = from + 1;
    while at + w <= 257 {
        let clear = words::next_clear(words, at);
        let set = words::next_set(words, clear);
        if clear + w <= set {
            return Some(clear);
        }
        at = set;
    }
    None
}

// The next instant from which a stay of e ticks may meet other tasks than from t on: one has finished, or one has come into the stay.
// Until then the columns that are held stay the same. The first n tasks are those that finish after t. A start is kept as what it lies
// past the stay: one that has come into it wraps to a number too large to count.
pub fn next_change(live: &Live, n: usize, t: u32, e: u32) -> u32
    requires { (n ≤ 64) × (1 ≤ e) × (t + e ≤ 4000000000) }
    ensures { (count : ℕ) → Falling count live.now → After live.now count t n → Unchanged live.now count t e result }
{
    let from = t + 1;
    let stay = t + e;
    let mut best = lists::NONE - from;
    for i in 0..n {
        best = best.min(live[live::FROM + i].wrapping_sub(stay));
    }
    (from + best).min(live::next_finish(live, n))
}
