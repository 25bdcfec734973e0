// The live tasks of a board as one table of numbers: what the survey of a board makes, a run keeps, and every planner is lent. A row
// of 64 numbers for each field; task i has the numbers at place i of each row. Beside it the columns of each task in words.
#![tactic(auto)]

ghost use Rattle.std.specs.Prelude.{◌≡◌, not, ◌&&◌, ◌||◌, [], ◌∷◌, ℕ, ◌≤◌, ◌<◌, eqb, length};
ghost use Rattle.lists.specs.Lists.{never};
ghost use Rattle.words.specs.Words.{bit, Least};
ghost use Rattle.live.specs.Live.{Falling, After, NextFinish, put_from, WordsPut};

// The first ticks held, finishes, first columns, first columns past, ids, slots.
pub type Live = [u32; 384];

// The columns of task i: columns 64 k + 1 to 64 k + 64 as the digits of the word at 64 k + i.
pub type Masks = [u64; 256];

pub const FROM: usize = 0;

pub const FINISH: usize = 64;

pub const LEFT: usize = 128;

pub const PAST: usize = 192;

pub const ID: usize = 256;

pub const SLOT: usize = 320;

// How many of the first n tasks finish after t, where the last to finish stands first: they are the first ones.
pub fn after(live: &Live, n: usize, t: u32) -> usize
    requires { n ≤ 64 }
    ensures { After live.now n t result }
{
    for k in (0..n).rev() {
        if t < live[FINISH + k] {
            return k + 1;
        }
    }
    0
}

// The next finish after t, where the first n tasks are those that finish after t; a number past every finish where there is none.
// Stays: that number and no Option, since one comparison then tells a walk that none is left or that it is too late.
pub fn next_finish(live: &Live, n: usize) -> u32
    requires { n ≤ 64 }
    ensures { (count t : ℕ) → Falling count live.now → After live.now count t n → t < never → NextFinish live.now count t result }
{
    if n == 0 {
        return lists::NONE;
    }
    live[FINISH + (n - 1)]
}

// A task's numbers at place i.
pub fn put(
    live: &mut Live,
    i: usize,
    start: u32,
    finish: u32,
    left: u32,
    past: u32,
    id: u32,
    slot: u32,
)
    requires { (i < 64) × (length live.old ≡ 384) }
    ensures { live.new ≡ put_from 0 live.old i (start ∷ finish ∷ left ∷ past ∷ id ∷ slot ∷ []) }
{
    live[FROM + i] = start;
    live[FINISH + i] = finish;
    live[LEFT + i] = left;
    live[PAST + i] = past;
    live[ID + i] = id;
    live[SLOT + i] = slot;
}

// A task's words at place i.
pub fn put_words(masks: &mut Masks, i: usize, a: u64, b: u64, c: u64, d: u64)
    requires { (i < 64) × (length masks.old ≡ 256) }
    ensures { masks.new ≡ put_from 0 masks.old i (a ∷ b ∷ c ∷ d ∷ []) }
{
    masks[0 + i] = a;
    masks[64 + i] = b;
    masks[128 + i] = c;
    masks[192 + i] = d;
}

// The words of the columns from `left` up to, not including, `past`, at place i.
pub fn put_columns(masks: &mut Masks, i: usize, left: u32, past: u32)
    requires { (i < 64) × (length masks.old ≡ 256) }
    ensures { WordsPut masks.old i left past masks.new }
{
    put_words(
        masks,
        i,
        words::share(1, left, past),
        words::share(65, left, past),
        words::share(129, left, past),
        words::share(193, left, past),
    );
}

// One more slot in use.
pub fn with_slot(used: u64, slot: u32) -> u64
    requires { slot < 64 }
    ensures { (j : ℕ) → j < 64 → bit result j ≡ (bit used j || eqb j slot) }
{
    used | words::share(0, slot, slot + 1)
}

// A slot free again.
pub fn without_slot(used: u64, slot: u32) -> u64
    requires { slot < 64 }
    ensures { (j : ℕ) → j < 64 → bit result j ≡ (bit used j && not (eqb j slot)) }
{
    used & !words::share(0, slot, slot + 1)
}

// The lowest slot that is not in use, or 64.
// Stays: 64 and no Option, since that is what the callers compare: a free slot is one below the 64 of a board.
pub fn lowest_free(used: u64) -> u32
    ensures { Least (λ (j : ℕ). not (bit used j)) 0 64 result }
{
    words::next_in(!used, 0)
}
