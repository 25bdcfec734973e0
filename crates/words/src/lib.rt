// The columns of an instant in four words: column c, from 1 to 256, is digit (c - 1) % 64 of word (c - 1) / 64.
#![tactic(auto)]

ghost use Rattle.std.specs.Prelude.{◌≡◌, not, ◌&&◌, ◌||◌, ℕ, ◌+◌, ◌-◌, ◌<◌, ◌≤◌, min, leb, ltb, length};
ghost use Rattle.lists.specs.Lists.{keep, range};
ghost use Rattle.words.specs.Words.{bit, column, Least};

// The digits from `from` up to, not including, `to`: all ones, shifted down and then up.
fn span(from: u32, to: u32) -> u64
    requires { to ≤ 64 }
    ensures { (j : ℕ) → bit result j ≡ (leb from j && ltb j to) }
{
    if from < to {
        (u64::MAX >> (64 - (to - from))) << from
    } else {
        0
    }
}

// Where a column stands among the 64 of the word that begins at `low`: 0 before it, 64 past it.
fn inside(column: u32, low: u32) -> u32
    ensures { result ≡ min (column - low) 64 }
{
    column.saturating_sub(low).min(64)
}

// Of the columns from `first` up to, not including, `past`: those in the word that begins at column `low`.
pub fn share(low: u32, first: u32, past: u32) -> u64
    ensures { (j : ℕ) → j < 64 → bit result j ≡ (leb first (low + j) && ltb (low + j) past) }
{
    span(inside(first, low), inside(past, low))
}

// The columns from `first` up to, not including, `past` set too, by two shifts a word.
// Stays: four words in a row, here and in `inverted`: a `map` was tried there, and the proof did not close, as a clause tells each
// word of a map through its closure, and the law of columns is about four words.
pub fn marked(words: [u64; 4], first: u32, past: u32) -> [u64; 4]
    ensures { (c : ℕ) → 1 ≤ c → c ≤ 256 → column result c ≡ (column words c || (leb first c && ltb c past)) }
{
    [
        words[0] | share(1, first, past),
        words[1] | share(65, first, past),
        words[2] | share(129, first, past),
        words[3] | share(193, first, past),
    ]
}

// How many columns are set.
pub fn count(words: [u64; 4]) -> u32
    ensures { result ≡ length (keep (column words) (range 1 256)) }
{
    words.iter().map(|word| word.count_ones()).sum()
}

// The least digit from `from` on that is set, or 64.
// Stays: 64 and no Option, since `live::lowest_free` hands it on.
pub fn next_in(word: u64, from: u32) -> u32
    requires { from < 64 }
    ensures { Least (bit word) from 64 result }
{
    let t = (word >> from).trailing_zeros();
    if t < 64 - from { from + t } else { 64 }
}

// The least column from `from` on that is set, or 257.
// Stays: 257 and no Option, since callers go on from it as from any column: a run of clear columns ends there.
pub fn next_set(words: [u64; 4], from: u32) -> u32
    requires { (1 ≤ from) × (from ≤ 257) }
    ensures { Least (column words) from 257 result }
{
    let first = ((from - 1) / 64) as usize;
    let mut k = (from - 1) % 64;
    for i in first..4 {
        let j = next_in(words[i], k);
        if j < 64 {
            return (i * 64) as u32 + j + 1;
        }
        k = 0;
    }
    257
}

// Each column the other way round.
pub fn inverted(words: [u64; 4]) -> [u64; 4]
    ensures { (c : ℕ) → 1 ≤ c → c ≤ 256 → column result c ≡ not (column words c) }
{
    [!words[0], !words[1], !words[2], !words[3]]
}

// The least column from `from` on that is clear, or 257.
pub fn next_clear(words: [u64; 4], from: u32) -> u32
    requires { (1 ≤ from) × (from ≤ 257) }
    ensures { Least (λ (c : ℕ). not (column words c)) from 257 result }
{
    next_set(inverted(words), from)
}
