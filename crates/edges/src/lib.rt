// The left edges of runs of clear columns, in four words: which of them is taken.
#![tactic(auto)]

ghost use Rattle.std.specs.Prelude.{◌≡◌, not, ◌||◌, ℕ, ◌-◌, ◌≤◌, leb};
ghost use Rattle.words.specs.Words.{column};
ghost use Rattle.columns.specs.Columns.{columns, runs};
ghost use Rattle.edges.specs.Edges.{Fitting, Picked};

// Whether a run of clear columns begins at c, a clear one.
fn is_edge(held: [u64; 4], c: u32) -> bool
    requires { c ≤ 256 }
    ensures { result ≡ (leb c 1 || column held (c - 1)) }
{
    if c <= 1 {
        return true;
    }
    words::next_set(held, c - 1) < c
}

// Of the runs of clear columns, in best-fit order, the first whose left edge is set in `fit`: its left edge.
// A column of `fit` is clear, so the search for its run's end begins behind it: the walk goes on whatever is lent.
pub fn narrowest(held: [u64; 4], fit: [u64; 4]) -> Option<u32>
    ensures { (W w : ℕ) → Fitting held fit W w → Picked (column fit) w (runs (λ c. not (column held c)) (columns W)) result }
{
    // Stays: NONE, past every key, in the minimum: an Option would ask each time whether there is one.
    let mut best = lists::NONE;
    let mut at: u32 = 1;
    while at < 257 {
        let c = words::next_set(fit, at);
        if c < 257 {
            let to = words::next_set(held, c + 1);
            if is_edge(held, c) {
                best = columns::key(c, to).min(best);
            }
            at = to;
        } else {
            at = 257;
        }
    }
    if best < lists::NONE {
        Some(columns::left_of(best))
    } else {
        None
    }
}
