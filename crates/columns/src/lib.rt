// Free intervals and best fit over a predicate on columns: definitions (specs/), their meanings (proofs/), and best fit's order as a number.
#![tactic(auto)]

ghost use Rattle.std.specs.Prelude.{◌≡◌, ◌≤◌};
ghost use Rattle.columns.specs.Columns.{key, left_of, up_to};

// The key of the run from `from` up to, not including, `to`: less where it is narrower, or as narrow and further left.
pub fn key(from: u32, to: u32) -> u32
    requires { (from ≤ to) × (to ≤ 257) }
    ensures { result ≡ key (up_to from to) }
{
    (to - from) * 512 + from
}

// The left edge that a key tells.
pub fn left_of(k: u32) -> u32
    ensures { result ≡ left_of k }
{
    k % 512
}
