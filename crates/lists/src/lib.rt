// Lists: definitions (specs/) and their laws (proofs/). The code is what crates of every kind say of a number.
#![tactic(auto)]

ghost use Rattle.std.specs.Prelude.{◌≡◌, cond, ◌≤◌};

// No number: past every key and every time that counts.
pub const NONE: u32 = 0xffff_ffff;

// 1 for what holds, 0 for what does not: to count without a branch.
pub fn one_if(holds: bool) -> u32
    ensures value { result ≡ cond holds 1 0 }
    ensures upper_bound { result ≤ 1 }
{
    u32::from(holds)
}
