// Laxity, its limit, and its classes.
#![tactic(auto)]

ghost use Rattle.std.specs.Prelude.{◌≡◌, ◌<◌, ltb};
ghost use Rattle.laxity.specs.Laxity.{laxity, most_laxity, class_of};

// The limit of document 02, Q-2.
const MOST: u32 = 10_000_000;

// "Laxity is d − e − arrival"; 0 where there is less.
pub fn measure(arrival: u32, e: u32, d: u32) -> u32
    ensures { result ≡ laxity arrival e d }
{
    d.saturating_sub(e).saturating_sub(arrival)
}

// "Refuse a laxity over 10,000,000".
pub fn is_too_large(arrival: u32, e: u32, d: u32) -> bool
    ensures { result ≡ ltb most_laxity (laxity arrival e d) }
{
    MOST < measure(arrival, e, d)
}

// A, B, C and Other as 0 to 3: how many of the classes it is past, without a branch, which a processor would guess wrong.
// Stays: a number and no enum, since it is the row of the class among a planner's four (`figures`), and counted.
pub fn class_of(laxity: u32) -> u8
    ensures { result ≡ class_of laxity }
{
    let past_a = lists::one_if(51 <= laxity);
    let past_b = lists::one_if(101 <= laxity);
    let past_c = lists::one_if(201 <= laxity);
    if laxity == 0 {
        return 3;
    }
    (past_a + past_b + past_c) as u8
}
