// The refusals of a call after number 1: the tests in the order of documents 01 and 02. The board is known to be sound.
#![tactic(auto)]

ghost use Rattle.std.specs.Prelude.{◌≡◌, ◌+◌, ltb};
ghost use Rattle.refusals.specs.Refusals.{number_of, refused, refusal, submit_tests, instant_tests, withdraw_tests, openings_tests};

use tasks::{Device, Submission};

// What a call refuses, by the answer numbers of documents 01 and 02: all but 0, done, 10, the rejection, and 15 and 16 of a recording.
#[derive(Clone, Copy, PartialEq, Eq)]
pub enum Refusal {
    Unsound,
    BadDevice,
    NoSuchPlanner,
    IdIsZero,
    BadSize,
    BadTime,
    IdIsLive,
    TooLate,
    NoSlot,
    InstantBeforeNow,
    InstantTooLate,
    IdNotLive,
    HasBegun,
    ShortBuffer,
    TooLax,
}

impl From<Refusal> for u8 {
    ghost from_gives = { λ r n. n ≡ number_of r };

    fn from(refusal: Refusal) -> u8 {
        match refusal {
            Refusal::Unsound => 1,
            Refusal::BadDevice => 2,
            Refusal::NoSuchPlanner => 3,
            Refusal::IdIsZero => 4,
            Refusal::BadSize => 5,
            Refusal::BadTime => 6,
            Refusal::IdIsLive => 7,
            Refusal::TooLate => 8,
            Refusal::NoSlot => 9,
            Refusal::InstantBeforeNow => 11,
            Refusal::InstantTooLate => 12,
            Refusal::IdNotLive => 13,
            Refusal::HasBegun => 14,
            Refusal::ShortBuffer => 17,
            Refusal::TooLax => 18,
        }
    }
}

// "d < now + e".
fn is_too_late(clock: u32, a: Submission) -> bool
    ensures { result ≡ ltb a.d (clock + a.e) }
{
    u64::from(a.d) < u64::from(clock) + u64::from(a.e)
}

// Of a submission: 3 to 8, 18, 9. `known`: the id is live already; `full`: no slot is free.
#[tactic(auto, unfolding(crate::specs::Refusals::refusal))]
pub fn refuse_submission(
    on: Device,
    clock: u32,
    planner: u8,
    a: Submission,
    known: bool,
    full: bool,
) -> Result<(), Refusal>
    ensures { refused result ≡ refusal (submit_tests on clock planner a known full) }
{
    if tasks::LAST_PLANNER < planner {
        return Err(Refusal::NoSuchPlanner);
    }
    if a.id == 0 {
        return Err(Refusal::IdIsZero);
    }
    if !tasks::size_fits(on, a.w, a.h) {
        return Err(Refusal::BadSize);
    }
    if !tasks::time_fits(a.e, a.d) {
        return Err(Refusal::BadTime);
    }
    if known {
        return Err(Refusal::IdIsLive);
    }
    // The common way is one branch for three tests: a run, which this becomes part of, is faster by up to 1.3 % (docs/MEASURED.md).
    let late = is_too_late(clock, a);
    let lax = laxity::is_too_large(clock, a.e, a.d);
    if !(late | lax | full) {
        return Ok(());
    }
    if late {
        return Err(Refusal::TooLate);
    }
    if lax {
        return Err(Refusal::TooLax);
    }
    Err(Refusal::NoSlot)
}

// Of an instant: 11 and 12.
#[tactic(auto, unfolding(crate::specs::Refusals::refusal))]
pub fn refuse_instant(clock: u32, instant: u32) -> Result<(), Refusal>
    ensures { refused result ≡ refusal (instant_tests clock instant) }
{
    if instant < clock {
        return Err(Refusal::InstantBeforeNow);
    }
    if tasks::LAST_INSTANT < instant {
        return Err(Refusal::InstantTooLate);
    }
    Ok(())
}

// Of a withdrawal: 13 and 14. `known`: the id is live; `begun`: its task holds its columns already.
#[tactic(auto, unfolding(crate::specs::Refusals::refusal))]
pub fn refuse_withdrawal(known: bool, begun: bool) -> Result<(), Refusal>
    ensures { refused result ≡ refusal (withdraw_tests known begun) }
{
    if !known {
        return Err(Refusal::IdNotLive);
    }
    if begun {
        return Err(Refusal::HasBegun);
    }
    Ok(())
}

// Of a request for openings: 5, 6, 8, 18. The id is not read.
#[tactic(auto, unfolding(crate::specs::Refusals::refusal))]
pub fn refuse_openings(on: Device, clock: u32, a: Submission) -> Result<(), Refusal>
    ensures { refused result ≡ refusal (openings_tests on clock a) }
{
    if !tasks::size_fits(on, a.w, a.h) {
        return Err(Refusal::BadSize);
    }
    if !tasks::time_fits(a.e, a.d) {
        return Err(Refusal::BadTime);
    }
    if is_too_late(clock, a) {
        return Err(Refusal::TooLate);
    }
    if laxity::is_too_large(clock, a.e, a.d) {
        return Err(Refusal::TooLax);
    }
    Ok(())
}
