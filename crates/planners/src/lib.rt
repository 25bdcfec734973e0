// The four planners over (W, now, live tasks): definitions (specs/), their meanings (proofs/), and what a planner answers.
// The planners themselves are in the crates above: each is small enough to be proved again in seconds.
#![tactic(auto)]

// A place that a planner finds: its first column and the start. Where it finds none it answers None.
#[derive(Clone, Copy)]
pub struct Place {
    pub column: u32,
    pub start: u32,
}

// What is asked of a device of `width` columns at `clock`: w columns for e ticks, done by d.
#[derive(Clone, Copy)]
pub struct Window {
    pub width: u32,
    pub clock: u32,
    pub w: u32,
    pub e: u32,
    pub d: u32,
}
