// The acceptance figures of a recording, counted from its lines and its records.
#![tactic(auto)]

ghost use Rattle.std.specs.Prelude.{◌≡◌, cond, [], ◌∷◌, ◌+◌, ◌-◌, ◌*◌, ◌≤◌, ◌<◌, eqb, length, get_or};
ghost use Rattle.sheets.specs.Sheets.{plus};
ghost use Rattle.figures.specs.Figures.{fate_of, place_of, verdict_of, sheet_with, sheet_of};
ghost use Rattle.figures.specs.Rows.{Roomy, bumped, clock_after, trials_in};

use events::{Ask, Event};

// The line of the summary that a submission came to: the three of its planner and class, or the one without class.
#[derive(Clone, Copy, PartialEq, Eq)]
pub enum Fate {
    Taken,
    Rejected,
    Refused,
    Classless,
}

// A submission's planner, laxity class, what came of it, and the ticks that it waits.
// Stays: planner and class are numbers, since they say which row of the sheet: the planner as the record's byte has it,
// which may be no planner's, the class from 0 to 3 as `laxity::class_of` gives it.
#[derive(Clone, Copy)]
pub struct Verdict {
    pub planner: u8,
    pub class: u8,
    pub fate: Fate,
    pub waited: u32,
}

// THE ONE MAP from an answer's number to a line of the summary.
// Stays: the numbers of document 01, as the words of a line bring them.
fn fate_of(answer: u32) -> Fate
    ensures { result ≡ fate_of answer }
{
    match answer {
        0 => Fate::Taken,
        10 => Fate::Rejected,
        9 | 18 => Fate::Refused,
        _ => Fate::Classless,
    }
}

// Where it stands among them.
#[tactic(auto, unfolding(crate::specs::Figures::place_of))]
fn place_of(fate: Fate) -> usize
    ensures { result ≡ place_of fate }
{
    match fate {
        Fate::Taken => 0,
        Fate::Rejected => 1,
        Fate::Refused => 2,
        Fate::Classless => 3,
    }
}

// Start less arrival, of a task that was taken.
fn wait_of(now: u32, answer: u32, start: u32) -> u32
    ensures { result ≡ cond (eqb answer 0) (start - now) 0 }
{
    if answer == 0 {
        start.saturating_sub(now)
    } else {
        0
    }
}

// A counter grows.
fn bump(figures: &mut [u64; 83], at: usize, more: u32)
    requires { (at < 83) × (get_or figures.old at 0 ≤ 9223372036854775808) }
    ensures { figures.new ≡ bumped figures.old at more }
{
    figures[at] += u64::from(more);
}

// One submission more: in the row of its planner and class, or without class.
fn count(figures: &mut [u64; 83], v: Verdict)
    requires { (v.class < 4) × Roomy 4611686018427387904 figures.old }
    ensures { figures.new ≡ plus figures.old (sheet_with (v ∷ []) 0 0) }
{
    if let Fate::Classless = v.fate {
        bump(figures, 80, 1);
        return;
    }
    if 3 < v.planner {
        return;
    }
    let at = usize::from(v.planner) * 20 + usize::from(v.class) * 5;
    bump(figures, at, 1);
    bump(figures, at + 1 + place_of(v.fate), 1);
    bump(figures, at + 4, v.waited);
}

// One event more; the clock after it.
fn count_event(figures: &mut [u64; 83], clock: u32, event: Event, answer: u32, start: u32) -> u32
    requires { Roomy 4611686018427387903 figures.old }
    ensures value { result ≡ clock_after clock event answer }
    ensures figures_after { figures.new ≡ plus figures.old (sheet_with (verdict_of clock event answer start) 1 0) }
{
    bump(figures, 81, 1);
    match event {
        Event::NewBoard { .. } => 0,
        Event::GridBoard { .. } => 0,
        Event::Submit { planner, ask } => {
            count(
                figures,
                Verdict {
                    planner,
                    class: laxity::class_of(laxity::measure(clock, ask.e, ask.d)),
                    fate: fate_of(answer),
                    waited: wait_of(clock, answer, start),
                },
            );
            clock
        }
        Event::Clock { instant } => if answer == 0 { instant } else { clock },
        Event::Withdraw { .. } => clock,
    }
}

// No event.
pub fn no_figures() -> [u64; 83]
    ensures { result ≡ sheet_of 0 [] }
{
    [0; 83]
}

// THE FIGURES of events that stand with their answers in lines of six numbers, from a clock on.
pub fn count_rows(clock: u32, numbers: &[u32], count: usize, bytes: &[u8]) -> [u64; 83]
    requires { (count ≤ 1000000000) × (count * 6 ≤ length numbers.now) }
    ensures { result ≡ sheet_of 0 (trials_in count clock numbers.now bytes.now) }
{
    let mut figures = no_figures();
    let mut then = clock;
    let mut at: usize = 0;
    for i in 0..count {
        if let Ok(Some((event, size))) = events::read_at(bytes, at) {
            then = count_event(
                &mut figures,
                then,
                event,
                numbers[i * 6 + 2],
                numbers[i * 6 + 4],
            );
            at += size;
        }
    }
    figures
}
