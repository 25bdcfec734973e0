// What the program `ask` is asked: its arguments as one text, a space between two.
#![tactic(auto)]

ghost use Rattle.std.specs.Prelude.{◌≡◌, ◌≤◌, [], ◌∷◌, Some, None};
ghost use Rattle.tokens.specs.Tokens.{words, nth};
ghost use Rattle.questions.specs.declared.Question.TheVariants.{Openings};
ghost use Rattle.questions.specs.Questions.{right_or, openings_asked, asks};

use tasks::Submission;

#[derive(Clone, Copy)]
pub enum Question {
    Horizon,
    Busy(u32),
    Openings {
        task: Submission,
        start: u32,
        column: u16,
        most: u32,
    },
    Board,
    Stamp(u32),
}

// One that has no number.
#[tactic(auto, unfolding(crate::specs::Questions::right_or))]
fn alone(text: &[u8], question: Question) -> Option<Question>
    ensures { result ≡ right_or [] (words text.now) (Some question) None }
{
    tokens::read_numbers::<0>(text, &[]).ok()?;
    Some(question)
}

// The instant of one that has an instant.
#[tactic(auto, unfolding(crate::specs::Questions::right_or))]
fn instant(text: &[u8]) -> Option<u32>
    ensures { result ≡ right_or (4294967295 ∷ []) (words text.now) (Some (nth 0 (words text.now))) None }
{
    let [instant] = tokens::read_numbers::<1>(text, &[u32::MAX]).ok()?;
    Some(instant)
}

// Openings of a task, by the numbers of the question; its id is not read, so 0.
fn opened(w: u32, h: u32, e: u32, d: u32, start: u32, column: u32, most: u32) -> Question
    requires width { w ≤ 65535 }
    requires height { h ≤ 65535 }
    requires column_fits { column ≤ 65535 }
    ensures { result ≡ Openings (record { id = 0; e = e; d = d; w = w; h = h }) start column most }
{
    let task = Submission {
        id: 0,
        w: w as u16,
        h: h as u16,
        e,
        d,
    };
    Question::Openings {
        task,
        start,
        column: column as u16,
        most,
    }
}

// Four numbers, and a pair to start after, and how many at most.
#[tactic(auto, unfolding(crate::specs::Questions::openings_asked, crate::specs::Questions::right_or, crate::specs::Questions::task_of))]
fn openings(text: &[u8]) -> Option<Question>
    ensures { result ≡ openings_asked (words text.now) }
{
    let mosts = [65535, 65535, u32::MAX, u32::MAX];
    if let Ok(v) = tokens::read_numbers::<4>(text, &mosts) {
        return Some(opened(v[0], v[1], v[2], v[3], 0, 0, 1000));
    }
    let mosts = [65535, 65535, u32::MAX, u32::MAX, u32::MAX, 65535];
    if let Ok(v) = tokens::read_numbers::<6>(text, &mosts) {
        return Some(opened(v[0], v[1], v[2], v[3], v[4], v[5], 1000));
    }
    let mosts = [65535, 65535, u32::MAX, u32::MAX, u32::MAX, 65535, u32::MAX];
    if let Ok(v) = tokens::read_numbers::<7>(text, &mosts) {
        return Some(opened(v[0], v[1], v[2], v[3], v[4], v[5], v[6]));
    }
    None
}

// WHAT IS ASKED, where it is a question.
#[tactic(auto, unfolding(crate::specs::Questions::asks, crate::specs::Questions::asked_by, crate::specs::Questions::right_or))]
pub fn read(text: &[u8]) -> Option<Question>
    ensures { result ≡ asks text.now }
{
    let (name, behind) = tokens::next(text);
    if tokens::is_name(name, b"horizon") {
        return alone(behind, Question::Horizon);
    }
    if tokens::is_name(name, b"busy") {
        return Some(Question::Busy(instant(behind)?));
    }
    if tokens::is_name(name, b"openings") {
        return openings(behind);
    }
    if tokens::is_name(name, b"board") {
        return alone(behind, Question::Board);
    }
    if tokens::is_name(name, b"stamp") {
        return Some(Question::Stamp(instant(behind)?));
    }
    None
}
