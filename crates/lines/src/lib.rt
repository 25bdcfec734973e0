// A line of text as an event: what the program `record` reads.
#![tactic(auto)]

ghost use Rattle.std.specs.Prelude.{◌≡◌, ◌≢◌, ◌+◌, ◌≤◌, MatchResult};
ghost use Rattle.tokens.specs.Tokens.{words, first_word, other_words, wrong};
ghost use Rattle.tokens.specs.Walks.{Numbers};
ghost use Rattle.lines.specs.Lines.{less_return, bare, planner_of, grid_line, board_line, clock_line, withdraw_line, submit_line, said_by, says};

use events::{Ask, Event};
use tokens::Sort;

// What kind of line one is by its first word, where that is the name of one.
#[derive(Clone, Copy, Debug, PartialEq, Eq)]
pub enum Kind {
    Unnamed,
    Board,
    Submit,
    Clock,
    Withdraw,
}

// Which word of a line is wrong, counted from 1.
#[derive(Clone, Copy, Debug, PartialEq, Eq)]
pub struct Wrong {
    pub kind: Kind,
    pub word: usize,
}

// What stands of a line before a carriage return at its end.
fn less_return(line: &[u8]) -> &[u8]
    ensures { result.now ≡ less_return line.now }
{
    match line.strip_suffix(b"\r") {
        Some(front) => front,
        None => line,
    }
}

// What stands of it before a comment too.
pub fn bare(line: &[u8]) -> &[u8]
    ensures { result.now ≡ bare line.now }
{
    let line = less_return(line);
    let (front, _) = line.split_at(tokens::find(line, Sort::Hash));
    front
}

// A planner's number, by name or by number, where the word is either.
#[tactic(auto, unfolding(crate::specs::Lines::planner_of))]
fn planner(word: &[u8]) -> Option<u8>
    ensures { result ≡ planner_of word.now }
{
    if tokens::is_name(word, b"reference") {
        return Some(0);
    }
    if tokens::is_name(word, b"horizon") {
        return Some(1);
    }
    if tokens::is_name(word, b"stuffing") {
        return Some(2);
    }
    if tokens::is_name(word, b"full") {
        return Some(3);
    }
    let number = tokens::read_number(word, 255)?;
    Some(number as u8)
}

// The numbers behind so many words of a line, one for each limit.
fn numbers<const N: usize>(
    text: &[u8],
    mosts: &[u32; N],
    kind: Kind,
    before: usize,
) -> Result<[u32; N], Wrong>
    requires { before ≤ 2 }
    ensures { MatchResult result (λ values. Numbers (words text.now) mosts.now values) (λ w. (w ≡ record { kind = kind; word = wrong 1 mosts.now (words text.now) + before }) × (wrong 1 mosts.now (words text.now) ≢ 0)) }
{
    tokens::read_numbers(text, mosts).map_err(|n| Wrong {
        kind,
        word: n + before,
    })
}

// The words behind the name of each kind of line; those of a board with a third word, which is its grid.
#[tactic(auto, unfolding(crate::specs::Lines::grid_line, crate::specs::Lines::said_or))]
fn grid_line(text: &[u8]) -> Result<Option<Event>, Wrong>
    ensures { result ≡ grid_line (words text.now) }
{
    let [columns, rows, grid] = numbers(text, &[65535, 65535, 255], Kind::Board, 1)?;
    Ok(Some(Event::GridBoard {
        columns: columns as u16,
        rows: rows as u16,
        grid: grid as u8,
    }))
}

// Of two numbers the third is the wrong one exactly where W and H are right and a word stands behind them: the grid.
fn board_line(text: &[u8]) -> Result<Option<Event>, Wrong>
    ensures { result ≡ board_line (words text.now) }
{
    match tokens::read_numbers::<2>(text, &[65535, 65535]) {
        Ok(values) => Ok(Some(Event::NewBoard {
            columns: values[0] as u16,
            rows: values[1] as u16,
        })),
        Err(3) => grid_line(text),
        Err(word) => Err(Wrong {
            kind: Kind::Board,
            word: word + 1,
        }),
    }
}

#[tactic(auto, unfolding(crate::specs::Lines::submit_line, crate::specs::Lines::submit_behind, crate::specs::Lines::submit_numbers, crate::specs::Lines::said_or, crate::specs::Lines::asks))]
fn submit_line(text: &[u8]) -> Result<Option<Event>, Wrong>
    ensures { result ≡ submit_line (words text.now) }
{
    let (word, behind) = tokens::next(text);
    let Some(planner) = planner(word) else {
        return Err(Wrong {
            kind: Kind::Submit,
            word: 2,
        });
    };
    let mosts = [u32::MAX, 65535, 65535, u32::MAX, u32::MAX];
    let [id, w, h, e, d] = numbers(behind, &mosts, Kind::Submit, 2)?;
    let ask = Ask {
        id,
        w: w as u16,
        h: h as u16,
        e,
        d,
    };
    Ok(Some(Event::Submit { planner, ask }))
}

#[tactic(auto, unfolding(crate::specs::Lines::clock_line, crate::specs::Lines::said_or))]
fn clock_line(text: &[u8]) -> Result<Option<Event>, Wrong>
    ensures { result ≡ clock_line (words text.now) }
{
    let [instant] = numbers(text, &[u32::MAX], Kind::Clock, 1)?;
    Ok(Some(Event::Clock { instant }))
}

#[tactic(auto, unfolding(crate::specs::Lines::withdraw_line, crate::specs::Lines::said_or))]
fn withdraw_line(text: &[u8]) -> Result<Option<Event>, Wrong>
    ensures { result ≡ withdraw_line (words text.now) }
{
    let [id] = numbers(text, &[u32::MAX], Kind::Withdraw, 1)?;
    Ok(Some(Event::Withdraw { id }))
}

// A line without its comment and its end.
#[tactic(auto, unfolding(crate::specs::Lines::said_by))]
fn said(text: &[u8]) -> Result<Option<Event>, Wrong>
    ensures { result ≡ said_by (first_word (words text.now)) (other_words (words text.now)) }
{
    let (name, behind) = tokens::next(text);
    if tokens::is_empty(name) {
        return Ok(None);
    }
    if tokens::is_name(name, b"board") {
        return board_line(behind);
    }
    if tokens::is_name(name, b"submit") {
        return submit_line(behind);
    }
    if tokens::is_name(name, b"clock") {
        return clock_line(behind);
    }
    if tokens::is_name(name, b"withdraw") {
        return withdraw_line(behind);
    }
    Err(Wrong {
        kind: Kind::Unnamed,
        word: 1,
    })
}

// WHAT A LINE SAYS: an event, or nothing; or which of its words is wrong.
pub fn read(line: &[u8]) -> Result<Option<Event>, Wrong>
    ensures { result ≡ says line.now }
{
    said(bare(line))
}
