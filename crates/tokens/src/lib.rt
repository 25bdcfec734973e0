// The words of a line or of a question, and the numbers that they are.
#![tactic(auto)]

ghost use Rattle.std.specs.Prelude.{◌≡◌, [], ◌++◌, cond, ◌+◌, ◌-◌, ◌*◌, ◌≤◌, length, Some, None, IfSome, MatchResult};
ghost use Rattle.lists.specs.Lists.{index_of};
ghost use Rattle.text.specs.Text.{value};
ghost use Rattle.tokens.specs.Tokens.{blank, stops_at, words, first_word, other_words, same, digit, empty, fits};
ghost use Rattle.tokens.specs.Walks.{Numbers, FirstWrong};

// What a search stops at.
#[derive(Clone, Copy)]
pub enum Sort {
    Blank,
    Solid,
    Hash,
    Newline,
}

fn is_blank(b: u8) -> bool
    ensures { result ≡ blank b }
{
    (b == b' ') | (b == b'\t')
}

#[tactic(auto, unfolding(crate::specs::Tokens::stops_at))]
fn stops(sort: Sort, b: u8) -> bool
    ensures { result ≡ stops_at sort b }
{
    match sort {
        Sort::Blank => is_blank(b),
        Sort::Solid => !is_blank(b),
        Sort::Hash => b == b'#',
        Sort::Newline => b == b'\n',
    }
}

// Where the first byte stands at which the search stops; the length where there is none.
// Stays: the test is a value and no closure, since a closure has to be callable, and this function asks nothing of its callers.
pub fn find(text: &[u8], sort: Sort) -> usize
    ensures value { result ≡ index_of (stops_at sort) text.now }
    ensures upper_bound { result ≤ length text.now }
{
    text.iter()
        .position(|b| stops(sort, *b))
        .unwrap_or(text.len())
}

// The first word of a text, and what stands behind it; no byte where there is no word.
pub fn next(text: &[u8]) -> (&[u8], &[u8])
    ensures word { result.0.now ≡ first_word (words text.now) }
    ensures behind { words result.1.now ≡ other_words (words text.now) }
    ensures parts { (before : _) × (text.now ≡ before ++ (result.0.now ++ result.1.now)) }
    ensures last { result.0.now ≡ [] → result.1.now ≡ [] }
{
    let (_, solid) = text.split_at(find(text, Sort::Solid));
    solid.split_at(find(solid, Sort::Blank))
}

pub fn is_empty(word: &[u8]) -> bool
    ensures { result ≡ empty word.now }
{
    word.is_empty()
}

pub fn is_name(word: &[u8], name: &[u8]) -> bool
    ensures { result ≡ same word.now name.now }
{
    word == name
}

fn is_digit(b: u8) -> bool
    ensures { result ≡ digit b }
{
    b.is_ascii_digit()
}

// A digit behind a number. Wide, so that no step can wrap.
fn behind(v: u32, b: u8) -> u64
    requires { 48 ≤ b }
    ensures { result ≡ v * 10 + (b - 48) }
{
    u64::from(v) * 10 + u64::from(b - 48)
}

// A word as a number that is at most so large.
pub fn read_number(word: &[u8], most: u32) -> Option<u32>
    ensures value { result ≡ cond (fits most word.now) (Some (value 0 word.now)) None }
    ensures upper_bound { IfSome result (λ v. v ≤ most) }
{
    if word.is_empty() {
        return None;
    }
    let mut value: u32 = 0;
    for b in word {
        if !is_digit(*b) {
            return None;
        }
        let more = behind(value, *b);
        if more > u64::from(most) {
            return None;
        }
        value = more as u32;
    }
    Some(value)
}

// The numbers that the words of a text are, one for each limit and no more, at the front of an array; or which of the words is
// wrong, counted from 1.
pub fn read_numbers<const N: usize>(text: &[u8], mosts: &[u32]) -> Result<[u32; N], usize>
    requires { length mosts.now ≤ N }
    ensures { MatchResult result (λ values. Numbers (words text.now) mosts.now values) (λ n. FirstWrong (words text.now) mosts.now n) }
{
    let mut values = [0; N];
    let mut rest = text;
    for i in 0..mosts.len() {
        let (word, behind) = next(rest);
        let Some(value) = read_number(word, mosts[i]) else {
            return Err(i + 1);
        };
        values[i] = value;
        rest = behind;
    }
    let (more, _) = next(rest);
    if is_empty(more) {
        Ok(values)
    } else {
        Err(mosts.len() + 1)
    }
}
