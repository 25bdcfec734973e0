// The answer numbers of documents 01 and 02 in words.
#![tactic(auto)]

ghost use Rattle.std.specs.Prelude.{◌≡◌, ◌+◌, ◌≤◌, length};
ghost use Rattle.text.specs.Digits.{Put};
ghost use Rattle.answer_words.specs.AnswerWords.{answer_words};

// An answer in words; none for a number that they do not give.
// Stays: bytes and no Display, since std's `write!` into a lent `&mut [u8]` may fail, and no clause tells the bytes it puts.
#[tactic(auto, unfolding(crate::specs::AnswerWords::answer_words))]
fn in_words(number: u32) -> &'static [u8]
    ensures words { result.now ≡ answer_words number }
    ensures upper_bound { length result.now ≤ 45 }
{
    match number {
        0 => b"done",
        1 => b"the board is not sound",
        2 => b"W, H or G out of range, or W no multiple of G",
        3 => b"no such planner",
        4 => b"the id is 0",
        5 => b"w or h out of range, or w no multiple of G",
        6 => b"e or d out of range",
        7 => b"the id is live already",
        8 => b"d is before now + e",
        9 => b"64 tasks are live",
        10 => b"rejected: no place",
        11 => b"the instant is before now",
        12 => b"the instant is over 2000000000",
        13 => b"the id is not live",
        14 => b"the task is running",
        15 => b"the record is cut short",
        16 => b"unknown kind byte",
        17 => b"the buffer is too short",
        18 => b"the laxity is over 10000000",
        _ => b"",
    }
}

// An answer in words from a place on; the place after them.
pub fn put_answer(out: &mut [u8], at: usize, number: u32) -> usize
    requires { at + 45 ≤ length out.old }
    ensures put { Put out.old at (answer_words number) out.new result }
    ensures upper_bound { result ≤ at + 45 }
{
    text::put_bytes(out, at, in_words(number))
}
