// Lines of a recording with the ids of their events and the answers in words: `plan --words`.
#![tactic(auto)]

ghost use Rattle.std.specs.Prelude.{◌≡◌, [], ◌∷◌, ◌++◌, ◌+◌, ◌*◌, ◌≤◌, length, get_or, drop};
ghost use Rattle.lists.specs.Lists.{over_front};
ghost use Rattle.text.specs.Digits.{Put};
ghost use Rattle.events.specs.Records.{id_of, read_from};
ghost use Rattle.worded.specs.Worded.{id_text};
ghost use Rattle.worded.specs.Rows.{worded_row, id_read, size_read, worded_rows};

use events::{Ask, Event};

// The id that the next event names, if it names one, and how many bytes the event takes.
#[derive(Clone, Copy)]
struct Name {
    id: Option<u32>,
    size: usize,
}

#[tactic(auto, unfolding(events::specs::Records::id_of))]
fn name_of(event: Event) -> Option<u32>
    ensures { result ≡ id_of event }
{
    match event {
        Event::NewBoard { .. } => None,
        Event::Submit { ask, .. } => Some(ask.id),
        Event::Clock { .. } => None,
        Event::Withdraw { id } => Some(id),
        Event::GridBoard { .. } => None,
    }
}

// The id and the size of the record at a place; no id and 0 bytes where there is no whole one.
// Stays: 0 and no Option, since `put_rows` then goes on from the same place, as its definition `size_read` has it.
fn next_name(bytes: &[u8], at: usize) -> Name
    ensures { (result.id ≡ id_read (read_from (drop at bytes.now))) × (result.size ≡ size_read (read_from (drop at bytes.now))) }
{
    match events::read_at(bytes, at) {
        Ok(Some((event, size))) => Name {
            id: name_of(event),
            size,
        },
        _ => Name { id: None, size: 0 },
    }
}

// An id and the space behind it; the place after both.
fn put_name(out: &mut [u8], at: usize, name: Name) -> usize
    requires { at + 11 ≤ length out.old }
    ensures put { Put out.old at (id_text name.id ++ (32 ∷ [])) out.new result }
    ensures upper_bound { result ≤ at + 11 }
{
    match name.id {
        Some(id) => text::put_ended::<10>(out, at, u64::from(id), b' '),
        None => text::put_bytes(out, at, b"- "),
    }
}

// A line of six numbers with an id and the answer in words; the place after it.
fn put_row(out: &mut [u8], at: usize, row: &[u32], name: Name) -> usize
    requires { (at + 134 ≤ length out.old) × (length row.now ≡ 6) }
    ensures put { Put out.old at (worded_row row.now (get_or row.now 2 0) name.id) out.new result }
    ensures upper_bound { result ≤ at + 134 }
{
    let answer = row[2];
    let id_at = text::put_spaced(out, at, row);
    let answer_at = put_name(out, id_at, name);
    let words_at = text::put_ended::<10>(out, answer_at, u64::from(answer), b' ');
    let end = answer_words::put_answer(out, words_at, answer);
    text::put_bytes(out, end, b"\n")
}

// Lines of six numbers each, with the ids of their events; how many bytes they take.
pub fn put_rows(out: &mut [u8], numbers: &[u32], count: usize, bytes: &[u8]) -> usize
    requires { (count * 134 ≤ length out.old) × (count * 6 ≤ length numbers.now) }
    ensures value { result ≡ length (worded_rows count numbers.now bytes.now) }
    ensures out_after { out.new ≡ over_front (worded_rows count numbers.now bytes.now) out.old }
    ensures upper_bound { result ≤ count * 134 }
{
    let mut place: usize = 0;
    let mut at: usize = 0;
    for i in 0..count {
        let name = next_name(bytes, at);
        place = put_row(out, place, &numbers[i * 6..i * 6 + 6], name);
        at += name.size;
    }
    place
}
