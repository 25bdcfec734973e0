// Lines of text to event records, piece by piece: the machine that the program `record` runs.
#![tactic(auto)]

ghost use Rattle.std.specs.Prelude.{◌≡◌, ◌&&◌, leb, ltb, [], map, ◌+◌, ◌-◌, ◌≤◌, length, get_or};
ghost use Rattle.std.proofs.lemmas.List.Edits.{sets};
ghost use Rattle.lists.specs.Lists.{over_front};
ghost use Rattle.events.specs.Records.{record_of};
ghost use Rattle.text.specs.Digits.{Put};
ghost use Rattle.tokens.specs.Tokens.{words};
ghost use Rattle.lines.specs.Lines.{bare};
ghost use Rattle.recorder.specs.Recorder.{unmarked, shown_byte, quoted, board_wants, submit_wants, clock_wants, withdraw_wants, expected, count_text, wrong_text, long_text, line_made};
ghost use Rattle.recorder.specs.Machine.{step_of, begun, added, part_fed, feeding, fed_of, closing, closed_of};

use events::Event;
use lines::{Kind, Wrong};
use tokens::Sort;

// Where the machine stands: the number of the line that it reads, the records so far, how many bytes of the line are held,
// whether it goes on.
// Stays: the project has no heap, so the line's bytes lie in a buffer that is lent, with their number here.
#[derive(Clone, Copy)]
pub struct Recorder {
    pub line: u64,
    pub records: u64,
    pub held: u16,
    pub more: bool,
}

// Where it then stands, how many bytes of the piece it took, and how many it wrote: records, and a message.
#[derive(Clone, Copy)]
pub struct Fed {
    pub recorder: Recorder,
    pub taken: usize,
    pub used: usize,
    pub said: usize,
}

// What a line of each kind has at a word.
// Stays: four tables of texts with no proof of their own; one function handed the texts of two kinds is no plainer.
#[tactic(auto, unfolding(crate::specs::Recorder::board_wants))]
fn board_wants(word: usize) -> &'static [u8]
    ensures wants { result.now ≡ board_wants word }
    ensures upper_bound { length result.now ≤ 70 }
{
    match word {
        2 => b"W, a number from 0 to 65535 (board W H [G])",
        3 => b"H, a number from 0 to 65535 (board W H [G])",
        4 => b"G, a number from 0 to 255, or the end of the line (board W H [G])",
        _ => b"the end of the line (board W H [G])",
    }
}

#[tactic(auto, unfolding(crate::specs::Recorder::submit_wants))]
fn submit_wants(word: usize) -> &'static [u8]
    ensures wants { result.now ≡ submit_wants word }
    ensures upper_bound { length result.now ≤ 70 }
{
    match word {
        2 => b"PLANNER, reference, horizon, stuffing, full or a number from 0 to 255",
        3 => b"ID, a number from 0 to 4294967295",
        4 => b"W, a number from 0 to 65535",
        5 => b"H, a number from 0 to 65535",
        6 => b"E, a number from 0 to 4294967295",
        7 => b"D, a number from 0 to 4294967295",
        _ => b"the end of the line",
    }
}

#[tactic(auto, unfolding(crate::specs::Recorder::clock_wants))]
fn clock_wants(word: usize) -> &'static [u8]
    ensures wants { result.now ≡ clock_wants word }
    ensures upper_bound { length result.now ≤ 70 }
{
    match word {
        2 => b"T, a number from 0 to 4294967295 (clock T)",
        _ => b"the end of the line (clock T)",
    }
}

#[tactic(auto, unfolding(crate::specs::Recorder::withdraw_wants))]
fn withdraw_wants(word: usize) -> &'static [u8]
    ensures wants { result.now ≡ withdraw_wants word }
    ensures upper_bound { length result.now ≤ 70 }
{
    match word {
        2 => b"ID, a number from 0 to 4294967295 (withdraw ID)",
        _ => b"the end of the line (withdraw ID)",
    }
}

fn put_expected(err: &mut [u8], at: usize, kind: Kind, word: usize) -> usize
    requires { at + 100 ≤ length err.old }
    ensures put { Put err.old at (expected kind word) err.new result }
    ensures upper_bound { result ≤ at + 100 }
{
    match kind {
        Kind::Unnamed => text::put_bytes(err, at, b"board, submit, clock or withdraw"),
        Kind::Board => text::put_bytes(err, at, board_wants(word)),
        Kind::Submit => {
            let next = text::put_bytes(err, at, submit_wants(word));
            text::put_bytes(err, next, b" (submit PLANNER ID W H E D)")
        }
        Kind::Clock => text::put_bytes(err, at, clock_wants(word)),
        Kind::Withdraw => text::put_bytes(err, at, withdraw_wants(word)),
    }
}

// A byte as it is shown.
fn shown(b: u8) -> u8
    ensures { result ≡ shown_byte b }
{
    if (32 <= b) & (b <= 126) { b } else { b'?' }
}

// Bytes as they are shown.
fn put_shown(err: &mut [u8], at: usize, word: &[u8]) -> usize
    requires { at + length word.now ≤ length err.old }
    ensures put { Put err.old at (map shown_byte word.now) err.new result }
    ensures value { result ≡ at + length word.now }
{
    for (i, b) in word.iter().enumerate() {
        err[at + i] = shown(*b);
    }
    at + word.len()
}

// The wrong word in quotes, or that there is none.
fn put_quoted(err: &mut [u8], at: usize, word: &[u8]) -> usize
    requires { at + 44 ≤ length err.old }
    ensures put { Put err.old at (quoted word.now) err.new result }
    ensures upper_bound { result ≤ at + 44 }
{
    if tokens::is_empty(word) {
        return text::put_bytes(err, at, b"the line ends");
    }
    let first = text::put_bytes(err, at, b"'");
    if 40 < word.len() {
        let cut = put_shown(err, first, &word[0..40]);
        return text::put_bytes(err, cut, b"..'");
    }
    let end = put_shown(err, first, word);
    text::put_bytes(err, end, b"'")
}

// How many records were written: the end of a message.
fn put_count(err: &mut [u8], at: usize, records: u64) -> usize
    requires { at + 40 ≤ length err.old }
    ensures put { Put err.old at (count_text records) err.new result }
    ensures upper_bound { result ≤ at + 40 }
{
    let number = text::put_bytes(err, at, b"; records written: ");
    let end = text::put_number::<20>(err, number, records);
    text::put_bytes(err, end, b"\n")
}

// The message of a wrong line, at the front of the buffer; how many bytes it takes.
fn put_wrong(
    err: &mut [u8; 512],
    line: u64,
    records: u64,
    kind: Kind,
    word: usize,
    bytes: &[u8],
) -> usize
    ensures value { result ≡ length (wrong_text line records kind word bytes.now) }
    ensures err_after { err.new ≡ over_front (wrong_text line records kind word bytes.now) err.old }
{
    let line_at = text::put_bytes(err, 0, b"record: line ");
    let line_end = text::put_number::<20>(err, line_at, line);
    let word_at = text::put_bytes(err, line_end, b", word ");
    let word_end = text::put_number::<20>(err, word_at, word as u64);
    let quote_at = text::put_bytes(err, word_end, b": ");
    let quote_end = put_quoted(err, quote_at, bytes);
    let wants_at = text::put_bytes(err, quote_end, b": expected ");
    let wants_end = put_expected(err, wants_at, kind, word);
    put_count(err, wants_end, records)
}

// The message of a line that is too long.
fn put_too_long(err: &mut [u8; 512], line: u64, records: u64) -> usize
    ensures value { result ≡ length (long_text line records) }
    ensures err_after { err.new ≡ over_front (long_text line records) err.old }
{
    let line_at = text::put_bytes(err, 0, b"record: line ");
    let line_end = text::put_number::<20>(err, line_at, line);
    let end = text::put_bytes(
        err,
        line_end,
        b": expected fewer than 65536 bytes in a line",
    );
    put_count(err, end, records)
}

// A word of a text, counted from 1.
fn nth_word(text: &[u8], word: usize) -> &[u8]
    ensures { result.now ≡ get_or (words text.now) (word - 1) [] }
{
    let mut rest = text;
    for i in 1..word {
        (_, rest) = tokens::next(rest);
    }
    let (found, _) = tokens::next(rest);
    found
}

// The message of a line whose word is wrong.
fn complain(
    err: &mut [u8; 512],
    line: u64,
    records: u64,
    kind: Kind,
    word: usize,
    text: &[u8],
) -> usize
    ensures value { result ≡ length (wrong_text line records kind word (get_or (words (bare text.now)) (word - 1) [])) }
    ensures err_after { err.new ≡ over_front (wrong_text line records kind word (get_or (words (bare text.now)) (word - 1) [])) err.old }
{
    let shown = nth_word(lines::bare(text), word);
    put_wrong(err, line, records, kind, word, shown)
}

// Line n without a byte order mark before it.
fn unmarked(line: u64, text: &[u8]) -> &[u8]
    ensures { result.now ≡ unmarked line text.now }
{
    if line != 1 {
        return text;
    }
    match text.strip_prefix(b"\xEF\xBB\xBF") {
        Some(behind) => behind,
        None => text,
    }
}

// A record from a place on; its length. There is room for it, as no record is longer than 18 bytes.
fn put_record(out: &mut [u8], used: usize, event: Event) -> usize
    requires { used + 18 ≤ length out.old }
    ensures value { result ≡ length (record_of event) }
    ensures out_after { out.new ≡ sets out.old used (record_of event) }
{
    events::write(&mut out[used..], event).unwrap()
}

// What a line made: the bytes of its output, how many records that is, whether the run goes on.
// Stays: no enum, since the definition `step_of` names these fields, of what `line_made` says in the same words.
#[derive(Clone, Copy)]
pub struct Step {
    pub used: usize,
    pub said: usize,
    pub records: u64,
    pub more: bool,
}

// A WHOLE LINE: a record from a place of the buffer on, or a byte 0 there and a message.
fn put_line(
    line: u64,
    records: u64,
    text: &[u8],
    out: &mut [u8],
    used: usize,
    err: &mut [u8; 512],
) -> Step
    requires { used + 18 ≤ length out.old }
    ensures value { result ≡ step_of (line_made line records text.now) }
    ensures out_after { out.new ≡ sets out.old used (line_made line records text.now).output.out }
    ensures err_after { err.new ≡ over_front (line_made line records text.now).output.err err.old }
{
    let bare = unmarked(line, text);
    match lines::read(bare) {
        Ok(None) => Step {
            used: 0,
            said: 0,
            records: 0,
            more: true,
        },
        Ok(Some(event)) => Step {
            used: put_record(out, used, event),
            said: 0,
            records: 1,
            more: true,
        },
        Err(Wrong { kind, word }) => {
            out[used] = 0;
            Step {
                used: 1,
                said: complain(err, line, records, kind, word, bare),
                records: 0,
                more: false,
            }
        }
    }
}

// A counter stays at its largest number.
fn add(n: u64, k: u64) -> u64
    ensures { result ≡ added n k }
{
    n.saturating_add(k)
}

// Bytes without a line feed behind the held ones, where there is room; `ends` where a line feed stands behind them.
fn feed_part(
    r: Recorder,
    held: &mut [u8; 65536],
    part: &[u8],
    ends: bool,
    out: &mut [u8],
    used: usize,
    err: &mut [u8; 512],
) -> Fed
    requires { used + 18 ≤ length out.old }
    ensures value { result ≡ fed_of (part_fed r held.old part.now ends) }
    ensures held_after { held.new ≡ (part_fed r held.old part.now ends).held }
    ensures out_after { out.new ≡ sets out.old used (part_fed r held.old part.now ends).output.out }
    ensures err_after { err.new ≡ over_front (part_fed r held.old part.now ends).output.err err.old }
{
    let from = usize::from(r.held);
    let size = part.len();
    if 65536 - from <= size {
        out[used] = 0;
        let said = put_too_long(err, r.line, r.records);
        return Fed {
            recorder: Recorder { more: false, ..r },
            taken: size,
            used: 1,
            said,
        };
    }
    let end = text::put_bytes(held, from, part);
    if ends {
        let whole = &held[..];
        let s = put_line(r.line, r.records, &whole[0..end], out, used, err);
        return Fed {
            recorder: Recorder {
                line: add(r.line, 1),
                records: add(r.records, s.records),
                held: 0,
                more: s.more,
            },
            taken: size + 1,
            used: s.used,
            said: s.said,
        };
    }
    Fed {
        recorder: Recorder {
            held: end as u16,
            ..r
        },
        taken: size,
        used: 0,
        said: 0,
    }
}

fn goes_on(more: bool, left: usize, room: usize) -> bool
    ensures { result ≡ ((more && ltb 0 left) && leb 18 room) }
{
    more & (0 < left) & (18 <= room)
}

// Line 1 is to be read, nothing is recorded.
pub fn begin() -> Recorder
    ensures { result ≡ begun }
{
    Recorder {
        line: 1,
        records: 0,
        held: 0,
        more: true,
    }
}

// A PIECE OF THE TEXT, as much of it as there is room for records.
pub fn feed(
    recorder: Recorder,
    held: &mut [u8; 65536],
    piece: &[u8],
    out: &mut [u8],
    err: &mut [u8; 512],
) -> Fed
    ensures value { result ≡ fed_of (feeding recorder held.old piece.now (length out.old)) }
    ensures held_after { held.new ≡ (feeding recorder held.old piece.now (length out.old)).held }
    ensures out_after { out.new ≡ over_front (feeding recorder held.old piece.now (length out.old)).output.out out.old }
    ensures err_after { err.new ≡ over_front (feeding recorder held.old piece.now (length out.old)).output.err err.old }
    ensures taken_in_bounds { (result.taken ≤ length piece.now) × (result.used ≤ length out.new) × (result.said ≤ length err.new) }
{
    let mut r = recorder;
    let mut at: usize = 0;
    let mut used: usize = 0;
    let mut said: usize = 0;
    // Stays: no index is counted, a turn takes as many bytes as a part has, and a wrong line ends the run.
    while goes_on(r.more, piece.len() - at, out.len() - used) {
        let end = at + tokens::find(&piece[at..], Sort::Newline);
        let p = feed_part(r, held, &piece[at..end], end < piece.len(), out, used, err);
        r = p.recorder;
        at += p.taken;
        used += p.used;
        said = p.said;
    }
    let taken = if r.more { at } else { piece.len() };
    Fed {
        recorder: r,
        taken,
        used,
        said,
    }
}

// THE END OF THE TEXT also ends a line. Where more should have come, `whole` is false: a byte 0 says so.
pub fn close(
    recorder: Recorder,
    held: &[u8; 65536],
    whole: bool,
    out: &mut [u8; 65536],
    err: &mut [u8; 512],
) -> Fed
    ensures value { result ≡ closed_of recorder (closing recorder held.now whole) }
    ensures out_after { out.new ≡ over_front (closing recorder held.now whole).out out.old }
    ensures err_after { err.new ≡ over_front (closing recorder held.now whole).err err.old }
    ensures used_in_bounds { (result.used ≤ length out.new) × (result.said ≤ length err.new) }
{
    let stopped = Recorder {
        more: false,
        ..recorder
    };
    if recorder.more {
        if whole {
            let n = usize::from(recorder.held);
            let all = &held[..];
            let s = put_line(recorder.line, recorder.records, &all[0..n], out, 0, err);
            return Fed {
                recorder: stopped,
                taken: 0,
                used: s.used,
                said: s.said,
            };
        }
        return Fed {
            recorder: stopped,
            taken: 0,
            used: text::put_bytes(out, 0, b"\0"),
            said: 0,
        };
    }
    Fed {
        recorder: stopped,
        taken: 0,
        used: 0,
        said: 0,
    }
}
