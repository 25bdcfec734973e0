// Where a summary stops: the end of its last line, and the message.
#![tactic(auto)]

ghost use Rattle.std.specs.Prelude.{◌++◌, suc, ◌+◌, ◌≤◌, length};
ghost use Rattle.text.specs.Digits.{Put};
ghost use Rattle.stops.specs.Stops.{stopped_at, stop_words, stop_message, stop_said, progress_text};

use session::Ending;

// "15 FILE EVENT KIND" and the newline; the place after them.
fn put_stopped(
    out: &mut [u8; 8192],
    at: usize,
    number: &[u8],
    name: &[u8],
    before: u32,
    kind: u8,
) -> usize
    requires { (at ≤ 3000) × (length number.now ≤ 3) × (length name.now ≤ 4096) }
    ensures put { Put out.old at (stopped_at number.now name.now (suc before) kind) out.new result }
    ensures upper_bound { result ≤ length out.new }
{
    let name_at = text::put_bytes(out, at, number);
    let after_name = text::put_bytes(out, name_at, name);
    let event_at = text::put_bytes(out, after_name, b" ");
    let kind_at = text::put_ended::<10>(out, event_at, u64::from(before) + 1, b' ');
    text::put_ended::<3>(out, kind_at, u64::from(kind), b'\n')
}

// The end of the last line, behind so many events of the file; the place after it.
#[tactic(auto, unfolding(crate::specs::Stops::stop_words))]
pub fn put_words(out: &mut [u8; 8192], at: usize, name: &[u8], before: u32, end: Ending) -> usize
    requires { (at ≤ 3000) × (length name.now ≤ 4096) }
    ensures put { Put out.old at (stop_words name.now before end) out.new result }
    ensures upper_bound { result ≤ length out.new }
{
    match end {
        Ending::NotYet | Ending::AtEnd => text::put_bytes(out, at, b"end\n"),
        Ending::In15(kind) => put_stopped(out, at, b"15 ", name, before, kind),
        Ending::In16(kind) => put_stopped(out, at, b"16 ", name, before, kind),
        Ending::AtLast | Ending::PastLast => text::put_bytes(out, at, b"limit\n"),
    }
}

// The message of an event that is no whole record of a known kind, at the front of the buffer; how many bytes it takes.
fn put_message(err: &mut [u8; 8192], name: &[u8], before: u32, kind: u8, tail: &[u8]) -> usize
    requires { (length name.now ≤ 4096) × (length tail.now ≤ 60) }
    ensures put { Put err.old 0 (stop_message name.now (suc before) kind tail.now) err.new result }
    ensures upper_bound { result ≤ length err.new }
{
    let name_at = text::put_bytes(err, 0, b"summary: ");
    let after_name = text::put_bytes(err, name_at, name);
    text::put_event(
        err,
        after_name,
        b": event ",
        u64::from(before) + 1,
        kind,
        tail,
    )
}

// The message, none at the end; how many bytes it takes.
#[tactic(auto, unfolding(crate::specs::Stops::stop_said))]
pub fn put_said(err: &mut [u8; 8192], name: &[u8], before: u32, end: Ending) -> usize
    requires { length name.now ≤ 4096 }
    ensures put { Put err.old 0 (stop_said name.now before end) err.new result }
    ensures upper_bound { result ≤ length err.new }
{
    match end {
        Ending::NotYet | Ending::AtEnd => 0,
        Ending::In15(kind) => put_message(
            err,
            name,
            before,
            kind,
            b") is cut short (15): the recording is not whole\n",
        ),
        Ending::In16(kind) => put_message(
            err,
            name,
            before,
            kind,
            b") is of no known kind (16): the rest was not read\n",
        ),
        Ending::AtLast | Ending::PastLast => {
            text::put_bytes(err, 0, b"summary: stopped after 1000000000 events\n")
        }
    }
}

// How far it is, at the front of the buffer; how many bytes it takes.
pub fn put_progress(out: &mut [u8; 128], files: u64, events: u32) -> usize
    ensures put { Put out.old 0 (progress_text files events) out.new result }
    ensures upper_bound { result ≤ length out.new }
{
    let files_at = text::put_bytes(out, 0, b"summary: file ");
    let after_files = text::put_number::<20>(out, files_at, files);
    let events_at = text::put_bytes(out, after_files, b", ");
    let after_events = text::put_number::<10>(out, events_at, u64::from(events));
    text::put_bytes(out, after_events, b" events")
}
