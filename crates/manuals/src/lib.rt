// What the programs say of themselves.
#![tactic(auto)]

ghost use Rattle.std.specs.Prelude.{◌≡◌, cond, ◌++◌, ◌+◌, ◌≤◌, length};
ghost use Rattle.lists.specs.Lists.{over_front};
ghost use Rattle.text.specs.Digits.{Put};
ghost use Rattle.manuals.specs.Manuals.{answers_text, plan_manual, record_manual, ask_manual, summary_manual};

// The answer numbers in words from a place on; the place after them.
#[tactic(auto, unfolding(crate::specs::Manuals::answers_text, crate::specs::Manuals::answer_lines, text::specs::Text::decimal, text::specs::Text::decimal_in))]
fn put_answers(out: &mut [u8], at: usize) -> usize
    requires { at + 600 ≤ length out.old }
    ensures put { Put out.old at answers_text out.new result }
    ensures upper_bound { result ≤ at + 600 }
{
    text::put_bytes(
        out,
        at,
        b"answers:\n  0 done\n  1 the board is not sound\n  2 W, H or G out of range, or W no multiple of G\n  3 no such planner\n  4 the id is 0\n  5 w or h out of range, or w no multiple of G\n  6 e or d out of range\n  7 the id is live already\n  8 d is before now + e\n  9 64 tasks are live\n  10 rejected: no place\n  11 the instant is before now\n  12 the instant is over 2000000000\n  13 the id is not live\n  14 the task is running\n  15 the record is cut short\n  16 unknown kind byte\n  17 the buffer is too short\n  18 the laxity is over 10000000\n",
    )
}

// A manual where help was asked for, its head and the answers, and the usage otherwise, at the front of the buffer; how many
// bytes it takes.
fn put_manual(out: &mut [u8; 4096], help: bool, usage: &[u8], head: &[u8]) -> usize
    requires { (length usage.now ≤ 3496) × (length head.now ≤ 3496) }
    ensures value { result ≡ length (cond help (head.now ++ answers_text) usage.now) }
    ensures out_after { out.new ≡ over_front (cond help (head.now ++ answers_text) usage.now) out.old }
    ensures upper_bound { result ≤ length out.new }
{
    if !help {
        return text::put_bytes(out, 0, usage);
    }
    let at = text::put_bytes(out, 0, head);
    put_answers(out, at)
}

// `plan --help`, or its usage, at the front of the buffer; how many bytes it takes.
#[tactic(auto, unfolding(crate::specs::Manuals::plan_help, crate::specs::Manuals::plan_usage))]
pub fn put_plan(out: &mut [u8; 4096], help: bool) -> usize
    ensures value { result ≡ length (plan_manual help) }
    ensures out_after { out.new ≡ over_front (plan_manual help) out.old }
    ensures upper_bound { result ≤ length out.new }
{
    put_manual(
        out,
        help,
        b"usage: plan [--words] [FILE]; plan --help says more\n",
        b"plan [--words] [FILE]\n\nReads event records from FILE, or from standard input, and writes a header and a\nline for each: event number from 1, kind, answer, column, start, finish. Kinds are\n1 new board, 2 submit, 3 clock, 4 withdraw, 5 new board on a grid. Column, start and\nfinish are 0 unless a submission is answered 0. It stops at a record that is cut short\nor of no known kind, and after 1000000000 events; standard error then says so.\n\n  --words  adds to each line the id that the event names and the answer in words\n  --help   writes this\n\nexample: ./run record tests/listing/listing.txt | ./run plan --words\n\n",
    )
}

// `record --help`, or its usage, at the front of the buffer; how many bytes it takes.
#[tactic(auto, unfolding(crate::specs::Manuals::record_help, crate::specs::Manuals::record_usage))]
pub fn put_record(out: &mut [u8; 4096], help: bool) -> usize
    ensures value { result ≡ length (record_manual help) }
    ensures out_after { out.new ≡ over_front (record_manual help) out.old }
    ensures upper_bound { result ≤ length out.new }
{
    put_manual(
        out,
        help,
        b"usage: record [FILE]; record --help says more\n",
        b"record [FILE]\n\nReads lines of text from FILE, or from standard input, and writes an event record\nfor each:\n\n  board W H [G]                 a new board of W columns and H rows, on a grid of G columns (1)\n  submit PLANNER ID W H E D     a task of W columns, H rows, E ticks, deadline D\n  clock T                       the clock goes to T\n  withdraw ID                   a waiting task is taken back\n\nPLANNER is reference, horizon, stuffing, full, or a number from 0 to 255. Words are\nparted by spaces or tabs; a # begins a comment; empty lines are allowed. A wrong line\nends it: standard error says which word was expected, and a byte of no kind (0) ends\nthe records, so that no reader takes them for whole.\n\n  --help   writes this\n\nexample: printf 'board 4 1\\nsubmit full 1 2 1 2 9\\n' | ./run record | ./run plan\n\n",
    )
}

// `ask --help`, or its usage, at the front of the buffer; how many bytes it takes.
#[tactic(auto, unfolding(crate::specs::Manuals::ask_help, crate::specs::Manuals::ask_usage))]
pub fn put_ask(out: &mut [u8; 4096], help: bool) -> usize
    ensures value { result ≡ length (ask_manual help) }
    ensures out_after { out.new ≡ over_front (ask_manual help) out.old }
    ensures upper_bound { result ≤ length out.new }
{
    put_manual(
        out,
        help,
        b"usage: ask [--from FILE] horizon | busy T | openings W H E D [START COLUMN [MOST]] | board | stamp T; ask --help says more\n",
        b"ask [--from FILE] QUESTION\n\nReads event records from FILE, or from standard input, and answers a question about\nthe board as it stands then. The first line is `answer N`; rows follow only if N is 0.\n\n  horizon                                     rows: first last release\n  busy T                                      a row: the columns held at T\n  openings W H E D [START COLUMN [MOST]]      rows: start column, after the pair\n                                              (0 0), at most MOST (1000); then more or end\n  board                                       a row W H now, and G where the grid is not 1;\n                                              then a row for each live task:\n                                              slot id w h e d column start finish phase\n  stamp T                                     as board, the phases as they are at T\n\n  --help   writes this\n\nexample: ./run record tests/listing/listing.txt | ./run ask openings 1 1 2 9\n\n",
    )
}

// `summary --help`, or its usage, at the front of the buffer; how many bytes it takes.
#[tactic(auto, unfolding(crate::specs::Manuals::summary_help, crate::specs::Manuals::summary_usage))]
pub fn put_summary(out: &mut [u8; 4096], help: bool) -> usize
    ensures value { result ≡ length (summary_manual help) }
    ensures out_after { out.new ≡ over_front (summary_manual help) out.old }
    ensures upper_bound { result ≤ length out.new }
{
    put_manual(
        out,
        help,
        b"usage: summary [--add] [FILE ..]; summary --help says more\n",
        b"summary [--add] [FILE ..]\n\nReads event records, each FILE a recording of its own, or one from standard input, and\nwrites for each planner and laxity class how many tasks were submitted, taken, rejected\n(10) and refused (9, 18), the ticks waited (start less arrival) of those taken, and taken\nof submitted. Laxity is d - e - arrival: A is 1 to 50, B 51 to 100, C 101 to 200, Other\nthe rest. Submissions refused otherwise are in one line without class. The last line\nhas the events answered and the files read, and where it stopped: end, limit (after\n1000000000 events), or 15 or 16 with the file, the event's number and the kind byte.\n\n  --add    reads summaries that end in `stop end`, one or more in each FILE or from\n           standard input, and writes their sum\n  --help   writes this\n\nexample: ./run record tests/summary/table1.txt | ./run summary\n\n",
    )
}
