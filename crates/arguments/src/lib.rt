// The arguments of a program as one text, a space between two.
#![tactic(auto)]

ghost use Rattle.std.specs.Prelude.{◌≡◌, ◌+◌, ◌≤◌, leb, length};
ghost use Rattle.text.specs.Digits.{Put};
ghost use Rattle.arguments.specs.Arguments.{guarded, argument_text, joined_text};
ghost use Rattle.arguments.specs.Asked.{no_asked, asks_help, asks_from, refused_asked, takes_asked, text_asked};

// A space or a tab inside an argument would part it in two: a byte that matches nothing in its place.
fn guard(b: u8) -> u8
    ensures { result ≡ guarded b }
{
    if (b == b' ') | (b == b'\t') { b'?' } else { b }
}

// An argument from a place on, and so that it is one word; the place after it.
fn put_word(text: &mut [u8], at: usize, bytes: &[u8]) -> usize
    requires { at + length bytes.now + 1 ≤ length text.old }
    ensures put { Put text.old at (argument_text bytes.now) text.new result }
    ensures upper_bound { result ≤ at + length bytes.now + 1 }
{
    if bytes.is_empty() {
        text[at] = b'?';
        return at + 1;
    }
    for (i, b) in bytes.iter().enumerate() {
        text[at + i] = guard(*b);
    }
    at + bytes.len()
}

// The same behind the arguments before it, parted from them by one space.
pub fn put_argument(text: &mut [u8], at: usize, bytes: &[u8]) -> usize
    requires { at + length bytes.now + 2 ≤ length text.old }
    ensures put { Put text.old at (joined_text at bytes.now) text.new result }
    ensures upper_bound { result ≤ at + length bytes.now + 2 }
{
    if at == 0 {
        return put_word(text, at, bytes);
    }
    let next = text::put_bytes(text, at, b" ");
    put_word(text, next, bytes)
}

// What the arguments of `ask` tell: help, something wrong, that the next one names the file, which one does (0 for none), and
// how many bytes the words of the question take.
// Stays: an Option is no plainer: argument 0 is the program's own name, so 0 names no file already, and the definition
// `takes_asked` and the theorems over it (`ask_text/proofs/Whole`) count arguments from 1 with 0 for none.
#[derive(Clone, Copy)]
pub struct Asked {
    pub help: bool,
    pub wrong: bool,
    pub named: bool,
    pub file: usize,
    pub size: usize,
}

#[tactic(auto, unfolding(crate::specs::Asked::no_asked))]
pub fn no_asked() -> Asked
    ensures { result ≡ no_asked }
{
    Asked {
        help: false,
        wrong: false,
        named: false,
        file: 0,
        size: 0,
    }
}

// Whether a word more fits into so much room.
fn fits(size: usize, n: usize, room: usize) -> bool
    ensures { result ≡ leb (size + n + 2) room }
{
    (size <= room) && (n <= room - size) && (2 <= room - size - n)
}

fn is_help(a: Asked, argument: &[u8]) -> bool
    ensures { result ≡ asks_help a argument.now }
{
    (a.size == 0) & tokens::is_name(argument, b"--help")
}

fn is_from(a: Asked, argument: &[u8]) -> bool
    ensures { result ≡ asks_from a argument.now }
{
    (a.size == 0) & ((a.file == 0) & tokens::is_name(argument, b"--from"))
}

// One argument more, the i-th.
#[tactic(auto, unfolding(crate::specs::Asked::takes_asked, crate::specs::Asked::text_asked))]
pub fn take(a: Asked, i: usize, argument: &[u8], text: &mut [u8]) -> Asked
    ensures value { result ≡ takes_asked a i argument.now (length text.old) }
    ensures text_after { text.new ≡ text_asked a argument.now text.old }
{
    if a.named {
        return Asked {
            named: false,
            file: i,
            ..a
        };
    }
    if is_help(a, argument) {
        return Asked { help: true, ..a };
    }
    if is_from(a, argument) {
        return Asked { named: true, ..a };
    }
    if !fits(a.size, argument.len(), text.len()) {
        return refuse(a);
    }
    let size = put_argument(text, a.size, argument);
    Asked { size, ..a }
}

// An argument that is longer than any path: nothing can be told from it.
pub fn refuse(a: Asked) -> Asked
    ensures { result ≡ refused_asked a }
{
    Asked {
        wrong: true,
        named: false,
        ..a
    }
}
