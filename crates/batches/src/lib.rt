// What `summary` is told by its arguments.
#![tactic(auto)]

ghost use Rattle.std.specs.Prelude.{◌≡◌, ◌≤◌, take};
ghost use Rattle.batches.specs.Batches.{no_batch, spoilt, includes, name_of};

// Whether help is asked for, summaries are to be added, an argument is wrong, a file is named.
#[derive(Clone, Copy)]
pub struct Batch {
    pub help: bool,
    pub add: bool,
    pub wrong: bool,
    pub named: bool,
}

// The name of a file, its first `size` bytes; `-` for standard input.
// Stays: a buffer with its size, as a name is copied into fixed memory.
#[derive(Clone, Copy)]
pub struct Name {
    pub bytes: [u8; 4096],
    pub size: usize,
}

// How many bytes a name has: no more than there is room for.
pub fn size_of(name: Name) -> usize
    ensures { (result ≤ 4096) × (take result name.bytes ≡ name_of name) }
{
    name.size.min(4096)
}

pub fn no_batch() -> Batch
    ensures { result ≡ no_batch }
{
    Batch {
        help: false,
        add: false,
        wrong: false,
        named: false,
    }
}

// One argument more.
pub fn take(b: Batch, argument: &[u8]) -> Batch
    ensures { result ≡ includes b argument.now }
{
    if tokens::is_name(argument, b"--help") {
        return Batch { help: true, ..b };
    }
    if tokens::is_name(argument, b"--add") {
        return Batch { add: true, ..b };
    }
    if orders::is_option(argument) {
        return refuse(b);
    }
    Batch { named: true, ..b }
}

// An argument that is longer than any path: nothing can be told from it.
pub fn refuse(b: Batch) -> Batch
    ensures { result ≡ spoilt b }
{
    Batch { wrong: true, ..b }
}
