// What the system brings and takes: arguments, pieces of the input, writes. Nothing is promised of what it does with them; these
// lines and the C library's are what is trusted (docs/PROMISES.md, What is trusted).
#![tactic(auto)]

ghost use Rattle.std.specs.Prelude.{◌≡◌, ◌+◌, ◌≤◌, length, slice_index, IfSome, IfOk, IfErr};
ghost use Rattle.std.specs.IoError.{error_kind};

use arguments::Asked;
use batches::{Batch, Name};
use orders::Order;
use std::env::{Env, FillError};
use std::fs::{File, OpenOptions};
use std::io::{Error, ErrorKind, IsTerminal, Print, Read, Write};
use std::os::unix::fs::FileTypeExt;
use std::process::ExitCode;
use std::time::{CpuClock, Duration};
use std::{fs, io, str};

// A walk over the arguments, the program's own name not among them: one that is longer than a page is refused.
fn walk<T: Drop, F: FnMut(T, usize, &[u8]) -> T, G: Fn(T) -> T>(
    rt: &impl Env,
    first: T,
    mut take: F,
    refuse: G,
) -> T
    requires takes { F.IsAlwaysCallable take }
    requires refuses { G.IsAlwaysCallable refuse }
{
    let mut told = first;
    for i in 1..arguments(rt) {
        let mut argument = [0; 4096];
        told = match rt.arg(i, &mut argument) {
            Ok(n) => take(told, i, &argument[..n]),
            Err(_) => refuse(told),
        };
    }
    told
}

// What the arguments tell.
pub fn ordered(rt: &impl Env, wordy: bool) -> Order {
    walk(
        rt,
        orders::no_order(),
        |order, i, argument| orders::take(order, wordy, i, argument),
        orders::refuse,
    )
}

// What the arguments of `ask` tell; the words of its question stand in the lent text.
pub fn asked(rt: &impl Env, text: &mut [u8]) -> Asked {
    walk(
        rt,
        arguments::no_asked(),
        |a, i, argument| arguments::take(a, i, argument, text),
        arguments::refuse,
    )
}

// What the arguments of `summary` tell.
pub fn batched(rt: &impl Env) -> Batch {
    walk(
        rt,
        batches::no_batch(),
        |b, _, argument| batches::take(b, argument),
        batches::refuse,
    )
}

// Whether there is such an argument: one that is longer than a page is one.
fn is_given(rt: &impl Env, i: usize) -> bool {
    !matches!(rt.arg(i, &mut []), Err(FillError::NotPresent))
}

// How many arguments there are, the program's own name among them.
pub fn arguments(rt: &impl Env) -> usize {
    for i in 0..usize::MAX {
        if !is_given(rt, i) {
            return i;
        }
    }
    usize::MAX
}

// Puts an argument at the front of a page; how many bytes it has, 0 where it is not there or there is no room for it.
// Stays: no byte names no file, as in an argument of no byte (`orders::is_option`), so an Option would say it twice.
fn put_argument(rt: &impl Env, i: usize, bytes: &mut [u8]) -> usize
    ensures { result ≤ length bytes.new }
{
    rt.arg(i, bytes).unwrap_or(0)
}

// Standard input's name.
pub fn standard() -> Name
    ensures name { (result.size ≡ 1) × (slice_index result.bytes 0 ≡ 45) }
    ensures room { length result.bytes ≡ 4096 }
{
    let mut bytes = [0; 4096];
    bytes[0] = b'-';
    Name { bytes, size: 1 }
}

// The name that an argument names a file by, if it names one; standard input's for 0.
pub fn name_of(rt: &impl Env, file: usize) -> Option<Name>
    ensures { IfSome result (λ name. (name.size ≤ 4096) × (length name.bytes ≡ 4096)) }
{
    if file == 0 {
        return Some(standard());
    }
    let mut bytes = [0; 4096];
    let size = put_argument(rt, file, &mut bytes);
    if orders::is_option(&bytes[..size]) {
        return None;
    }
    Some(Name { bytes, size })
}

// Where the input comes from.
#[derive(Drop)]
pub enum Source {
    Standard,
    Opened(File),
}

// Where a piece of the input stands: from `from` to `to` it is still to be taken. `more`: the input has not ended. `failed`: it
// could not be read to its end.
// Stays: an enum of the three ways would be no plainer, since the programs ask for one of the two flags at a time.
#[derive(Drop)]
pub struct Input {
    pub source: Source,
    pub from: usize,
    pub to: usize,
    pub more: bool,
    pub failed: bool,
}

fn input_of(source: Source) -> Input
    ensures { (result.from ≡ 0) × (result.to ≡ 0) }
{
    Input {
        source,
        from: 0,
        to: 0,
        more: true,
        failed: false,
    }
}

// What std writes behind the reason of an error of the system's.
const NUMBER: &[u8] = b" (os error ";

// How many bytes the reason takes, in a text in which its number follows.
fn reason_size(text: &[u8]) -> usize
    ensures { result ≤ length text.now }
{
    text.windows(NUMBER.len())
        .position(|part| part == NUMBER)
        .unwrap_or(text.len())
}

// The reason of an error at the front of a page; how many bytes it takes.
fn put_reason(e: Error, out: &mut [u8]) -> usize
    ensures { result ≤ length out.new }
{
    let mut rest = &mut *out;
    let _ = write!(rest, "{e}");
    let left = rest.len();
    let used = out.len().saturating_sub(left);
    reason_size(&out[..used])
}

// Says on standard error what failed, and why.
fn fail(rt: &HostRuntime, program: &[u8], what: &[u8], e: Error) {
    let mut reason = [0u8; 256];
    let size = put_reason(e, &mut reason);
    let stderr = rt.stderr();
    let _ = Print::write_all(&stderr, program);
    let _ = Print::write_all(&stderr, what);
    let _ = Print::write_all(&stderr, b": ");
    let _ = Print::write_all(&stderr, &reason[..size]);
    let _ = Print::write_all(&stderr, b"\n");
}

// What the system answers where a name is not text: std opens no other.
const NO_TEXT: i32 = 84;

fn open_named(rt: &HostRuntime, path: &[u8]) -> io::Result<File> {
    match str::from_utf8(path) {
        Ok(name) => fs::open(rt, name),
        Err(_) => Err(Error::from_raw_os_error(NO_TEXT)),
    }
}

// The file that an argument names, standard input where it is 0. Where it cannot be opened, standard error says why.
pub fn open(rt: &HostRuntime, program: &[u8], file: usize) -> Option<Input>
    ensures { IfSome result (λ input. (input.from ≡ 0) × (input.to ≡ 0)) }
{
    if file == 0 {
        return Some(input_of(Source::Standard));
    }
    let mut path = [0; 4096];
    let n = put_argument(rt, file, &mut path);
    match open_named(rt, &path[..n]) {
        Ok(opened) => Some(input_of(Source::Opened(opened))),
        Err(e) => {
            fail(rt, program, &path[..n], e);
            None
        }
    }
}

fn read_piece(rt: &HostRuntime, source: &mut Source, piece: &mut [u8]) -> io::Result<usize>
    ensures { IfOk result (λ n. n ≤ length piece.new) }
{
    match source {
        Source::Standard => rt.stdin().read(piece),
        Source::Opened(file) => file.read(piece),
    }
}

// The next piece, where the last one has been taken. A read that fails is not the end.
pub fn fill(rt: &HostRuntime, input: Input, program: &[u8], piece: &mut [u8]) -> Input
    requires { (input.from ≤ input.to) × (input.to ≤ length piece.old) }
    ensures { (result.from ≤ result.to) × (result.to ≤ length piece.old) }
{
    if input.from < input.to {
        return input;
    }
    let mut source = input.source;
    match read_piece(rt, &mut source, piece) {
        Ok(got) => Input {
            source,
            from: 0,
            to: got,
            more: 0 < got,
            failed: false,
        },
        Err(e) => {
            fail(rt, program, b"cannot read", e);
            Input {
                source,
                from: 0,
                to: 0,
                more: false,
                failed: true,
            }
        }
    }
}

// So much of the piece was taken.
pub fn pass(input: Input, taken: usize) -> Input
    requires { input.from + taken ≤ input.to }
    ensures { (result.from ≤ result.to) × (result.to ≡ input.to) }
{
    let from = input.from + taken;
    Input { from, ..input }
}

// Why a write failed, if it did. An `Err` where nobody reads what is written: the runtime keeps the system's signal away, which
// would have ended the program there.
fn failure(written: io::Result<()>) -> io::Result<Option<Error>>
    ensures { IfErr result (λ e. error_kind e ≡ ErrorKind.BrokenPipe) }
{
    match written {
        Ok(()) => Ok(None),
        Err(e) => match e.kind() {
            ErrorKind::BrokenPipe => Err(e),
            _ => Ok(Some(e)),
        },
    }
}

// Writes to standard output and standard error; where that fails, standard error says so, and there is nothing to go on with. An
// `Err` where nobody reads what is written: nothing more is, and the program is to end (`status`).
pub fn write(rt: &HostRuntime, program: &[u8], out: &[u8], err: &[u8]) -> io::Result<bool>
    ensures { IfErr result (λ e. error_kind e ≡ ErrorKind.BrokenPipe) }
{
    let told = failure(Print::write_all(&rt.stdout(), out))?;
    let said = failure(Print::write_all(&rt.stderr(), err))?;
    match told.or(said) {
        None => Ok(true),
        Some(e) => {
            fail(rt, program, b"cannot write", e);
            Ok(false)
        }
    }
}

// A manual that was asked for goes to standard output, a usage to standard error.
pub fn tell(rt: &HostRuntime, program: &[u8], asked: bool, manual: &[u8]) -> io::Result<bool>
    ensures { IfErr result (λ e. error_kind e ≡ ErrorKind.BrokenPipe) }
{
    if asked {
        return write(rt, program, manual, b"");
    }
    write(rt, program, b"", manual)
}

// What a shell shows of a program that the system's signal ended since nobody read what it wrote.
const UNREAD: u8 = 141;

// With what a program ends.
pub fn status(ended: io::Result<()>) -> ExitCode {
    match ended {
        Ok(()) => ExitCode::SUCCESS,
        Err(_) => ExitCode::from(UNREAD),
    }
}

// Where `./run` hands on the terminal of its standard error, whose place it takes to see whether anything is written there.
const HANDED: &str = "/dev/fd/9";

// A terminal that may be told how far a program is.
#[derive(Drop)]
pub enum Terminal {
    Standard,
    Handed(File),
}

// When the terminal was last told how far it is: by the quarter of a second of the processor's time. Only a terminal is told.
#[derive(Drop)]
pub struct Pace {
    pub due: bool,
    pub quarter: u64,
    pub terminal: Option<Terminal>,
}

// The file under the number 9, where that is a terminal. Nothing else is opened.
fn handed(rt: &HostRuntime) -> io::Result<Option<File>> {
    if !fs::metadata(rt, HANDED)?.file_type().is_char_device() {
        return Ok(None);
    }
    let file = OpenOptions::new().write(true).open(rt, HANDED)?;
    if file.is_terminal() {
        Ok(Some(file))
    } else {
        Ok(None)
    }
}

fn told_terminal(rt: &HostRuntime) -> Option<Terminal> {
    if rt.stderr().is_terminal() {
        return Some(Terminal::Standard);
    }
    handed(rt).ok()?.map(Terminal::Handed)
}

pub fn first_pace(rt: &HostRuntime) -> Pace {
    Pace {
        due: false,
        quarter: 0,
        terminal: told_terminal(rt),
    }
}

// How often 2^18 microseconds have passed.
fn quarters(time: Duration) -> u64 {
    let micros = u64::from(time.subsec_micros());
    time.as_secs()
        .saturating_mul(1_000_000)
        .saturating_add(micros)
        >> 18
}

// Sets `due` where a quarter of a second has passed, which is 2^18 microseconds here; on no terminal it does nothing.
pub fn tick(rt: &impl CpuClock, pace: &mut Pace) {
    if pace.terminal.is_none() {
        return;
    }
    let quarter = match rt.process_cpu_time() {
        Ok(time) => quarters(time),
        Err(_) => pace.quarter,
    };
    pace.due = quarter != pace.quarter;
    pace.quarter = quarter;
}

// What `summary` says before a message about a file: `summary: FILE: `.
// Stays: a name of up to 4096 bytes is copied into fixed memory, so a buffer with its length beside.
#[derive(Clone, Copy)]
pub struct Label {
    pub bytes: [u8; 8192],
    pub size: usize,
}

pub fn label_of(program: &[u8], name: Name) -> Label
    requires { (length program.now ≤ 16) × (name.size ≤ 4096) }
    ensures { result.size ≤ 8192 }
{
    let mut bytes = [0; 8192];
    let name_at = text::put_bytes(&mut bytes, 0, program);
    let after = text::put_bytes(&mut bytes, name_at, &name.bytes[..name.size]);
    let size = text::put_bytes(&mut bytes, after, b": ");
    Label { bytes, size }
}

// Writes to the terminal that is told; where that fails, it is told nothing.
fn put(rt: &HostRuntime, terminal: &Terminal, bytes: &[u8]) {
    let _ = match terminal {
        Terminal::Standard => Print::write_all(&rt.stderr(), bytes),
        Terminal::Handed(file) => {
            let mut to = file;
            Write::write_all(&mut to, bytes)
        }
    };
}

// Tells the terminal, where there is one, how far it is, in place of what it was told before; what is written next begins in the
// same line.
pub fn show(rt: &HostRuntime, pace: &Pace, text: &[u8]) {
    if let Some(terminal) = &pace.terminal {
        put(rt, terminal, &[27, b'[', b'K']);
        put(rt, terminal, text);
        put(rt, terminal, &[13]);
    }
}
