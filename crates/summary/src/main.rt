// The program `summary` of document 02, Q-1: recordings to acceptance figures, or, with `--add`, summaries to their sum. Files are
// read one after the other, a piece at a time, and the text is written at the end: `summary_text` of the files (crates/summing),
// or the sum (crates/adding). An argument that names no file is passed over; file 0 is standard input.
#![tactic(auto)]

use adding::Adding;
use batches::Name;
use std::io;
use std::ops::Range;
use std::process::ExitCode;
use summing::Summing;
use system::Pace;

// The machine after a file, the name of the last file read, and whether another may follow.
#[derive(Clone, Copy)]
struct Summed {
    summing: Summing,
    name: Name,
    on: bool,
}

// One file more; none where it could not be read.
fn sum_file(rt: &HostRuntime, before: Summed, file: usize, pace: &mut Pace) -> Option<Summed> {
    let Some(name) = system::name_of(rt, file) else {
        return Some(before);
    };
    let label = system::label_of(b"summary: ", name);
    let mut s = summing::begin_file(before.summing);
    let mut piece = [0u8; 65536];
    let mut numbers = [0u32; 24576];
    let mut input = system::open(rt, b"summary: ", file)?;
    // A loop has to end, and nothing says that the input does.
    for _ in 0..u64::MAX {
        input = system::fill(rt, input, &label.bytes[..label.size], &mut piece);
        let fed = summing::feed(s, &piece[input.from..input.to], &mut numbers);
        s = fed.summing;
        input = system::pass(input, fed.taken);
        show_progress(rt, s, pace);
        if !(input.more & summing::goes_on(s)) {
            break;
        }
    }
    if input.failed {
        return None;
    }
    Some(Summed {
        summing: s,
        name,
        on: summing::ends_whole(s),
    })
}

fn show_progress(rt: &HostRuntime, s: Summing, pace: &mut Pace) {
    system::tick(rt, pace);
    if pace.due {
        let mut line = [0u8; 128];
        let size = summing::put_progress(s, &mut line);
        system::show(rt, pace, &line[..size]);
    }
}

// All files, up to where the summary stops; none where one could not be read.
fn sum_all(rt: &HostRuntime, files: Range<usize>, pace: &mut Pace) -> Option<Summed> {
    let mut done = Summed {
        summing: summing::begin(),
        name: system::standard(),
        on: true,
    };
    for file in files {
        done = sum_file(rt, done, file, pace)?;
        if !done.on {
            break;
        }
    }
    Some(done)
}

fn sum_files(rt: &HostRuntime, files: Range<usize>) -> io::Result<()> {
    let mut pace = system::first_pace(rt);
    let summed = sum_all(rt, files, &mut pace);
    system::show(rt, &pace, b"");
    let Some(done) = summed else {
        return Ok(());
    };
    let mut out = [0u8; 8192];
    let mut err = [0u8; 8192];
    let closed = summing::close(done.summing, done.name, &mut out, &mut err);
    system::write(rt, b"summary: ", &out[..closed.used], &err[..closed.said])?;
    Ok(())
}

// The machine after a text; none where the text could not be read or was refused.
fn add_file(rt: &HostRuntime, before: Adding, file: usize) -> io::Result<Option<Adding>> {
    let Some(name) = system::name_of(rt, file) else {
        return Ok(Some(before));
    };
    let label = system::label_of(b"summary: ", name);
    let program = &label.bytes[..label.size];
    let mut a = adding::begin_text(before);
    let mut piece = [0u8; 65536];
    let Some(mut input) = system::open(rt, b"summary: ", file) else {
        return Ok(None);
    };
    // A loop has to end, and nothing says that the input does.
    for _ in 0..u64::MAX {
        input = system::fill(rt, input, program, &mut piece);
        let waiting = &piece[input.from..input.to];
        a = adding::feed(a, waiting);
        input = system::pass(input, waiting.len());
        if !(input.more & adding::goes_on(a)) {
            break;
        }
    }
    if input.failed {
        return Ok(None);
    }
    // The text is read no more: who writes it may have to know, before standard error takes what is said of it.
    drop(input);
    let end = adding::end_text(a);
    if adding::goes_on(end) {
        return Ok(Some(end));
    }
    let mut reason = [0u8; 128];
    let used = adding::put_refusal(end, &mut reason);
    system::write(rt, b"summary: ", b"", program)?;
    system::write(rt, b"summary: ", b"", &reason[..used])?;
    Ok(None)
}

fn add_files(rt: &HostRuntime, files: Range<usize>) -> io::Result<()> {
    let mut a = adding::begin();
    for file in files {
        let Some(next) = add_file(rt, a, file)? else {
            return Ok(());
        };
        a = next;
    }
    let mut out = [0u8; 8192];
    let used = adding::close(a, &mut out);
    system::write(rt, b"summary: ", &out[..used], b"")?;
    Ok(())
}

fn run(rt: &HostRuntime) -> io::Result<()> {
    let batch = system::batched(rt);
    let mut page = [0u8; 4096];
    if batch.help | batch.wrong {
        let size = manuals::put_summary(&mut page, batch.help);
        system::tell(rt, b"summary: ", batch.help, &page[..size])?;
        return Ok(());
    }
    let files = if batch.named {
        1..system::arguments(rt)
    } else {
        0..1
    };
    if batch.add {
        return add_files(rt, files);
    }
    sum_files(rt, files)
}

fn main(rt: HostRuntime) -> ExitCode {
    system::status(run(&rt))
}
