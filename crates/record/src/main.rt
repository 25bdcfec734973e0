// The program `record`: lines of text to event records. A piece of the input is read and fed, and what comes of it is written
// before the next one is read: all of it together is `record_bytes` of the whole text (crates/recorder).
#![tactic(auto)]

use std::io;
use std::process::ExitCode;

fn run(rt: &HostRuntime) -> io::Result<()> {
    let order = system::ordered(rt, false);
    let mut page = [0u8; 4096];
    if order.help | order.wrong {
        let size = manuals::put_record(&mut page, order.help);
        system::tell(rt, b"record: ", order.help, &page[..size])?;
        return Ok(());
    }
    let Some(mut input) = system::open(rt, b"record: ", order.file) else {
        return Ok(());
    };
    let mut piece = [0u8; 65536];
    let mut held = [0u8; 65536];
    let mut out = [0u8; 65536];
    let mut err = [0u8; 512];
    let mut r = recorder::begin();
    // A loop has to end, and nothing says that the input does.
    for _ in 0..u64::MAX {
        input = system::fill(rt, input, b"record: ", &mut piece);
        let waiting = &piece[input.from..input.to];
        let fed = recorder::feed(r, &mut held, waiting, &mut out, &mut err);
        let done = system::write(rt, b"record: ", &out[..fed.used], &err[..fed.said])?;
        r = fed.recorder;
        input = system::pass(input, fed.taken);
        if !(done & input.more & r.more) {
            break;
        }
    }
    let end = recorder::close(r, &held, !input.failed, &mut out, &mut err);
    system::write(rt, b"record: ", &out[..end.used], &err[..end.said])?;
    Ok(())
}

fn main(rt: HostRuntime) -> ExitCode {
    system::status(run(&rt))
}
