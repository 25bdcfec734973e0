// The program `plan` of document 01: event records to a header and a line for each. A piece of the input is read and fed, and its
// lines are written before the next one is read: all of it together is `plan_text` of the whole (crates/listing).
#![tactic(auto)]

use std::io;
use std::process::ExitCode;

fn run(rt: &HostRuntime) -> io::Result<()> {
    let order = system::ordered(rt, true);
    let mut page = [0u8; 4096];
    if order.help | order.wrong {
        let size = manuals::put_plan(&mut page, order.help);
        system::tell(rt, b"plan: ", order.help, &page[..size])?;
        return Ok(());
    }
    let Some(mut input) = system::open(rt, b"plan: ", order.file) else {
        return Ok(());
    };
    let mut piece = [0u8; 65536];
    let mut text = [0u8; 65536];
    let mut header = [0u8; 64];
    let size = listing::put_header(&mut header, order.words);
    let mut l = listing::begin(order.words);
    let mut on = system::write(rt, b"plan: ", &header[..size], b"")?;
    // A loop has to end, and nothing says that the input does.
    for _ in 0..u64::MAX {
        if !on {
            break;
        }
        input = system::fill(rt, input, b"plan: ", &mut piece);
        let fed = listing::feed(l, &piece[input.from..input.to], &mut text);
        let done = system::write(rt, b"plan: ", &text[..fed.used], b"")?;
        l = fed.listing;
        input = system::pass(input, fed.taken);
        on = done & input.more & listing::goes_on(l);
    }
    if input.failed {
        return Ok(());
    }
    let mut line = [0u8; 128];
    let mut message = [0u8; 128];
    let end = listing::close(l, &mut line, &mut message);
    system::write(rt, b"plan: ", &line[..end.used], &message[..end.said])?;
    Ok(())
}

fn main(rt: HostRuntime) -> ExitCode {
    system::status(run(&rt))
}
