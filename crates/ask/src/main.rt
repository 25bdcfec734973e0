// The program `ask`: event records, read in silence, and then the answer to the question in its arguments. A piece of the input
// is read and fed; then what comes out is written part by part: all of it together is `ask_text` of the arguments and the whole
// recording (crates/ask_text).
#![tactic(auto)]

use std::io;
use std::process::ExitCode;

fn run(rt: &HostRuntime) -> io::Result<()> {
    let mut text = [0u8; 4096];
    let asked = system::asked(rt, &mut text);
    let question = ask_text::question_of(&text, asked.size);
    if ask_text::shows_manual(asked, question) {
        let size = manuals::put_ask(&mut text, asked.help);
        system::tell(rt, b"ask: ", asked.help, &text[..size])?;
        return Ok(());
    }
    let Some(mut input) = system::open(rt, b"ask: ", asked.file) else {
        return Ok(());
    };
    let mut piece = [0u8; 65536];
    let mut a = asking::begin(question);
    // A loop has to end, and nothing says that the input does.
    for _ in 0..u64::MAX {
        input = system::fill(rt, input, b"ask: ", &mut piece);
        let fed = asking::feed(a, &piece[input.from..input.to]);
        a = fed.asking;
        input = system::pass(input, fed.taken);
        if !input.more {
            break;
        }
    }
    if input.failed {
        return Ok(());
    }
    let mut err = [0u8; 512];
    let end = asking::close(a, &mut piece, &mut err);
    let mut done = system::write(rt, b"ask: ", &piece[..end.used], &err[..end.said])?;
    a = end.asking;
    // A loop has to end, and nothing says that the pages do.
    for _ in 0..u64::MAX {
        if !(done & a.page.is_some()) {
            break;
        }
        let part = asking::next(a, &mut piece);
        done = system::write(rt, b"ask: ", &piece[..part.used], b"")?;
        a = part.asking;
    }
    Ok(())
}

fn main(rt: HostRuntime) -> ExitCode {
    system::status(run(&rt))
}
