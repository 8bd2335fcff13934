// The program a person works the bench with: reads calls from standard input, a line each, and answers each as it comes.
#![tactic(auto)]

use bench::Bench;
use std::io::{self, Read, Write};
use talk::OUT;

// The longest line that is read, 65,535 bytes, its CR and LF, and one byte more: a room that is full with no LF holds too long a line.
const ROOM: usize = 65538;

// Answers a line and writes the answer. The bench is lent: in a `Result` it would be moved once more at each line.
// The start of a long line was passed over, so nothing is read in it.
// A flag and no Option: the flag outlives the turn, the slice does not.
fn answer(
    output: &mut impl Write,
    bench: &mut Bench,
    line: &[u8],
    is_long: bool,
) -> io::Result<()> {
    if is_long {
        return output.write_all(b"unreadable\n");
    }
    let mut out = [0u8; OUT];
    let told = talk::answer_line(*bench, line, &mut out);
    output.write_all(&out[..told.len])?;
    *bench = told.bench;
    Ok(())
}

// Answers a line that an LF ends. A CR before it is no part of the line.
fn answer_ended(
    output: &mut impl Write,
    bench: &mut Bench,
    line: &[u8],
    is_long: bool,
) -> io::Result<()> {
    let end = text::trim(line);
    answer(output, bench, &line[..end], is_long)
}

// Each turn answers one line or reads once. Nothing says that an input ends, so there are as many turns as the largest number says.
fn main(rt: HostRuntime) {
    let mut input = rt.stdin();
    let mut output = rt.stdout();
    let mut bench = bench::opening::empty();
    let mut buf = [0u8; ROOM];
    let mut from = 0; // the line begins here
    let mut seen = 0; // it has no LF before this place
    let mut to = 0; // what was read ends here
    let mut is_long = false;
    for _ in 0..u64::MAX {
        let end = text::find(&buf[..to], seen, text::LF);
        if end < to {
            if answer_ended(&mut output, &mut bench, &buf[from..end], is_long).is_err() {
                return;
            }
            is_long = false;
            from = end + 1;
            seen = from;
        } else {
            let mut kept = text::to_front(&mut buf, from, to);
            if kept == ROOM {
                is_long = true;
                kept = 0;
            }
            let got = input.read(&mut buf[kept..]).unwrap_or(0); // 0 too where it cannot be read
            if got == 0 {
                let _ = answer(&mut output, &mut bench, &buf[..kept], is_long); // the last line has no LF; where it is empty, nothing is written
                return;
            }
            from = 0;
            seen = kept;
            to = kept + got;
        }
    }
}
