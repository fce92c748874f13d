//! Tries the keepers over SQLite: a line of standard input is a call of one in memory, in the form that the head of the
//! file `stdin` describes, and what is answered is printed. At the end a disk is stopped at each of its calls.
#![tactic(auto)]

mod calls;
mod crash;
mod play;
mod words;

use calls::NextCall;
use std::io;

/// The lines of standard input.
fn lines_given(rt: &HostRuntime) -> io::Result<Vec<String>> {
    let mut lines = Vec::new(rt.alloc());
    for line in rt.lines(rt.alloc()) {
        lines.push(line?)?;
    }
    Ok(lines)
}

/// Does what each of these lines says.
fn try_lines(rt: &HostRuntime, lines: &[String]) -> io::Result<()> {
    let mut call = NextCall::new(rt.alloc());
    let mut taken = 0usize;
    for (place, line) in lines.iter().enumerate() {
        if place >= taken {
            let block = calls::open(rt, &mut call, line.as_str(), &lines[place + 1..])?;
            taken = block.saturating_add(place + 1);
        }
    }
    Ok(())
}

fn main(rt: HostRuntime) -> io::Result<()> {
    let alloc = rt.alloc();
    let lines = lines_given(&rt)?;
    try_lines(&rt, lines.as_slice())?;
    crash::tell(&rt, "log", crash::holds_at_each_stop(alloc, true))?;
    crash::tell(&rt, "database", crash::holds_at_each_stop(alloc, false))
}
