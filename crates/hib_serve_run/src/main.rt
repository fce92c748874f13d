//! The program that serves live sessions by lines, so that an application in any language drives them. Standard input
//! has a script's lines without sessions, then a line `requests`, and then a request a line; standard output gets an
//! answer a line, at once. At the end of the input the sessions that are open are killed.
#![tactic(auto)]

mod lines;

ghost use Rattle.std.specs.Prelude.{◌≡◌, true};
ghost use Rattle.hib_base.specs.Valid.{is_valid};
ghost use Rattle.hib_core.specs.Standing.{origin_over};

use hib_base::{Script, Seq};
use hib_live::Name;
use hib_outside::{Keeper, MemKeeper};
use hib_serve::Server;
use lines::{next_line, print_line, read_frame};
use std::alloc::Global;
use std::io;
use std::io::{BufRead, BufReader};
use std::marker::Brand;
use std::process::ExitCode;

/// The most bytes that a frame may have, as a script.
const MOST_FRAME: u32 = 1048576;

/// The most bytes that a request may have; a longer one is refused by its first ones.
const MOST_REQUEST: u32 = 65536;

/// Answers each line of the input.
fn answer_lines<K: Keeper, N: Name, B: BufRead>(
    rt: &HostRuntime,
    alloc: Global,
    server: &mut Server<K, N>,
    reader: &mut B,
) -> io::Result<()> {
    for _ in 0..u64::MAX {
        let Some(line) = next_line(alloc, reader, MOST_REQUEST)? else {
            break;
        };
        let served = server.serve_line(alloc, line.as_slice())?;
        print_line(rt, served.text.as_slice())?;
        if served.over {
            break;
        }
    }
    Ok(())
}

/// Serves the live factory of this name.
fn serve_in<N: Name, K: Keeper + Drop, B: BufRead>(
    rt: &HostRuntime,
    alloc: Global,
    script: Script,
    keeper: K,
    reader: &mut B,
) -> io::Result<()>
    requires script { script ≡ N.script }
    requires valid { is_valid N.script ≡ true }
    requires from { origin_over N.script (K.tables keeper) (K.faults keeper) (K.asked keeper)
        ≡ N.from }
{
    let Ok(mut server) = Server::<K, N>::open(alloc, script, keeper) else {
        return print_line(rt, b"{\"refused\":\"memory\"}");
    };
    let answered = answer_lines(rt, alloc, &mut server, reader);
    let _ = server.end();
    server.close();
    answered
}

/// Serves a live factory over this keeper.
fn serve<K: Keeper + Drop, B: BufRead>(
    rt: &HostRuntime,
    alloc: Global,
    script: Script,
    keeper: K,
    reader: &mut B,
) -> io::Result<()>
    requires { is_valid script ≡ true }
{
    serve_in::<Brand, K, B>(rt, alloc, script, keeper, reader)
}

fn main(rt: HostRuntime) -> io::Result<ExitCode> {
    let alloc = rt.alloc();
    let mut reader = BufReader::new(alloc, rt.reader())?;
    let frame = match read_frame(alloc, &mut reader, MOST_FRAME)? {
        Some(frame) if frame.len() <= MOST_FRAME as usize => frame,
        _ => {
            let _ = eprintln!(rt; "hib: too long");
            return Ok(ExitCode::from(6));
        }
    };
    match hib_script::read(alloc, frame.as_slice()) {
        Ok(script) => {
            let keeper = MemKeeper::new(alloc, Seq::new(alloc));
            serve(&rt, alloc, script, keeper, &mut reader)?;
            Ok(ExitCode::SUCCESS)
        }
        Err(error) => {
            let _ = eprintln!(rt; "hib: {error}");
            Ok(ExitCode::from(3))
        }
    }
}
