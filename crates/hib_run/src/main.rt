//! The program: makes the keeper, the streams and the listeners that the words ask for, and calls the top call with
//! them; or, behind the word `tools`, the call of the tools.
#![tactic(auto)]

mod files;
mod streams;
mod tools;

use files::serve_file;
use hib_base::Seq;
use hib_call::Status;
use hib_host::{print_made, print_text, told, words_given};
use hib_outside::MemKeeper;
use hib_words::{Command, Topic, VERSION, help, topic_asked};
use std::alloc::AllocError;
use std::process::ExitCode;
use std::sync::Wait;
use std::thread::Threads;
use std::{io, mem};
use streams::serve_over;

fn main(rt: HostRuntime) -> io::Result<ExitCode> {
    match words_given(&rt)? {
        Ok(words) => Ok(answer(&rt, &rt, &words)),
        Err(status) => Ok(told(&rt, rt.alloc(), status)),
    }
}

/// Does what the words say, of the program or of its tools.
fn answer<R: Threads + Wait + Sync>(rt: &R, host: &HostRuntime, words: &[String]) -> ExitCode {
    match words.split_first() {
        Some((first, others)) if first.as_str() == "tools" => tools::answer(host, others),
        _ => told(host, host.alloc(), status_of(rt, host, words)),
    }
}

/// Prints what the words ask of main itself, or does what they say.
fn status_of<R: Threads + Wait + Sync>(rt: &R, host: &HostRuntime, words: &[String]) -> Status {
    match topic_asked(words) {
        Some(topic) => print_topic(host, topic, &help(host.alloc())),
        None => serve(rt, host, words),
    }
}

/// Prints what is asked for on standard output, this help or the version, and answers how that ended.
pub fn print_topic(rt: &impl Print, topic: Topic, help: &Result<String, AllocError>) -> Status {
    match topic {
        Topic::Help => print_made(rt, help),
        Topic::Version => print_text(rt, VERSION),
    }
}

/// Does what the words say, over the keeper that they ask for: the file that `--file` names, and else one in memory.
fn serve<R: Threads + Wait + Sync>(rt: &R, host: &HostRuntime, words: &[String]) -> Status {
    let Ok(command) = hib_words::read(host.alloc(), words) else {
        return Status::NoMemory;
    };
    match file_asked(&command) {
        None => {
            let keeper = MemKeeper::new(host.alloc(), Seq::new(host.alloc()));
            let (status, keeper) = serve_over(rt, host, words, &command, keeper);
            // The process ends now, so its rows needn't be let go one by one.
            mem::forget(keeper);
            status
        }
        Some(path) => serve_file(rt, host, words, &command, path),
    }
}

/// The path of the file that the words ask for.
fn file_asked(command: &Option<Command>) -> Option<&str> {
    match command {
        Some(command) => command.file(),
        None => None,
    }
}
