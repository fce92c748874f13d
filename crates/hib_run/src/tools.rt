// What the program does behind the word `tools`. For a trial of other words `./hib` puts a few lines in the place of this
// file.
mod files;
mod progress;

use crate::print_topic;
use files::serve_file;
use hib_base::Seq;
use hib_call::{Lent, Status};
use hib_host::told;
use hib_listeners::Recorder;
use hib_outside::{Keeper, MemKeeper, StdSink, StdSource};
use hib_toolbox::{Ended, Said, tools};
use hib_words::{file_of_tool, tools_help, topic_asked};
use progress::Progress;
use std::io;
use std::process::ExitCode;

/// Prints what the words ask of the tools' help, or does what they say.
pub fn answer(rt: &HostRuntime, words: &[String]) -> ExitCode {
    if let Some(topic) = topic_asked(words) {
        let status = print_topic(rt, topic, &tools_help(rt.alloc()));
        return told(rt, rt.alloc(), status);
    }
    match file_of_tool(rt.alloc(), words) {
        Ok(None) => {
            let keeper = MemKeeper::new(rt.alloc(), Seq::new(rt.alloc()));
            let Ended {
                status,
                said,
                lent: _,
            } = serve(rt, words, keeper);
            code_of(rt, status, said)
        }
        Ok(Some(path)) => {
            let (status, said) = serve_file(rt, words, path);
            code_of(rt, status, said)
        }
        Err(_) => told(rt, rt.alloc(), Status::NoMemory),
    }
}

/// Does what the words say over a keeper, with no listener.
pub fn serve<K: Keeper>(rt: &HostRuntime, words: &[String], keeper: K) -> Ended<K, Recorder> {
    let lent: Lent<K, Recorder> = Lent {
        keeper,
        listeners: Vec::new(rt.alloc()),
    };
    let mut source = StdSource::new(rt.reader());
    let mut sink = StdSink::new(io::writer(rt));
    let shown = Progress::on(rt);
    tools(rt.alloc(), words, &mut source, &mut sink, lent, shown)
}

/// Says on standard error what there is to say, and gives the status's number.
fn code_of(rt: &HostRuntime, status: Status, said: Said) -> ExitCode {
    if let Said::Nothing = said {
        return told(rt, rt.alloc(), status);
    }
    say(rt, said);
    ExitCode::from(1)
}

/// Says what there is to say of a call that is done.
fn say(rt: &HostRuntime, said: Said) {
    match said {
        Said::Nothing | Said::Found => {}
        Said::Missing => say_text(rt, "hib: there is no such finding\n"),
        Said::Foreign(place) => say_foreign(rt, place),
        Said::Long => say_text(
            rt,
            "hib: the script with the schedule has too many lines, or too long ones\n",
        ),
    }
}

/// Prints a text on standard error. That nobody may be listening there changes nothing.
fn say_text(rt: &HostRuntime, text: &str) {
    let _ = eprint!(rt; "{text}");
}

/// Says which entry no schedule repeats.
fn say_foreign(rt: &HostRuntime, place: usize) {
    let entry = place.saturating_add(1);
    let _ = eprint!(rt; "hib: no schedule repeats entry {entry}, an eviction or a restart\n");
}
