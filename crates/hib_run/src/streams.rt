// The streams of the process, and the listeners that the words ask for.
use hib_call::{Lent, Status};
use hib_outside::{Keeper, StdSink, StdSource};
use hib_shell::{call, listeners_asked};
use hib_words::Command;
use std::io;
use std::sync::Wait;
use std::thread::Threads;

/// Does what the words say over this keeper: the script comes by standard input, the text goes to standard output.
/// Answers how that ended, and hands the keeper back.
pub fn serve_over<R: Threads + Wait + Sync, K: Keeper + Send>(
    rt: &R,
    host: &HostRuntime,
    words: &[String],
    command: &Option<Command>,
    keeper: K,
) -> (Status, K) {
    let Ok(listeners) = listeners_asked(host, command) else {
        return (Status::NoMemory, keeper);
    };
    let mut source = StdSource::new(host.reader());
    let mut out = StdSink::new(io::writer(host));
    let lent = Lent { keeper, listeners };
    call(rt, host.alloc(), words, &mut source, &mut out, lent)
}
