// The call that a program makes, over streams, a keeper and listeners that it hands in.
ghost use Rattle.std.specs.Prelude.{◌≡◌, if◌then◌else◌, false, length, IfOk};
ghost use Rattle.std.specs.Option.{option_map_or};
ghost use Rattle.hib_call.specs.Outside.{outside, outside_of, shared};
ghost use Rattle.hib_top.specs.Words.{asked_in};
ghost use Rattle.hib_shell.specs.Called.{IsTopCall};
ghost use Rattle.hib_words.specs.Commands.{asked_of};
ghost use Rattle.hib_words.specs.Topics.{is_traced};

use hib_call::{Lent, Status};
use hib_listeners::Trace;
use hib_outside::{Keeper, Listener, OpenGate, Sink, Source, StdSink};
use hib_top::top;
use hib_words::Command;
use std::alloc::{AllocError, Global};
use std::io::Stderr;
use std::sync::Wait;
use std::thread::Threads;

/// Writes its lines on standard error.
pub type ErrorTrace = Trace<StdSink<Stderr>>;

/// The listeners that the words ask for: with `--trace`, one that writes a line for each entry on standard error.
pub fn listeners_asked(
    host: &HostRuntime,
    command: &Option<Command>,
) -> Result<Vec<ErrorTrace>, AllocError>
    ensures { IfOk result (λ v. length v.items
        ≡ (if option_map_or (λ c. is_traced (asked_of c)) command.now false then 1 else 0)) }
{
    let mut listeners = Vec::new(host.alloc());
    if let Some(command) = command {
        if command.is_traced() {
            listeners.push(Trace::new(StdSink::new(host.stderr())))?;
        }
    }
    Ok(listeners)
}

/// Calls the top call with the words, over these streams and what is lent, and no gate holds a worker back. It ends as
/// the top call does, and leaves the streams and the keeper as that does. What was run is let go, and so are the
/// listeners that stayed.
pub fn call<R: Threads + Wait + Sync, S: Source, W: Sink, K: Keeper + Send, L: Listener>(
    rt: &R,
    alloc: Global,
    words: &[String],
    source: &mut S,
    out: &mut W,
    lent: Lent<K, L>,
) -> (Status, K)
    ensures promised { IsTopCall (asked_in words.now)
        (outside_of S.Source W.Sink K.Keeper L.Listener source.old out.old lent)
        (λ told. outside (S.left source.new) (S.faults source.new) (W.taken out.new)
        (W.faults out.new) (shared (K.tables result.1) (K.faults result.1) (K.asked result.1) told))
        result.0 }
{
    let called = top(rt, alloc, words, source, out, lent, &OpenGate);
    (called.status, called.lent.keeper)
}
