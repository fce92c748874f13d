// What a command is: how its input is read, and how a run of it is told. To tell a run is here to write its text.
ghost use Rattle.std.specs.Prelude.{◌≡◌, ◌⊎◌, ◌≤◌, ℕ, length, IfOk, IfErr};
ghost use Rattle.hib_outside.specs.Causes.{Rose};
ghost use Rattle.hib_call.specs.Command.{Command};
ghost use Rattle.hib_call.specs.Limits.{max_journal};
ghost use Rattle.hib_call.specs.Ends.{IsAfterRun, IsTextTold, IsWhere};

use crate::lent::Lent;
use crate::status::Status;
use hib_outside::{Sink, write_all};
use hib_script::ScriptError;
use std::alloc::Global;

/// The most bytes that a script has, with the section after it.
pub const SCRIPT_BYTES: usize = 1_048_576;

/// The most bytes that a script has with a journal after it.
pub const JOURNAL_BYTES: usize = 67_108_864;

/// What a run came to.
#[derive(Drop)]
pub enum Outcome<R> {
    /// It is over, and is to be told.
    Over(R),
    /// It ends the call so, and nothing is told; with what is there of it, if anything is.
    Stopped(Status, Option<R>),
}

/// A run, with what was handed in.
#[derive(Drop)]
pub struct Ran<R, K, L> {
    /// What it came to.
    pub outcome: Outcome<R>,
    /// The keeper, and the listeners that stayed.
    pub lent: Lent<K, L>,
}

/// A command. Its run is handed in beside it: a trait's method can't run what may be sent to a thread.
pub trait Task {
    /// What an input says.
    type Input: Drop;

    /// What a run leaves, beside the keeper and the listeners.
    type Run: Drop;

    /// What it is, in its own words.
    ghost command: { Self → Command Self.Input Self.Run };

    /// What is known besides of each input that is read.
    ghost is_sound: { Self.Input → Type 0 };

    /// The most bytes of its input.
    fn limit(&self) -> usize
        ensures limit { result ≡ (command self.now).limit }
        ensures few { result ≤ max_journal };

    /// The input that a text is.
    ///
    /// Errors: `Refused` with the first bad line if the text has not the form; `NoMemory` if there is none left.
    fn read(&self, alloc: Global, text: &[u8]) -> Result<Self::Input, ScriptError>
        requires { length text.now ≤ (command self.now).limit }
        ensures input { IfOk result (λ input. (command self.now).reads text.now input) }
        ensures sound { IfOk result is_sound }
        ensures refused { IfErr result (IsWhere ((command self.now).refuses text.now)) }
        ensures whole { (command self.now).has_form text.now
            → IfErr result (λ fault. fault ≡ ScriptError.NoMemory) };

    /// Tells a run that is over, and answers how the call ends.
    fn tell<W: Sink>(&self, alloc: Global, run: &Self::Run, out: &mut W) -> Status
        ensures told { (command self.now).tells run.now result (W.taken out.old)
            (W.taken out.new) }
        ensures write { result ≡ Status.WriteFault → Rose (W.faults out.old) (W.faults out.new) }
        ensures after { IsAfterRun result };
}

/// Writes a text whole, and answers how a call ends whose last act this is.
pub fn tell_text<W: Sink>(text: &[u8], out: &mut W) -> Status
    ensures text { IsTextTold result text.now (W.taken out.old) (W.taken out.new) }
    ensures write { result ≡ Status.WriteFault → Rose (W.faults out.old) (W.faults out.new) }
    ensures after { IsAfterRun result }
    ensures ends { (result ≡ Status.Done) ⊎ (result ≡ Status.WriteFault) }
{
    match write_all(out, text) {
        Ok(()) => Status::Done,
        Err(_) => Status::WriteFault,
    }
}
