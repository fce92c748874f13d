// A call, whatever its command is. hib_top, hib_section_calls and hib_toolbox make theirs by it.
ghost use Rattle.std.specs.Prelude.{◌≡◌, ◌<◌, ◌+◌, length, Err, IfOk, IfErr, IfSome};
ghost use Rattle.hib_outside.specs.Causes.{Rose};
ghost use Rattle.hib_call.specs.Called.{HasInput, HasNone, HasRead, IsCalled};
ghost use Rattle.hib_call.specs.Ends.{Comes};
ghost use Rattle.hib_call.specs.Limits.{max_piece};
ghost use Rattle.hib_call.specs.Outside.{outside_of, shared_of};
ghost use Rattle.hib_call.specs.Streams.{ReadsFew};

use crate::lent::Lent;
use crate::status::Status;
use crate::streams::read_all;
use crate::tasks::{Outcome, Ran, Task};
use hib_outside::{Keeper, Listener, Sink, Source};
use hib_script::ScriptError;
use std::alloc::Global;

/// What a call hands back.
#[derive(Drop)]
pub struct Called<R, K, L> {
    /// How it ended.
    pub status: Status,
    /// The keeper that was handed in, and the listeners that stayed.
    pub lent: Lent<K, L>,
    /// What was run, if something was.
    pub run: Option<R>,
}

impl<R, K, L> Called<R, K, L> {
    ghost use Rattle.std.specs.Prelude.{◌≡◌, None, option_map};
    ghost use Rattle.std.specs.Option.{ForSome};

    /// The call in which nothing was run.
    pub fn idle(status: Status, lent: Lent<K, L>) -> Self
        ensures status { result.status ≡ status }
        ensures lent { result.lent ≡ lent }
        ensures run { result.run ≡ None }
    {
        let run = None;
        Called { status, lent, run }
    }

    /// The same call, with another run made of its run.
    pub fn map<Q, F: FnOnce(R) -> Q>(self, f: F) -> Called<Q, K, L>
        requires { ForSome self.run (F.pre f) }
        ensures status { result.status ≡ self.status }
        ensures lent { result.lent ≡ self.lent }
        // It is what a function makes of it, if calls of f answer as that function does.
        ensures run { (g : R → Q) → ((x : R) (y : Q) → F.post f x y → y ≡ g x)
            → result.run ≡ option_map g self.run }
    {
        let Called { status, lent, run } = self;
        let run = run.map(f);
        Called { status, lent, run }
    }
}

/// The input of a command, read from a source; or how a call ends that finds none.
fn input_of<T: Task, S: Source>(alloc: Global, task: &T, source: &mut S) -> Result<T::Input, Status>
    ensures input { IfOk result (HasRead (T.command task.now) (S.left source.old)
        (S.left source.new)) }
    ensures sound { IfOk result T.is_sound }
    ensures none { IfErr result (HasNone (T.command task.now) (S.left source.old)
        (S.left source.new)) }
    ensures read { result ≡ Err Status.ReadFault
        → Rose (S.faults source.old) (S.faults source.new) }
    ensures long { result ≡ Err Status.TooLong
        → IfSome (S.left source.old) (λ bytes. (T.command task.now).limit < length bytes) }
    ensures taken { ReadsFew ((T.command task.now).limit + max_piece) (S.left source.old)
        (S.left source.new) }
    ensures whole { HasInput (T.command task.now) (S.left source.old)
        → (Rose (S.faults source.old) (S.faults source.new) → ⊥)
        → IfErr result (λ status. status ≡ Status.NoMemory) }
{
    let text = read_all(alloc, source, task.limit())?;
    match task.read(alloc, &text) {
        Ok(input) => Ok(input),
        Err(ScriptError::NoMemory) => Err(Status::NoMemory),
        Err(ScriptError::Refused(refused)) => Err(Status::Refused(refused)),
    }
}

/// Reads the input of a command to the source's end, runs it over what is lent and tells the run. The run is of any
/// input that is read; the listeners hear of it. Whatever the status, the keeper is handed back, with the listeners
/// that stayed.
pub fn call<
    T: Task,
    S: Source,
    W: Sink,
    K: Keeper,
    L: Listener,
    F: FnOnce(T::Input, Lent<K, L>) -> Ran<T::Run, K, L>,
>(
    alloc: Global,
    task: &T,
    source: &mut S,
    out: &mut W,
    lent: Lent<K, L>,
    run: F,
) -> Called<T::Run, K, L>
    requires may { (input : T.Input) → T.is_sound input → F.pre run input lent }
    requires comes { (input : T.Input) (ran : _) → T.is_sound input → F.post run input lent ran
        → Comes (T.command task.now) input (shared_of K.Keeper L.Listener lent)
        (shared_of K.Keeper L.Listener ran.lent) ran.outcome }
    ensures { IsCalled (T.command task.now)
        (outside_of S.Source W.Sink K.Keeper L.Listener source.old out.old lent)
        (outside_of S.Source W.Sink K.Keeper L.Listener source.new out.new result.lent)
        result.status result.run }
{
    let input = match input_of(alloc, task, source) {
        Ok(input) => input,
        Err(status) => return Called::idle(status, lent),
    };
    let Ran { outcome, lent } = run(input, lent);
    match outcome {
        Outcome::Over(run) => {
            let status = task.tell(alloc, &run, out);
            let run = Some(run);
            Called { status, lent, run }
        }
        Outcome::Stopped(status, run) => Called { status, lent, run },
    }
}
