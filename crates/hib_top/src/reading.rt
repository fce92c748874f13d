// The task of `play` and `work`: a script is read, run and told.
use crate::telling::{Played, Telling, tell_run};
use crate::turns::Turns;
use hib_base::Script;
use hib_call::{SCRIPT_BYTES, Status, Task};
use hib_outside::Sink;
use hib_script::ScriptError;
use std::alloc::Global;

/// Reads a script, runs it and tells the run.
#[derive(Clone, Copy)]
pub struct Run {
    /// In which order the sessions make their steps.
    pub turns: Turns,
    /// How the run is told.
    pub telling: Telling,
}

impl Task for Run {
    ghost use Rattle.std.specs.Prelude.{◌≡◌, true};
    ghost use Rattle.hib_base.specs.Valid.{is_valid};
    ghost use Rattle.hib_top.specs.Running.{running};

    type Input = Script;

    type Run = Played;

    ghost command = { λ task. running task.turns task.telling };

    ghost is_sound = { λ script. is_valid script ≡ true };

    fn limit(&self) -> usize {
        SCRIPT_BYTES
    }

    fn read(&self, alloc: Global, text: &[u8]) -> Result<Script, ScriptError> {
        hib_script::read(alloc, text)
    }

    fn tell<W: Sink>(&self, alloc: Global, run: &Played, out: &mut W) -> Status {
        tell_run(alloc, self.telling, run, out)
    }
}
