// Made scripts: their runs, and their texts (`make`).
use crate::telling::{Played, Telling, tell_run};
use hib_base::Script;
use hib_call::{Status, Task, tell_text};
use hib_outside::Sink;
use hib_script::ScriptError;
use std::alloc::Global;

/// Makes the script of a number, runs it by its schedule and writes the number and the summary.
#[derive(Clone, Copy)]
pub struct Make {
    /// The number.
    pub seed: u32,
}

impl Task for Make {
    ghost use Rattle.std.specs.Prelude.{◌≡◌, true};
    ghost use Rattle.hib_base.specs.Valid.{is_valid};
    ghost use Rattle.hib_top.specs.Making.{making};

    type Input = Script;

    type Run = Played;

    ghost command = { λ task. making task.seed };

    ghost is_sound = { λ script. is_valid script ≡ true };

    fn limit(&self) -> usize {
        0
    }

    fn read(&self, alloc: Global, _text: &[u8]) -> Result<Script, ScriptError> {
        Ok(hib_make::make(alloc, self.seed)?)
    }

    fn tell<W: Sink>(&self, alloc: Global, run: &Played, out: &mut W) -> Status {
        tell_run(alloc, Telling::Summary(self.seed), run, out)
    }
}

/// Makes the script of a number and writes it. Nothing is run.
#[derive(Clone, Copy)]
pub struct Print {
    /// The number.
    pub seed: u32,
}

impl Task for Print {
    ghost use Rattle.std.specs.Prelude.{⊤};
    ghost use Rattle.hib_top.specs.Making.{printing};

    type Input = Script;

    type Run = Script;

    ghost command = { λ task. printing task.seed };

    ghost is_sound = { λ _. ⊤ };

    fn limit(&self) -> usize {
        0
    }

    fn read(&self, alloc: Global, _text: &[u8]) -> Result<Script, ScriptError> {
        Ok(hib_make::make(alloc, self.seed)?)
    }

    fn tell<W: Sink>(&self, alloc: Global, script: &Script, out: &mut W) -> Status {
        match hib_print::print(alloc, script) {
            Ok(text) => tell_text(text.as_slice(), out),
            Err(_) => Status::NoMemory,
        }
    }
}
