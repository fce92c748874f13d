// One script, played again and again.
ghost use Rattle.hib_base.specs.Tables.{in_order};
ghost use Rattle.hib_base.specs.Valid.{is_valid};
ghost use Rattle.hib_order_stage.specs.Staged.{ended_in, judged_from_start, new_origin, rows_at_start};
ghost use Rattle.std.specs.Prelude.{◌≡◌, [], IfOk, IfSome, true};

use crate::watcher::Watcher;
use hib_base::{Key, Outcome, Row, Rows, Script, Seq};
use hib_core::{Name, runs_are_short};
use hib_listeners::Recorder;
use hib_order_judge::{ending, judge};
use hib_order_law::{Step, Verdicts};
use hib_order_plays::{Run, play_in};
use hib_order_tries::{Played, Player};
use hib_outside::{Keeper, MemKeeper};
use std::alloc::{AllocError, Global};
use std::marker::{Model, PhantomData};

/// One script, which is played again and again, each time by a new factory over a new keeper in memory, and judged.
#[derive(Drop)]
pub struct Stage<N: Name, W: Watcher> {
    /// The script. None after a play for which memory ran out.
    script: Option<Script>,
    /// The committed rows at the start of each run.
    rows: Rows,
    /// Who hears of runs.
    watcher: W,
    /// How many runs were played.
    played: u64,
    of: PhantomData<N>,
}

impl<N: Name, W: Watcher> Model for Stage<N, W> {
    ghost use Rattle.std.specs.Prelude.{◌≡◌, ⊤, [], IfSome, true};
    ghost use Rattle.hib_base.specs.Tables.{in_order};
    ghost use Rattle.hib_base.specs.Valid.{is_valid};
    ghost use Rattle.hib_order_stage.specs.Staged.{new_origin, rows_at_start};

    ghost Value = { ⊤ };

    ghost view = { λ s. tt };

    ghost invariant = { λ s. (is_valid N.script ≡ true) × (new_origin N.script ≡ N.from)
        × ([] ≡ N.told) × (s.rows ≡ rows_at_start N.script) × (in_order s.rows ≡ true)
        × IfSome s.script (λ c. c ≡ N.script) };
}

/// The committed rows at the start of each run of a script.
fn rows_at_start(alloc: Global, script: &Script) -> Result<Rows, AllocError>
    ensures rows { IfOk result (λ r. r ≡ rows_at_start script.now) }
    ensures ordered { IfOk result (λ r. in_order r ≡ true) }
{
    let mut keeper = MemKeeper::new(alloc, Seq::new(alloc));
    match keeper.seed(alloc, &script.mapping, script.rows.as_slice()) {
        Ok(()) => Ok(Seq::from_vec(keeper.rows)),
        // No call of the keeper is to fail, so that memory ran out.
        Err(_) => Err(AllocError),
    }
}

/// Equal rows, for a judge, who changes those that he is given.
fn copy_rows(alloc: Global, rows: &Rows) -> Result<Rows, AllocError>
    ensures { IfOk result (λ r. r ≡ rows.now) }
{
    let mut copy: Vec<(Key, Row)> = Vec::with_capacity(alloc, rows.len())?;
    for row in rows.as_slice() {
        copy.push((row.0, row.1.copy(alloc)?))?;
    }
    Ok(Seq::from_vec(copy))
}

/// What was found of a run that was played from these rows.
#[derive(Drop)]
struct Judged {
    verdicts: Verdicts,
    ending: Vec<Outcome>,
}

/// Judges a run that was played from these rows.
fn judge_run(alloc: Global, rows: &Rows, run: &Run) -> Result<Judged, AllocError>
    requires rows { rows.now ≡ rows_at_start run.now.script }
    requires ordered { in_order rows.now ≡ true }
    ensures verdicts { IfOk result (λ j.
        j.verdicts ≡ judged_from_start run.now.script run.now.journal.list) }
    ensures ending { IfOk result (λ j.
        j.ending.items ≡ ended_in run.now.script run.now.journal.list) }
{
    let start = copy_rows(alloc, rows)?;
    let verdicts = judge(alloc, &run.script, start, run.journal.as_slice())?;
    let ending = ending(alloc, &run.script, run.journal.as_slice())?;
    Ok(Judged { verdicts, ending })
}

impl<N: Name, W: Watcher + Drop> Stage<N, W> {
    /// A stage for the script of this name. The watcher hears of runs that are played; no clause says of which.
    pub fn new(alloc: Global, script: Script, watcher: W) -> Result<Stage<N, W>, AllocError>
        requires script { script ≡ N.script }
        requires valid { is_valid N.script ≡ true }
        requires from { new_origin N.script ≡ N.from }
        requires told { [] ≡ N.told }
    {
        let rows = rows_at_start(alloc, &script)?;
        Ok(Stage {
            script: Some(script),
            rows,
            watcher,
            played: 0,
            of: PhantomData,
        })
    }

    /// The script. None after a play for which memory ran out.
    pub fn into_script(self) -> Option<Script>
        ensures { IfSome result (λ c. c ≡ N.script) }
    {
        self.script
    }
}

impl<N: Name, W: Watcher + Drop> Player for Stage<N, W> {
    ghost use Rattle.hib_core.specs.Bound.{most_in};
    ghost use Rattle.hib_order_stage.specs.Staged.{ended_in, judged_from_start, rows_at_start};

    ghost script = { N.script };

    ghost start = { rows_at_start N.script };

    ghost judged = { judged_from_start N.script };

    ghost ended = { ended_in N.script };

    ghost most_steps = { most_in N.script.sessions };

    fn play(&mut self, alloc: Global, begun: &[Step]) -> Result<Played, AllocError> {
        let Some(script) = self.script.take() else {
            return Err(AllocError);
        };
        runs_are_short();
        let nobody: Vec<Recorder> = Vec::new(alloc);
        let run = play_in::<N, Recorder>(alloc, script, nobody, begun)?;
        let Judged { verdicts, ending } = judge_run(alloc, &self.rows, &run)?;
        let Run {
            script,
            journal: _,
            order,
            turns,
        } = run;
        self.script = Some(script);
        self.played = self.played.saturating_add(1);
        self.watcher.played(self.played);
        Ok(Played {
            order,
            turns,
            verdicts,
            ending,
        })
    }
}
