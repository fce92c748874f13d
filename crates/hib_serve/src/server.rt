// Live sessions that are driven by lines.
ghost use Rattle.hib_base.specs.Valid.{is_valid};
ghost use Rattle.hib_core.specs.Standing.{RoseBy, origin_over};
ghost use Rattle.hib_journal.specs.Kept.{past};
ghost use Rattle.hib_journal.specs.Legal.{IsLegal};
ghost use Rattle.hib_journal.specs.Runs.{IsNumbered, told_committed};
ghost use Rattle.hib_law.specs.Hits.{AreListsGiven};
ghost use Rattle.hib_law.specs.Law.{Obeys};
ghost use Rattle.hib_live_law.specs.Grown.{HasGrown as HasGrownInto};
ghost use Rattle.hib_outside.specs.Causes.{Rose};
ghost use Rattle.hib_serve.specs.Names.{KeepsSessions};
ghost use Rattle.hib_serve.specs.Served.{IsServed, answer_of};
ghost use Rattle.hib_serve.specs.Sessions.{AreClosed, HasOnlyKilled};
ghost use Rattle.hib_serve_requests.specs.Requests.{id_text};
ghost use Rattle.hib_store.specs.Stores.{handed_back, is_store_fault};
ghost use Rattle.std.specs.Prelude.{◌≡◌, ◌++◌, ◌≤◌, [], IfErr, IfOk, IfSome, OnOk, drop, length, option_map, string_bytes, true};

use crate::answering::{Done, come_to};
use crate::names::Names;
use crate::orders::kill_all;
use hib_base::Script;
use hib_journal::Journal;
use hib_live::{LiveCore, Name};
use hib_outside::Keeper;
use hib_serve_answers::{Refusal, put_done, put_refused};
use hib_serve_requests::{Id, Request, read_request};
use hib_store::OpenFault;
use indexmap::IndexMap;
use std::alloc::{AllocError, Global};

/// What a line came to.
#[derive(Drop)]
pub struct Served {
    /// The answer: a JSON object, with no line feed.
    pub text: Vec<u8>,
    /// Whether it was the last request.
    pub over: bool,
}

/// Live sessions that are driven by lines, over shared engines. A session has a name of the application's own, and the
/// first statement of a name begins it; in the journal it has the name of its number, `s1` for the first.
pub struct Server<K: Keeper, N: Name> {
    core: LiveCore<K, N>,
    names: Names,
}

// The answer to a line, of which `before` entries were there before it.
fn answer<K: Keeper, N: Name>(
    alloc: Global,
    core: &LiveCore<K, N>,
    id: &Option<Id>,
    before: usize,
    came: &Result<Done, Refusal>,
) -> Result<Vec<u8>, AllocError>
    requires { before ≤ length core.now.journal.list }
    ensures { IfOk result (λ t. t.items ≡ answer_of before core.now id.now came.now) }
{
    let mut text = Vec::new(alloc);
    match came {
        Ok(done) => put_done(
            alloc,
            &mut text,
            core.script(),
            id,
            &done.session,
            &core.journal().as_slice()[before..],
            done.stopped,
        )?,
        Err(refusal) => put_refused(alloc, &mut text, id, refusal)?,
    }
    Ok(text)
}

fn is_last(came: &Result<Done, Refusal>) -> bool {
    match came {
        Ok(done) => done.over,
        Err(_) => false,
    }
}

impl<K: Keeper, N: Name> Server<K, N> {
    /// Opens the live factory of this name, to which no request was made. The rows that the keeper keeps stay as they
    /// are, and each of the script's rows whose key has none is added. At an error the keeper is handed back, with the
    /// rows that it had.
    pub fn open(alloc: Global, script: Script, keeper: K) -> Result<Server<K, N>, OpenFault<K>>
        requires script { script ≡ N.script }
        requires valid { is_valid N.script ≡ true }
        requires from { origin_over N.script (K.tables keeper) (K.faults keeper) (K.asked keeper)
            ≡ N.from }
        ensures asked { IfOk result (λ s. s.core.script ≡ N.script) }
        ensures empty { IfOk result (λ s. past s.core.journal ≡ []) }
        ensures nameless { IfOk result (λ s. s.names.entries ≡ []) }
        ensures back { IfErr result (λ e. K.tables (handed_back e) ≡ K.tables keeper) }
        ensures back_faults { IfErr result (λ e. K.faults keeper ≤ K.faults (handed_back e)) }
        ensures back_asked { IfErr result (λ e. K.asked (handed_back e) ≡ K.asked keeper) }
        ensures fault { IfErr result (λ e. is_store_fault e ≡ true
            → Rose (K.faults keeper) (K.faults (handed_back e))) }
    {
        Ok(Server {
            core: LiveCore::open(alloc, script, keeper)?,
            names: IndexMap::new(alloc),
        })
    }

    /// Does what a line asks for, and answers it. A line is given without its line feed. A line that is refused adds no
    /// entry, and the next one may be given. A name that has a session keeps it, whatever comes of the line.
    ///
    /// Fails for want of memory alone: of a line that couldn't be read nothing is done; of an answer that couldn't be
    /// made the request may have been done.
    pub fn serve_line(&mut self, alloc: Global, line: &[u8]) -> Result<Served, AllocError>
        ensures served { IfOk result (λ s. IsServed line.now self.old.names.entries
            self.new.names.entries self.old.core self.new.core s.text.items) }
        ensures keeps { KeepsSessions self.old.names.entries self.new.names.entries }
    {
        let Request { id, asked } = read_request(alloc, line)?;
        let before = self.core.journal().len();
        let came = come_to(alloc, &mut self.core, &mut self.names, asked);
        let text = answer(alloc, &self.core, &id, before, &came)?;
        Ok(Served {
            text,
            over: is_last(&came),
        })
    }

    /// Kills each session that is open: each has ended its transaction then, or was killed. Fails for want of memory
    /// alone, so that some may be open still.
    pub fn end(&mut self) -> Result<(), AllocError>
        ensures killed { HasOnlyKilled self.old.core self.new.core }
        ensures closed { OnOk result (AreClosed self.new.core) }
        ensures names { self.new.names.entries ≡ self.old.names.entries }
    {
        kill_all(&mut self.core)
    }

    /// Says to proofs what holds of the journal at any time: it is legal for what was asked so far, its ticks are
    /// numbered, it obeys the law, and each list from the cache is what its query gave at the moment of the hit. It does
    /// nothing.
    pub fn lawful(&self)
        ensures grown { HasGrownInto N.script self.now.core.script }
        ensures legal { IsLegal self.now.core.script N.from.tables (past self.now.core.journal) }
        ensures numbered { IsNumbered (past self.now.core.journal) }
        ensures law { Obeys self.now.core.script N.from.tables (past self.now.core.journal) }
        ensures given { IfSome N.from.tables
            (λ start. AreListsGiven self.now.core.script start (past self.now.core.journal)) }
    {
        self.core.lawful();
    }

    /// Takes the factory apart: the keeper, what was asked as a script, and the journal, with what holds of them.
    pub fn close(self) -> (K, Script, Journal)
        ensures asked { result.1 ≡ self.core.script }
        ensures journal { result.2 ≡ self.core.journal }
        ensures legal { IsLegal result.1 N.from.tables (past result.2) }
        ensures law { Obeys result.1 N.from.tables (past result.2) }
        ensures given { IfSome N.from.tables
            (λ start. AreListsGiven result.1 start (past result.2)) }
        ensures numbered { IsNumbered (past result.2) }
        ensures rows { K.tables result.0 ≡ told_committed N.from.tables (past result.2) }
    {
        let Server { core, names: _ } = self;
        core.close()
    }
}
