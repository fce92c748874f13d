// What a run with collections was opened with, for contracts.
use std::marker::Brand;

/// Which run it is: what it was opened with. Contracts alone see it.
pub trait Name {
    ghost use Rattle.hib_base.specs.declared.scripts.Script.{Script};
    ghost use Rattle.std.specs.Prelude.{List};
    ghost use Rattle.hib_engines.specs.Origin.{Origin};
    ghost use Rattle.hib_listeners.specs.Told.{Told};
    ghost use Rattle.hib_collections_law.specs.declared.entries.Def.{Def};

    /// The script.
    ghost script: { Script };

    /// The collections.
    ghost defs: { List Def };

    /// The committed rows at the start, if the keeper tells them, and its counts.
    ghost from: { Origin };

    /// What each listener told at the start.
    ghost told: { List Told };
}

impl Name for Brand {
    ghost use Rattle.std.specs.Prelude.{[], None};

    ghost script = { record {
      timeout = 0;
      results = 0;
      mapping = [];
      rows = [];
      queries = [];
      sessions = [];
      schedule = [];
    } };

    ghost defs = { [] };

    ghost from = { record { tables = None; faults = 0; asked = 0 } };

    ghost told = { [] };
}
