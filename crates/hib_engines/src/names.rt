// What a factory was opened with, for contracts. Sessions, parts and runs over them all are of such a name.
use std::marker::Brand;

/// Which factory, or which run over parts, it is: what it was opened with. Contracts alone see it.
pub trait Name {
    ghost use Rattle.hib_base.specs.declared.scripts.Script.{Script};
    ghost use Rattle.std.specs.Prelude.{List};
    ghost use Rattle.hib_engines.specs.Origin.{Origin};
    ghost use Rattle.hib_listeners.specs.Told.{Told};

    /// The script.
    ghost script: { Script };

    /// The committed rows at the start, if the keeper tells them, and its counts.
    ghost from: { Origin };

    /// What each listener told at the start.
    ghost told: { List Told };
}

impl Name for Brand {
    ghost use Rattle.std.specs.Prelude.{[], None};

    ghost script = { record {
      timeout = 0;
      results = 0;
      mapping = [];
      rows = [];
      queries = [];
      sessions = [];
      schedule = [];
    } };

    ghost from = { record { tables = None; faults = 0; asked = 0 } };

    ghost told = { [] };
}
