// What a run with bulk lines was opened with, for contracts.
use std::marker::Brand;

/// Which factory with bulk lines it is: what it was opened with. Contracts alone see it.
pub trait Name {
    ghost use Rattle.std.specs.Prelude.{List};
    ghost use Rattle.hib_base.specs.declared.scripts.Script.{Script};
    ghost use Rattle.hib_base.specs.declared.scripts.Order.{Order};
    ghost use Rattle.hib_bulk.specs.Types.{BulkDef};
    ghost use Rattle.hib_engines.specs.Origin.{Origin};

    /// The script.
    ghost script: { Script };

    /// The bulk lines.
    ghost lines: { List BulkDef };

    /// Which session or line does how many steps, in turn.
    ghost orders: { List Order };

    /// The committed rows at the start, if the keeper tells them, and its counts.
    ghost from: { Origin };
}

impl Name for Brand {
    ghost use Rattle.std.specs.Prelude.{[], None};

    ghost script = { record {
      timeout = 0;
      results = 0;
      mapping = [];
      rows = [];
      queries = [];
      sessions = [];
      schedule = [];
    } };

    ghost lines = { [] };

    ghost orders = { [] };

    ghost from = { record { tables = None; faults = 0; asked = 0 } };
}
