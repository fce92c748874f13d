// What a run of two nodes was opened with, for contracts.
use std::marker::Brand;

/// Which run of two nodes it is: what it was opened with. Contracts alone see it.
pub trait Name {
    ghost use Rattle.std.specs.Prelude.{List};
    ghost use Rattle.hib_base.specs.declared.scripts.Script.{Script};
    ghost use Rattle.hib_nodes_law.specs.declared.nodes.NodeOrder.{NodeOrder};
    ghost use Rattle.hib_nodes_law.specs.Types.{Nodings};
    ghost use Rattle.hib_engines.specs.Origin.{Origin};

    /// The script.
    ghost script: { Script };

    /// The nodes of sessions.
    ghost places: { Nodings };

    /// The orders.
    ghost orders: { List NodeOrder };

    /// The committed rows at the start, if the keeper tells them, and its counts.
    ghost from: { Origin };
}

impl Name for Brand {
    ghost use Rattle.std.specs.Prelude.{[], None};

    ghost script = { record {
      timeout = 0;
      results = 0;
      mapping = [];
      rows = [];
      queries = [];
      sessions = [];
      schedule = [];
    } };

    ghost places = { [] };

    ghost orders = { [] };

    ghost from = { record { tables = None; faults = 0; asked = 0 } };
}
