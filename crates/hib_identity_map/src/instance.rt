// What becomes of one instance, if its row is written, set or removed.
ghost use Rattle.std.specs.Prelude.{◌≡◌, OnOk, OnErr};
ghost use Rattle.hib_identity_map.specs.Identity.{state_written, written, as_removed, with_sets};

use hib_base::{Held, Row, Sets, State};
use std::alloc::{AllocError, Global};

/// The state of an instance whose row was written: one that is marked stays so.
fn after_write(state: State) -> State
    ensures { result ≡ state_written state }
{
    match state {
        State::Removed => State::Removed,
        State::New | State::Managed => State::Managed,
    }
}

/// Lets an instance stand for a row that was written.
pub fn set_base(held: &mut Held, base: Row)
    ensures { held.new ≡ written base held.old }
{
    held.state = after_write(held.state);
    held.row.version = base.version;
    held.base = Some(base);
}

/// Marks an instance for deletion.
pub fn mark(held: &mut Held)
    ensures { held.new ≡ as_removed held.old }
{
    held.state = State::Removed;
}

/// Sets cells of an instance's row. A place that the row doesn't have is passed over. It takes memory if others share
/// the cells. At an error nothing has changed.
pub fn set_cells(alloc: Global, held: &mut Held, sets: Sets) -> Result<(), AllocError>
    ensures ok { OnOk result (held.new ≡ with_sets sets held.old) }
    ensures err { OnErr result (held.new ≡ held.old) }
{
    hib_base::set_cells(alloc, &mut held.row.cells, sets)
}
