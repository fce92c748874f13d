// Whether what is written of a script may be read again: a line may be longer, as it is printed, than one that is read.
ghost use Rattle.hib_print.specs.Printed.{printed};
ghost use Rattle.hib_toolbox.specs.Written.{is_script};
ghost use Rattle.std.specs.Prelude.{◌≡◌, IfOk};

use hib_base::Script;
use hib_call::SCRIPT_BYTES;
use hib_script::ScriptError;
use std::alloc::{AllocError, Global};

/// Whether a text is a script's.
#[tactic(auto, unfolding(crate::specs::Written::is_script))]
fn is_script(alloc: Global, text: &[u8]) -> Result<bool, AllocError>
    ensures { IfOk result (λ is. is ≡ is_script text.now) }
{
    if text.len() > SCRIPT_BYTES {
        return Ok(false);
    }
    match hib_script::read(alloc, text) {
        Ok(_) => Ok(true),
        Err(ScriptError::Refused(_)) => Ok(false),
        Err(ScriptError::NoMemory) => Err(AllocError),
    }
}

/// Whether the text of a script is a script's.
pub fn is_read_again(alloc: Global, script: &Script) -> Result<bool, AllocError>
    ensures { IfOk result (λ is. is ≡ is_script (printed script.now)) }
{
    let text = hib_print::print(alloc, script)?;
    is_script(alloc, text.as_slice())
}
