// Texts on standard output, such as the help.
ghost use Rattle.std.specs.Prelude.{◌≡◌, ◌⊎◌, IfOk, IfErr};

use hib_call::Status;
use std::alloc::AllocError;

/// Prints a text on standard output, and answers how that ended.
pub fn print_text(rt: &impl Print, text: &str) -> Status
    ensures { (result ≡ Status.Done) ⊎ (result ≡ Status.WriteFault) }
{
    match rt.print(text) {
        Ok(()) => Status::Done,
        Err(_) => Status::WriteFault,
    }
}

/// Prints a text that was made, if there was memory for it.
pub fn print_made(rt: &impl Print, text: &Result<String, AllocError>) -> Status
    ensures made { IfOk text.now (λ _. (result ≡ Status.Done) ⊎ (result ≡ Status.WriteFault)) }
    ensures short { IfErr text.now (λ _. result ≡ Status.NoMemory) }
{
    match text {
        Ok(text) => print_text(rt, text.as_str()),
        Err(_) => Status::NoMemory,
    }
}
