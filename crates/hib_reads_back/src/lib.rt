//! What is printed of a script says the script again when it is read. The crate has no code: each function has an empty
//! body, and its `ensures` is the theorem.
#![tactic(auto)]

ghost use Rattle.std.specs.Prelude.{◌≡◌, ℕ, true, Ok};
ghost use Rattle.hib_base.specs.declared.scripts.Script.{Script};
ghost use Rattle.hib_make.specs.Made.{made};
ghost use Rattle.hib_print.specs.Printed.{printed};
ghost use Rattle.hib_reads_back.specs.Readable.{is_readable};
ghost use Rattle.hib_script.specs.Outline.{outline_of};
ghost use Rattle.hib_script.specs.Script.{script_of};

/// A valid script whose printed lines aren't too long is read back from its text.
pub fn printed_is_read()
    ensures { (s : Script) → is_readable s ≡ true → script_of (printed s) ≡ Ok (outline_of s) }
{}

/// Each made script is readable, so none of its printed lines is too long, and it is read back from its text.
pub fn made_is_read()
    ensures readable { (seed : ℕ) → is_readable (made seed) ≡ true }
    ensures read { (seed : ℕ) → script_of (printed (made seed)) ≡ Ok (outline_of (made seed)) }
{}
