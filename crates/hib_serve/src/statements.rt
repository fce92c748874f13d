// The statement that a request's text is.
ghost use Rattle.hib_serve.specs.Statements.{IsNoStatement, said_in, statement_in};
ghost use Rattle.hib_statements.specs.Statements.{names_of, statement_of};
ghost use Rattle.std.specs.Prelude.{◌≡◌, IfErr, IfOk, Ok};

use hib_base::{Kind, Script, Statement};
use hib_lex::{LexError, Token, line_of};
use hib_serve_answers::Refusal;
use hib_statements::{StatementError, statement};
use std::alloc::Global;

fn of_tokens(alloc: Global, script: &Script, tokens: &[Token]) -> Result<Statement, Refusal>
    ensures said { IfOk result (λ s. statement_of script.now.mapping
        (names_of script.now.queries) tokens.now ≡ Ok s) }
    ensures why { IfErr result (IsNoStatement
        (statement_of script.now.mapping (names_of script.now.queries) tokens.now)) }
{
    match statement(alloc, &script.mapping, &script.queries, tokens) {
        Ok(statement) => Ok(statement),
        Err(StatementError::Fault(kind)) => Err(Refusal::Statement(kind)),
        Err(StatementError::NoMemory) => Err(Refusal::Memory),
    }
}

/// The statement that a text is as a line of a session, in a script.
///
/// Errors: `Statement` exactly if it is none, with the first kind of fault that it has; `Memory` if there is none left.
pub fn statement_in(alloc: Global, script: &Script, text: &[u8]) -> Result<Statement, Refusal>
    ensures said { IfOk result (λ s. statement_in script.now text.now ≡ Ok s) }
    ensures why { IfErr result (IsNoStatement (statement_in script.now text.now)) }
{
    match line_of(alloc, 1, text) {
        Ok(Some(line)) => of_tokens(alloc, script, line.tokens.as_slice()),
        Ok(None) => Err(Refusal::Statement(Kind::Line)),
        Err(LexError::Refused(refused)) => Err(Refusal::Statement(refused.kind)),
        Err(LexError::NoMemory) => Err(Refusal::Memory),
    }
}
