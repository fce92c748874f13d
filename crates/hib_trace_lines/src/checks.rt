// What is wrong with a line's object.
ghost use Rattle.hib_trace_lines.specs.Faults as wrong;
ghost use Rattle.hib_trace_lines.specs.Faults.{needs_key, needs_transaction};
ghost use Rattle.hib_trace_lines.specs.Members.{operation_at, text_at, whole_at};
ghost use Rattle.hib_trace_lines.specs.Words.{operation_of, outcomes, word_of};
ghost use Rattle.hib_trace_lines.specs.declared.faults.Member.{Member};
ghost use Rattle.serde_json.specs.Find.{as_object};
ghost use Rattle.serde_json.specs.View.{view};
ghost use Rattle.std.specs.BTreeMap.{keys};
ghost use Rattle.std.specs.List.{list_any};
ghost use Rattle.std.specs.Prelude.{◌≡◌, ◌&&◌, IfOk, is_some, not, option_map, string_bytes};

use crate::events::Operation;
use crate::faults::{Fault, Member};
use crate::members::{operation_at, rows_at, tables_at, text_at, whole_at};
use crate::words::{member_of, operation_of, outcome_of};
use serde_json::{Map, Value};
use std::alloc::{AllocError, Global};

fn first_of(faults: &[Option<Fault>]) -> Option<Fault>
    ensures { result ≡ wrong.first_of faults.now }
{
    for fault in faults {
        if let Some(one) = fault {
            return Some(*one);
        }
    }
    None
}

fn fault_if(holds: bool, fault: Fault) -> Option<Fault>
    ensures { result ≡ wrong.fault_if holds fault }
{
    if holds { Some(fault) } else { None }
}

fn text_fault(value: &Value, member: Member) -> Option<Fault>
    ensures { result ≡ wrong.text_fault member (view value.now) }
{
    match value.get(member.name()) {
        None => None,
        Some(Value::Null) => None,
        Some(Value::String(_)) => None,
        Some(_) => Some(Fault::NotText(member)),
    }
}

// Whether a member may be a whole number of 64 bits.
fn may_be_whole(found: Option<&Value>) -> bool
    ensures { result ≡ wrong.may_be_whole (option_map (λ v. view v.now) found.entry) }
{
    match found {
        None => true,
        Some(Value::Null) => true,
        Some(value) => value.is_u64(),
    }
}

fn whole_fault(value: &Value, member: Member) -> Option<Fault>
    ensures { result ≡ wrong.whole_fault member (view value.now) }
{
    fault_if(
        !may_be_whole(value.get(member.name())),
        Fault::NotWhole(member),
    )
}

// A member that isn't of its form.
fn form_fault(value: &Value) -> Option<Fault>
    ensures { result ≡ wrong.first_of (wrong.form_faults (view value.now)) }
{
    first_of(&[
        text_fault(value, Member::Session),
        text_fault(value, Member::Transaction),
        text_fault(value, Member::Operation),
        text_fault(value, Member::Key),
        text_fault(value, Member::Value),
        whole_fault(value, Member::Version),
        text_fault(value, Member::Base),
        text_fault(value, Member::Outcome),
        whole_fault(value, Member::Begin),
        whole_fault(value, Member::End),
    ])
}

fn has_strange_operation(value: &Value) -> bool
    ensures { result ≡ wrong.is_strange operation_of (text_at Member.Operation (view value.now)) }
{
    match text_at(value, Member::Operation) {
        None => false,
        Some(word) => operation_of(word).is_none(),
    }
}

fn has_strange_outcome(value: &Value) -> bool
    ensures { result ≡ wrong.is_strange (word_of outcomes) (text_at Member.Outcome (view value.now)) }
{
    match text_at(value, Member::Outcome) {
        None => false,
        Some(word) => outcome_of(word).is_none(),
    }
}

// A word that isn't known, and rows or tables that are none.
fn word_fault(alloc: Global, value: &Value) -> Result<Option<Fault>, AllocError>
    ensures { IfOk result (λ o. o ≡ wrong.first_of (wrong.word_faults (view value.now))) }
{
    let strange_operation = has_strange_operation(value);
    let strange_outcome = has_strange_outcome(value);
    let has_rows = rows_at(alloc, value)?.is_some();
    let has_tables = tables_at(alloc, value)?.is_some();
    Ok(first_of(&[
        fault_if(strange_operation, Fault::NotAWord(Member::Operation)),
        fault_if(strange_outcome, Fault::NotAWord(Member::Outcome)),
        fault_if(!has_rows, Fault::NotRows),
        fault_if(!has_tables, Fault::NotTables),
    ]))
}

fn needs_key(operation: Option<Operation>) -> bool
    ensures { result ≡ wrong.needs_key operation }
{
    match operation {
        None => false,
        Some(Operation::Commit) => false,
        Some(Operation::Rollback) => false,
        Some(_) => true,
    }
}

fn needs_transaction(operation: Option<Operation>) -> bool
    ensures { result ≡ wrong.needs_transaction operation }
{
    match operation {
        Some(Operation::Write) => true,
        Some(Operation::Rollback) => true,
        _ => false,
    }
}

fn any_unknown(map: &Map<String, Value>) -> bool
    ensures { result ≡ list_any (λ s. wrong.is_unknown (string_bytes s)) (keys map.now) }
{
    map.keys().any(|name| member_of(name.as_str()).is_none())
}

// Whether an object has a member that no event has.
#[tactic(auto, using(crate::proofs::Unknown::unknown_names))]
fn has_unknown(value: &Value) -> bool
    ensures { result ≡ wrong.has_unknown (as_object (view value.now)) }
{
    match value.as_object() {
        None => false,
        Some(map) => any_unknown(map),
    }
}

fn lacks_transaction(value: &Value) -> bool
    ensures { result ≡ (needs_transaction (operation_at (view value.now))
        && not (is_some (text_at Member.Transaction (view value.now)))) }
{
    needs_transaction(operation_at(value)) && text_at(value, Member::Transaction).is_none()
}

fn lacks_key(value: &Value) -> bool
    ensures { result ≡ (needs_key (operation_at (view value.now)) && not (is_some (text_at Member.Key (view value.now)))) }
{
    needs_key(operation_at(value)) && text_at(value, Member::Key).is_none()
}

fn lacks_whole(value: &Value, member: Member) -> bool
    ensures { result ≡ not (is_some (whole_at member (view value.now))) }
{
    whole_at(value, member).is_none()
}

// A member that the call needs and that isn't there.
fn missing_fault(value: &Value) -> Option<Fault>
    ensures { result ≡ wrong.first_of (wrong.missing_faults (view value.now)) }
{
    let has_operation = operation_at(value).is_some();
    first_of(&[
        fault_if(!has_operation, Fault::Missing(Member::Operation)),
        fault_if(
            lacks_transaction(value),
            Fault::Missing(Member::Transaction),
        ),
        fault_if(lacks_key(value), Fault::Missing(Member::Key)),
        fault_if(
            lacks_whole(value, Member::Begin),
            Fault::Missing(Member::Begin),
        ),
        fault_if(lacks_whole(value, Member::End), Fault::Missing(Member::End)),
    ])
}

fn is_lower(first: Option<u64>, second: Option<u64>) -> bool
    ensures { result ≡ wrong.is_lower first second }
{
    match (first, second) {
        (Some(one), Some(other)) => one < other,
        _ => false,
    }
}

/// The first thing that is wrong with a line's object.
pub fn fault_of(alloc: Global, value: &Value) -> Result<Option<Fault>, AllocError>
    ensures { IfOk result (λ o. o ≡ wrong.fault_of (view value.now)) }
{
    let words = word_fault(alloc, value)?;
    let turned = is_lower(whole_at(value, Member::End), whole_at(value, Member::Begin));
    Ok(first_of(&[
        fault_if(!value.is_object(), Fault::NotAnObject),
        fault_if(has_unknown(value), Fault::UnknownMember),
        form_fault(value),
        words,
        missing_fault(value),
        fault_if(turned, Fault::EndBeforeBegin),
    ]))
}
