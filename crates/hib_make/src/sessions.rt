// The sessions of a made script, and its schedule. `push_...` adds statements of one kind, a session or an order, as
// they are drawn.
ghost use Rattle.std.specs.Prelude.{◌≡◌, ◌<◌, ◌++◌, IfOk, OnOk};
ghost use Rattle.hib_make.specs.Draws.{many};
ghost use Rattle.hib_make.specs.Sessions.{changed, one_found, stock_set, credit_set, order_placed, one_listed, full_set, step_by, step, ending, session, made_sessions, run, made_schedule};

use crate::draws::Draws;
use crate::entities::{BOOK, CUSTOMER, ORDER, SHELF};
use crate::rows::{key, number, numbered, truth};
use hib_base::{
    Cell, Cells, EntityNo, Key, Order, Orders, QueryNo, Seq, SessionDef, SessionNo, Sessions,
    Statement,
};
use std::alloc::{AllocError, Global};

fn push_found(
    draws: &mut Draws,
    entity: EntityNo,
    count: u32,
    statements: &mut Vec<Statement>,
) -> Result<(), AllocError>
    requires some { 0 < count }
    requires few { count < 1000 }
    ensures made { OnOk result (statements.new.items
        ≡ statements.old.items ++ (one_found entity count draws.old).made) }
    ensures state { OnOk result (draws.new ≡ (one_found entity count draws.old).state) }
{
    let id = 1 + draws.draw(count);
    statements.push(Statement::Find {
        key: key(entity, id),
    })?;
    Ok(())
}

fn push_changed(
    alloc: Global,
    key: &Key,
    column: u16,
    cell: Cell,
    statements: &mut Vec<Statement>,
) -> Result<(), AllocError>
    ensures { OnOk result (statements.new.items
        ≡ statements.old.items ++ changed key.now column cell) }
{
    let cells = vec![in alloc; (column, cell)]?;
    statements.push(Statement::Find { key: *key })?;
    statements.push(Statement::Set {
        key: *key,
        cells: Seq::from_vec(cells),
    })?;
    Ok(())
}

fn push_stock(
    alloc: Global,
    draws: &mut Draws,
    statements: &mut Vec<Statement>,
) -> Result<(), AllocError>
    ensures made { OnOk result (statements.new.items
        ≡ statements.old.items ++ (stock_set draws.old).made) }
    ensures state { OnOk result (draws.new ≡ (stock_set draws.old).state) }
{
    let id = 1 + draws.draw(60);
    let stock = draws.draw(50);
    push_changed(alloc, &key(BOOK, id), 2, number(stock), statements)
}

fn push_credit(
    alloc: Global,
    draws: &mut Draws,
    statements: &mut Vec<Statement>,
) -> Result<(), AllocError>
    ensures made { OnOk result (statements.new.items
        ≡ statements.old.items ++ (credit_set draws.old).made) }
    ensures state { OnOk result (draws.new ≡ (credit_set draws.old).state) }
{
    let id = 1 + draws.draw(30);
    let credit = 1000 + draws.draw(1000);
    push_changed(alloc, &key(CUSTOMER, id), 1, number(credit), statements)
}

fn push_full(
    alloc: Global,
    draws: &mut Draws,
    statements: &mut Vec<Statement>,
) -> Result<(), AllocError>
    ensures made { OnOk result (statements.new.items
        ≡ statements.old.items ++ (full_set draws.old).made) }
    ensures state { OnOk result (draws.new ≡ (full_set draws.old).state) }
{
    let id = 1 + draws.draw(12);
    let full = draws.draw(2);
    push_changed(alloc, &key(SHELF, id), 1, truth(full), statements)
}

fn push_placed(
    alloc: Global,
    session: u32,
    place: u32,
    draws: &mut Draws,
    statements: &mut Vec<Statement>,
) -> Result<(), AllocError>
    requires session { session < 1000 }
    requires place { place < 1000 }
    ensures made { OnOk result (statements.new.items
        ≡ statements.old.items ++ (order_placed session place draws.old).made) }
    ensures state { OnOk result (draws.new ≡ (order_placed session place draws.old).state) }
{
    let customer = draws.draw(30);
    let book = draws.draw(60);
    let amount = draws.draw(5);
    let cells = vec![in alloc; number(1 + customer), number(1 + book), number(1 + amount)]?;
    statements.push(Statement::Persist {
        key: key(ORDER, 1000 * session + place),
        cells: Cells::from_vec(cells)?,
    })?;
    Ok(())
}

fn push_listed(draws: &mut Draws, statements: &mut Vec<Statement>) -> Result<(), AllocError>
    ensures made { OnOk result (statements.new.items
        ≡ statements.old.items ++ (one_listed draws.old).made) }
    ensures state { OnOk result (draws.new ≡ (one_listed draws.old).state) }
{
    let query = QueryNo(draws.draw(4) as u16);
    statements.push(Statement::List { query })?;
    Ok(())
}

fn push_by(
    alloc: Global,
    session: u32,
    place: u32,
    choice: u32,
    draws: &mut Draws,
    statements: &mut Vec<Statement>,
) -> Result<(), AllocError>
    requires session { session < 1000 }
    requires place { place < 1000 }
    ensures made { OnOk result (statements.new.items
        ≡ statements.old.items ++ (step_by session place choice draws.old).made) }
    ensures state { OnOk result (draws.new ≡ (step_by session place choice draws.old).state) }
{
    match choice {
        0..=3 => push_found(draws, BOOK, 60, statements),
        4 => push_found(draws, CUSTOMER, 30, statements),
        5 => push_stock(alloc, draws, statements),
        6 => push_credit(alloc, draws, statements),
        7 => push_placed(alloc, session, place, draws, statements),
        8 => push_listed(draws, statements),
        _ => push_full(alloc, draws, statements),
    }
}

#[tactic(auto, unfolding(crate::specs::Sessions::step))]
fn push_step(
    alloc: Global,
    session: u32,
    place: u32,
    draws: &mut Draws,
    statements: &mut Vec<Statement>,
) -> Result<(), AllocError>
    requires session { session < 1000 }
    requires place { place < 1000 }
    ensures made { OnOk result (statements.new.items
        ≡ statements.old.items ++ (step session place draws.old).made) }
    ensures state { OnOk result (draws.new ≡ (step session place draws.old).state) }
{
    let choice = draws.draw(10);
    push_by(alloc, session, place, choice, draws, statements)
}

fn push_steps(
    alloc: Global,
    session: u32,
    count: u32,
    draws: &mut Draws,
    statements: &mut Vec<Statement>,
) -> Result<(), AllocError>
    requires session { session < 1000 }
    requires few { count < 1000 }
    ensures made { OnOk result (statements.new.items
        ≡ statements.old.items ++ (many (step session) count draws.old).made) }
    ensures state { OnOk result (draws.new ≡ (many (step session) count draws.old).state) }
{
    for i in 0..count {
        push_step(alloc, session, i + 1, draws, statements)?;
    }
    Ok(())
}

fn ending(answer: u32) -> Statement
    ensures { result ≡ ending answer }
{
    if answer == 0 {
        Statement::Rollback
    } else {
        Statement::Commit
    }
}

#[tactic(auto, unfolding(crate::specs::Sessions::session))]
fn push_session(
    alloc: Global,
    number: u32,
    draws: &mut Draws,
    sessions: &mut Vec<SessionDef>,
) -> Result<(), AllocError>
    requires { number < 1000 }
    ensures made { OnOk result (sessions.new.items
        ≡ sessions.old.items ++ (session number draws.old).made) }
    ensures state { OnOk result (draws.new ≡ (session number draws.old).state) }
{
    let name = numbered(alloc, b"s", number)?;
    let count = 3 + draws.draw(6);
    let mut statements = Vec::new(alloc);
    push_steps(alloc, number, count, draws, &mut statements)?;
    statements.push(ending(draws.draw(8)))?;
    sessions.push(SessionDef {
        name,
        statements: Seq::from_vec(statements),
    })?;
    Ok(())
}

fn push_sessions(
    alloc: Global,
    draws: &mut Draws,
    sessions: &mut Vec<SessionDef>,
) -> Result<(), AllocError>
    ensures made { OnOk result (sessions.new.items
        ≡ sessions.old.items ++ (many session 40 draws.old).made) }
    ensures state { OnOk result (draws.new ≡ (many session 40 draws.old).state) }
{
    for i in 0..40 {
        push_session(alloc, i + 1, draws, sessions)?;
    }
    Ok(())
}

/// The sessions. Their statements are drawn.
#[tactic(auto, unfolding(crate::specs::Sessions::made_sessions))]
pub fn sessions(alloc: Global, draws: &mut Draws) -> Result<Sessions, AllocError>
    ensures made { IfOk result (λ s. s ≡ (made_sessions draws.old).made) }
    ensures state { OnOk result (draws.new ≡ (made_sessions draws.old).state) }
{
    let mut sessions = Vec::with_capacity(alloc, 40)?;
    push_sessions(alloc, draws, &mut sessions)?;
    Ok(Seq::from_vec(sessions))
}

fn push_run(draws: &mut Draws, orders: &mut Vec<Order>) -> Result<(), AllocError>
    ensures made { OnOk result (orders.new.items ≡ orders.old.items ++ (run draws.old).made) }
    ensures state { OnOk result (draws.new ≡ (run draws.old).state) }
{
    let session = SessionNo(draws.draw(40));
    let steps = 1 + draws.draw(4);
    orders.push(Order::Run { session, steps })?;
    Ok(())
}

fn push_runs(draws: &mut Draws, orders: &mut Vec<Order>) -> Result<(), AllocError>
    ensures { OnOk result (orders.new.items
        ≡ orders.old.items ++ (many (λ k x. run x) 400 draws.old).made) }
{
    for _place in 0..400u32 {
        push_run(draws, orders)?;
    }
    Ok(())
}

/// The orders. They are drawn, and only run sessions.
#[tactic(auto, unfolding(crate::specs::Sessions::made_schedule))]
pub fn schedule(alloc: Global, draws: &mut Draws) -> Result<Orders, AllocError>
    ensures { IfOk result (λ o. o ≡ (made_schedule draws.old).made) }
{
    let mut orders = Vec::with_capacity(alloc, 400)?;
    push_runs(draws, &mut orders)?;
    Ok(Seq::from_vec(orders))
}
