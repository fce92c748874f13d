// How cells compare, for conditions and orders.
ghost use Rattle.std.specs.Prelude.{◌≡◌};
ghost use Rattle.hib_journal.specs.Query.{is_below_text, is_below_cell, same_cell, passes};

use hib_base::{Cell, Op};

/// Whether a text is below another, by bytes. A text is above what it begins with.
fn is_below_text(a: &[u8], b: &[u8]) -> bool
    ensures { result ≡ is_below_text a.now b.now }
{
    for at in 0..a.len().min(b.len()) {
        if a[at] != b[at] {
            return a[at] < b[at];
        }
    }
    a.len() < b.len()
}

/// Whether a cell is below another of its type; false is before true.
#[inline]
pub fn is_below(a: &Cell, b: &Cell) -> bool
    ensures { result ≡ is_below_cell a.now b.now }
{
    match (a, b) {
        (Cell::Int(a), Cell::Int(b)) => *a < *b,
        (Cell::Text(a), Cell::Text(b)) => is_below_text(a.as_slice(), b.as_slice()),
        (Cell::Bool(a), Cell::Bool(b)) => !*a && *b,
        _ => false,
    }
}

/// Whether two cells are of one type and equal.
#[inline]
pub fn is_same(a: &Cell, b: &Cell) -> bool
    ensures { result ≡ same_cell a.now b.now }
{
    match (a, b) {
        (Cell::Int(a), Cell::Int(b)) => *a <= *b && *b <= *a,
        (Cell::Text(a), Cell::Text(b)) => a.as_slice() == b.as_slice(),
        (Cell::Bool(a), Cell::Bool(b)) => *a == *b,
        _ => false,
    }
}

/// Whether a cell compares so with another.
#[inline(always)]
pub fn is_passed(op: Op, a: &Cell, b: &Cell) -> bool
    ensures { result ≡ passes op a.now b.now }
{
    match op {
        Op::Eq => is_same(a, b),
        Op::Ne => !is_same(a, b),
        Op::Lt => is_below(a, b),
        Op::Le => !is_below(b, a),
        Op::Gt => is_below(b, a),
        Op::Ge => !is_below(a, b),
    }
}
