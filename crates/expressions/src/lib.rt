// The readers of expressions and atoms that only find where they end. The bytes run to `end`, and variables are below `limit`.
#![tactic(auto)]

mod scanning;

ghost use Rattle.std.specs.Prelude.{◌≡◌, ◌≤◌, max, length, IfOk};
ghost use Rattle.model.specs.Expression.{expression_at, atom_at, atoms_at};
ghost use Rattle.expressions.specs.Reading.{ends};

use limits::MOST_NODES;
use model::{Comparison, ReadError};

// Where the expression at `at`, of at most as many nodes as the limit says, ends.
pub fn expression(bytes: &[u8], end: usize, limit: usize, at: usize) -> Result<usize, ReadError>
    requires { end ≤ length bytes.now }
    ensures ends { result ≡ ends (expression_at bytes.now end limit at) }
    ensures inside { IfOk result (λ next. next ≤ end) }
{
    let scanned = scanning::nodes(bytes, end, limit, at, MOST_NODES)?;
    Ok(scanned.next)
}

// Where the atom at `at` ends.
pub fn atom(bytes: &[u8], end: usize, limit: usize, at: usize) -> Result<usize, ReadError>
    requires { end ≤ length bytes.now }
    ensures ends { result ≡ ends (atom_at bytes.now end limit at) }
    ensures inside { IfOk result (λ next. next ≤ end) }
{
    if end <= at {
        return Err(ReadError::Missing);
    }
    Comparison::try_from(bytes[at]).map_err(|_| ReadError::Fault(at))?;
    let next = expression(bytes, end, limit, at + 1)?;
    expression(bytes, end, limit, next)
}

// Where `count` atoms that follow each other from `at` end.
pub fn atoms(
    bytes: &[u8],
    end: usize,
    limit: usize,
    count: usize,
    at: usize,
) -> Result<usize, ReadError>
    requires { end ≤ length bytes.now }
    ensures ends { result ≡ ends (atoms_at bytes.now end limit count at) }
    ensures inside { IfOk result (λ next. next ≤ max at end) }
{
    let mut next = at;
    for _ in 0..count {
        next = atom(bytes, end, limit, next)?;
    }
    Ok(next)
}
