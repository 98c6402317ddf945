// The recursive reader of an expression's nodes. The bytes run to `end`, and variables are below `limit`.
ghost use Rattle.std.specs.Prelude.{◌≡◌, ℕ, ◌≤◌, ◌<◌, length, IfOk};
ghost use Rattle.model.specs.Term.{shift};
ghost use Rattle.model.specs.Expression.{two_byte_variable, count_and_expression, Nodes, node_of, nodes_at};
ghost use Rattle.expressions.specs.Scanning.{scanned_of, then_operand, Within};

use limits::MOST_COUNT;
use model::ReadError;

// How far the nodes of an expression are scanned: the next position, and how many nodes are left there.
#[derive(Clone, Copy)]
pub struct Scanned {
    pub next: usize,
    pub left: usize,
}

// Where the variable whose tag is at `at` ends, with `left` nodes left before it.
fn variable(
    bytes: &[u8],
    end: usize,
    limit: usize,
    at: usize,
    left: usize,
) -> Result<Scanned, ReadError>
    requires { (at < end) × (end ≤ length bytes.now) × (0 < left) }
    ensures scanned { (operand : (left p : ℕ) → Nodes) → result ≡ scanned_of (node_of bytes.now end limit operand two_byte_variable left at) }
    ensures within { IfOk result (λ s. Within end left s) }
{
    if end - at < 3 {
        return Err(ReadError::Missing);
    }
    if limit <= fields::half(bytes, at + 1) {
        return Err(ReadError::Fault(at + 1));
    }
    Ok(Scanned {
        next: at + 3,
        left: left - 1,
    })
}

// Where the operand of the shift whose tag is at `at` starts, after its count, with `left` nodes left before the shift.
fn count(bytes: &[u8], end: usize, at: usize, left: usize) -> Result<Scanned, ReadError>
    requires { (at < end) × (end ≤ length bytes.now) × (0 < left) }
    ensures scanned { (limit : ℕ) (operand : (left p : ℕ) → Nodes) → then_operand result operand ≡ scanned_of (node_of bytes.now end limit operand (count_and_expression shift) left at) }
    ensures within { IfOk result (λ s. Within end left s) }
{
    let place = at + 1;
    if end <= place {
        return Err(ReadError::Missing);
    }
    if MOST_COUNT < u32::from(bytes[place]) {
        return Err(ReadError::Fault(place));
    }
    Ok(Scanned {
        next: at + 2,
        left: left - 1,
    })
}

// Where the expression at `at`, of at most `left` nodes, ends, at whatever depth the definition is taken.
pub(crate) fn nodes(
    bytes: &[u8],
    end: usize,
    limit: usize,
    at: usize,
    left: usize,
) -> Result<Scanned, ReadError>
    requires { end ≤ length bytes.now }
    ensures scanned { (depth : ℕ) → left ≤ depth → result ≡ scanned_of (nodes_at bytes.now end limit depth left at) }
    ensures within { IfOk result (λ s. Within end left s) }
{
    if end <= at {
        return Err(ReadError::Missing);
    }
    if left == 0 {
        return Err(ReadError::Fault(at));
    }
    match bytes[at] {
        0 => {
            if end - at < 5 {
                return Err(ReadError::Missing);
            }
            Ok(Scanned {
                next: at + 5,
                left: left - 1,
            })
        }
        1 => variable(bytes, end, limit, at, left),
        2..=4 => {
            let first = nodes(bytes, end, limit, at + 1, left - 1)?;
            nodes(bytes, end, limit, first.next, first.left)
        }
        5 => {
            let counted = count(bytes, end, at, left)?;
            nodes(bytes, end, limit, counted.next, counted.left)
        }
        _ => Err(ReadError::Fault(at)),
    }
}
