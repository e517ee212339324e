//! How many elements an array has.
ghost use Rattle.std.specs.Prelude.{◌≡◌, ℕ, ◌+◌, ◌^◌, ◌<◌, SomeIff, sum_by};
ghost use Rattle.affc_ast.specs.Index.{nodes_of_ix};
ghost use Rattle.affc_ast.specs.Meaning.{extents_of};
ghost use Rattle.affc_interp.specs.DataText.{elements_in};
ghost use Rattle.affc_interp.specs.Scans.{counted};

use crate::index::{eval, node_count};
use affc_ast::tree::Ix;

// So many times the elements behind one value of the first subscript.
fn times(n: i64, inner: Option<usize>) -> Option<usize>
    ensures { (m : ℕ) → SomeIff inner (m < 2 ^ 64) m → SomeIff result (counted n m < 2 ^ 64) (counted n m) }
{
    if n < 1 {
        return Some(0);
    }
    match inner {
        Some(inner) => (n.unsigned_abs() as usize).checked_mul(inner),
        None => None,
    }
}

/// The product of the extents, if it is below 2^64; 0 where an array has none.
pub fn element_count(extents: &[Ix], node: u32, names: &[i64]) -> Option<usize>
    requires { node + sum_by nodes_of_ix extents.now < 2 ^ 32 }
    ensures { SomeIff result (elements_in (extents_of 0 extents.now node names.now) < 2 ^ 64) (elements_in (extents_of 0 extents.now node names.now)) }
{
    match extents {
        [] => Some(1),
        [e, rest @ ..] => {
            let inner = element_count(rest, node + node_count(e), names);
            match eval(e, node, names) {
                Ok(n) => times(n, inner),
                Err(_) => Some(0),
            }
        }
    }
}
