//! Two opposite rows.
ghost use Rattle.std.specs.Prelude.{◌≡◌, ◌↔◌, ℕ, ◌<◌, ◌≤◌, neg_ℤ, pos, ◌<ℤ◌, length, IsTrue, IfSome, IfNone};
ghost use Rattle.std.specs.List.{All, Contains};
ghost use Rattle.affc_farkas.specs.Multiples.{entry_of};
ghost use Rattle.affc_rows.specs.Vocabulary.{opposite};
ghost use Rattle.affc_eliminate.specs.Mixtures.{forms_of};
ghost use Rattle.affc_eliminate.specs.Steps.{HasOpposite};
ghost use Rattle.affc_eliminate.specs.Works.{IsAt, AreOpposite};

use crate::kept::Kept;
use affc_farkas::row::entry;
use affc_rows::Form;

/// The places of a row that is positive in a column, and of its opposite.
#[derive(Clone, Copy)]
pub(crate) struct Places {
    pub(crate) positive: usize,
    pub(crate) negative: usize,
}

/// The place of the row's opposite.
fn opposite_place(rows: &[Kept], row: &Form) -> Option<usize>
    ensures some { IfSome result (λ n. (k : _) × IsAt rows.now n k × (k.row ≡ opposite row.now)) }
    ensures none { IfNone result (All (λ k. k.row ≡ opposite row.now → ⊥) rows.now) }
{
    for (n, other) in rows.iter().enumerate() {
        if row.is_opposite(&other.row) {
            return Some(n);
        }
    }
    None
}

/// Two opposite rows that aren't 0 in the column.
pub(crate) fn opposites(rows: &[Kept], column: usize) -> Option<Places>
    requires { (columns : ℕ) × (column < columns) × All (λ k. length k.row.coefs ≡ columns) rows.now }
    ensures some { IfSome result (λ two. AreOpposite rows.now column two.positive two.negative) }
    ensures none { IfNone result (HasOpposite column (forms_of rows.now) → ⊥) }
{
    for (positive, row) in rows.iter().enumerate() {
        if entry(&row.row, column) > 0 {
            if let Some(negative) = opposite_place(rows, &row.row) {
                return Some(Places { positive, negative });
            }
        }
    }
    None
}
