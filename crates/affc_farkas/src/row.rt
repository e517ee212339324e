//! The entries of rows: the coefficients, and behind them the constant.
ghost use Rattle.std.specs.Prelude.{◌≡◌, ◌≤◌, length};
ghost use Rattle.affc_farkas.specs.Multiples.{entry_of};

use affc_rows::Form;

/// The entry of a row at a place.
pub fn entry(row: &Form, column: usize) -> i128
    requires { column ≤ length row.now.coefs }
    ensures { result ≡ entry_of row.now column }
{
    let coefs = row.coefs.as_slice();
    if column < coefs.len() {
        coefs[column]
    } else {
        row.constant
    }
}
