//! Numbers by which parallel rows are found.
ghost use Rattle.std.specs.Prelude.{◌≤◌, ◌<ℤ◌, ◌+ℤ◌, pos, length, IsTrue, IfSome};
ghost use Rattle.affc_rows.specs.Vocabulary.{AreOpposite};
ghost use Rattle.affc_system.specs.Systems.{FitsRow};
ghost use Rattle.affc_moduli.specs.Barred.{IsBarredAt};

use affc_rows::Form;
use affc_rows::vocabulary::are_opposite;
use affc_system::System;

/// What a column's weight is multiplied by for that of the next column.
const FACTOR: i64 = 6_364_136_223_846_793_005;

/// A number for the coefficients of a row: the opposite number is that of the coefficients with the other sign.
pub fn key_of(row: &Form) -> i64
    requires { FitsRow row.now }
{
    let mut key = 0i64;
    let mut weight = 1i64;
    for c in row.coefs.as_slice() {
        weight = weight.wrapping_mul(FACTOR).wrapping_add(2);
        if *c != 0 {
            key = key.wrapping_add((*c as i64).wrapping_mul(weight));
        }
    }
    key
}

/// Whether two rows are parallel the other way round, and their constants sum to less than 0.
fn bars(other: &Form, row: &Form) -> bool
    requires other { FitsRow other.now }
    requires row { FitsRow row.now }
    ensures opposite { IsTrue result → AreOpposite other.now.coefs row.now.coefs }
    ensures low { IsTrue result → (other.now.constant +ℤ row.now.constant) <ℤ pos 0 }
{
    other.constant + row.constant < 0 && are_opposite(other.coefs.as_slice(), row.coefs.as_slice())
}

/// The place of a row of the system with which a row, which has this key, is nowhere at least 0. Only the first rows of the system
/// are looked at, of which these are the keys.
pub fn barring_by_key(system: &System, keys: &[i64], row: &Form, key: i64) -> Option<usize>
    requires row { FitsRow row.now }
    requires first { length keys.now ≤ length system.now.rows }
    ensures { IfSome result (λ i. IsBarredAt system.now.rows row.now i) }
{
    let rows = system.rows();
    let opposite = key.wrapping_neg();
    for (i, own) in keys.iter().enumerate() {
        if *own == opposite && bars(&rows[i], row) {
            return Some(i);
        }
    }
    None
}

/// The place of a row of the system with which a row is nowhere at least 0: the two are parallel the other way round, and their
/// constants sum to less than 0. Only the first rows of the system are looked at, of which these are the keys.
pub fn barring(system: &System, keys: &[i64], row: &Form) -> Option<usize>
    requires row { FitsRow row.now }
    requires first { length keys.now ≤ length system.now.rows }
    ensures { IfSome result (λ i. IsBarredAt system.now.rows row.now i) }
{
    barring_by_key(system, keys, row, key_of(row))
}
