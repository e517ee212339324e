//! Faults as they are found, in the order of their keys.
ghost use Rattle.affc_bounds.specs.Found.{IsNearer};

use crate::fault::MeaningFault;
use affc_system::is_at_most;
use sqlite_items::Items;

/// A fault, and the numbers that order it among others of its kind.
#[derive(Drop)]
pub(crate) struct Found {
    pub(crate) key: Items<i64>,
    pub(crate) fault: MeaningFault,
}

/// The first of what two looks have found.
pub(crate) fn nearer(a: Option<Found>, b: Option<Found>) -> Option<Found>
    ensures first { IsNearer a b result }
{
    match a {
        None => b,
        Some(x) => match b {
            None => Some(x),
            Some(y) => {
                if is_at_most(x.key.as_slice(), y.key.as_slice()) {
                    Some(x)
                } else {
                    Some(y)
                }
            }
        },
    }
}
