//! Schedules: in which order a program's instances run.
ghost use Rattle.std.specs.Prelude.{◌+◌, ◌-◌, ◌≤◌, length};
ghost use Rattle.affc_rows.specs.Forms.{HaveColumns, columns_of};
ghost use Rattle.affc_trace.specs.Inverses.{AreInverse};

use affc_rows::Form;
use sqlite_items::Items;

/// The times of a statement's instances: a form for each component of the time tuple, over the
/// parameters in order of declaration and then the statement's iterators from the outermost; and for
/// each iterator a form over the parameters and then the components, which gives it back.
#[derive(Drop)]
pub struct TimeMap {
    pub forms: Items<Form>,
    pub inverse: Items<Form>,
    ghost shaped: { HaveColumns (columns_of forms) forms },
    ghost inverse_shaped: { HaveColumns (columns_of forms - length inverse + length forms) inverse },
    ghost at_least_iterators: { length inverse ≤ columns_of forms },
    ghost inverts: { AreInverse forms inverse },
}

/// The order of the text, or that of time tuples with so many components, one map for each statement.
#[derive(Drop)]
pub enum Schedule {
    Source,
    Time { length: u32, maps: Items<TimeMap> },
}
