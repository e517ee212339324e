//! Columns of forms, and the names that stand for them.

ghost use Rattle.std.specs.Prelude.{◌≡◌, ◌+◌, ◌≤◌, length, map};
ghost use Rattle.affc_schedtext.specs.Outline as outlines;
ghost use Rattle.affc_schedtext.specs.Rules as rules;
ghost use Rattle.affc_schedtext.specs.Seen.{scope_seen};
ghost use Rattle.affc_plan.specs.Few.{AreFew};

use affc_ast::text::Text;
use affc_schedtext::scope::{Scope, numbered, position};

/// So many columns, and what names stand for them.
#[derive(Clone, Copy, Drop)]
pub(crate) struct Columns<'o> {
    pub count: u32,
    pub scope: Scope<'o>,
}

/// The columns of a line's two lists.
#[derive(Clone, Copy, Drop)]
pub(crate) struct Sides<'o> {
    pub there: Columns<'o>,
    pub back: Columns<'o>,
}

/// The column of a name of the first or of the others.
#[tactic(auto, using(crate::proofs::ColumnLaws::names))]
fn of_names(name: &str, first: &[Text], others: &[Text]) -> Option<u32>
    requires { (length first.now ≤ 4) × (length others.now ≤ 6) }
    ensures { result ≡ outlines.names_scope first.now others.now name.now }
{
    match position(name, first) {
        Some(column) => Some(column as u32),
        None => match position(name, others) {
            Some(column) => Some((first.len() + column) as u32),
            None => None,
        },
    }
}

/// The column of the name of a component, or else of a parameter.
#[tactic(auto, using(crate::proofs::ColumnLaws::names))]
fn of_components(name: &str, parameters: &[Text], components: u64) -> Option<u32>
    requires { (length parameters.now ≤ 4) × (components ≤ 12) }
    ensures { result ≡ outlines.components_scope parameters.now components name.now }
{
    match numbered(b't', components, name) {
        Some(component) => Some(parameters.len() as u32 + component as u32),
        None => match position(name, parameters) {
            Some(column) => Some(column as u32),
            None => None,
        },
    }
}

/// The column that the name stands for.
#[tactic(auto, using(crate::proofs::ColumnLaws::names))]
pub(crate) fn column_of(columns: Columns<'_>, name: &str) -> Option<u32>
    requires { AreFew columns.scope }
    ensures { result ≡ scope_seen columns.entry.scope name.now }
{
    match columns.scope {
        Scope::Any => Some(0),
        Scope::Time {
            parameters,
            iterators,
        } => of_names(name, parameters, iterators),
        Scope::Inverse { parameters, length } => of_components(name, parameters, length),
        Scope::Row(count) => match numbered(b'x', count, name) {
            Some(column) => Some(column as u32),
            None => None,
        },
        Scope::Back(count) => match numbered(b'y', count, name) {
            Some(column) => Some(column as u32),
            None => None,
        },
    }
}
