//! Why a name is refused.

ghost use Rattle.std.specs.Prelude.{◌≡◌, ◌∷◌, [], true, false, ◌&&◌, ◌==◌, not};
ghost use Rattle.std.specs.Option.{option_map};
ghost use Rattle.affc_grammar.specs.Names as names;
ghost use Rattle.affc_grammar.specs.declared.fault.NameWhy.TheVariants as reasons;
ghost use Rattle.affc_names.specs.Things.{thing_seen};
ghost use Rattle.affc_names.specs.Ranged.{why_ranged};

use crate::reserved::{is_reserved, is_time_name};
use crate::scope::{Scope, Thing};
use affc_ast::tree::Role;
use affc_grammar::fault::NameWhy;

fn is_refused_word(scope: &Scope, is_iterator: bool, name: &str) -> bool
    ensures { result ≡ names.is_refused_word scope.now is_iterator name.now }
{
    is_reserved(name) && !(is_iterator && scope.has_prelude() && is_time_name(name))
}

fn why_word(scope: &Scope, is_iterator: bool, name: &str) -> Option<NameWhy>
    ensures { result ≡ names.first_reason ((names.is_refused_word scope.now is_iterator name.now, reasons.Reserved) ∷ []) }
{
    if is_refused_word(scope, is_iterator, name) {
        Some(NameWhy::Reserved)
    } else {
        None
    }
}

/// Of a thing of another kind.
fn why_other(scope: &Scope, is_iterator: bool, name: &str) -> Option<NameWhy>
    ensures { result ≡ names.first_reason ((names.is_refused_word scope.now is_iterator name.now, reasons.Reserved) ∷ (true, reasons.Kind) ∷ []) }
{
    if is_refused_word(scope, is_iterator, name) {
        Some(NameWhy::Reserved)
    } else {
        Some(NameWhy::Kind)
    }
}

pub(crate) fn why_function(scope: &Scope, name: &str) -> Option<NameWhy>
    ensures { result ≡ names.function_why scope.now name.now }
{
    why_word(scope, false, name)
}

pub(crate) fn why_declared(scope: &Scope, is_iterator: bool, name: &str) -> Option<NameWhy>
    ensures { result ≡ names.why_declared scope.now is_iterator name.now }
{
    match scope.find(name) {
        Some(_) => Some(NameWhy::Twice),
        None => why_word(scope, is_iterator, name),
    }
}

pub(crate) fn why_number(scope: &Scope, name: &str, thing: Option<Thing>) -> Option<NameWhy>
    ensures { result ≡ names.why_number scope.now name.now (option_map thing_seen thing) }
{
    match thing {
        None => Some(NameWhy::Unknown),
        Some(Thing::Number { is_iterator, .. }) => why_word(scope, is_iterator, name),
        Some(Thing::Function) => why_other(scope, false, name),
        Some(Thing::Array { .. }) => why_other(scope, false, name),
    }
}

/// Of an array that is visible.
fn why_dimensions(
    scope: &Scope,
    name: &str,
    is_store: bool,
    subscripts: usize,
    role: Role,
    dimensions: usize,
) -> Option<NameWhy>
    ensures { result ≡ names.first_reason ((names.is_refused_word scope.now false name.now, reasons.Reserved) ∷ (is_store && names.is_input role, reasons.Const) ∷ (not (dimensions == subscripts), reasons.Kind) ∷ []) }
{
    if is_refused_word(scope, false, name) {
        Some(NameWhy::Reserved)
    } else if is_store && matches!(role, Role::Input) {
        Some(NameWhy::Const)
    } else if dimensions != subscripts {
        Some(NameWhy::Kind)
    } else {
        None
    }
}

pub(crate) fn why_array(
    scope: &Scope,
    name: &str,
    is_store: bool,
    subscripts: usize,
    thing: Option<Thing>,
) -> Option<NameWhy>
    ensures { result ≡ names.why_array scope.now name.now is_store subscripts (option_map thing_seen thing) }
{
    match thing {
        None => Some(NameWhy::Unknown),
        Some(
            Thing::Array {
                role,
                dimensions,
                ..
            },
        ) => why_dimensions(scope, name, is_store, subscripts, role, dimensions),
        Some(Thing::Number { is_iterator, .. }) => why_other(scope, is_iterator, name),
        Some(Thing::Function) => why_other(scope, false, name),
    }
}

/// Of the second and the third word of a `for`.
pub(crate) fn why_repeated(scope: &Scope, iterator: &str, name: &str) -> Option<NameWhy>
    ensures { result ≡ names.why_repeated scope.now iterator.now name.now }
{
    if iterator == name {
        return None;
    }
    match scope.find(name) {
        None => Some(NameWhy::Unknown),
        Some(Thing::Number { is_iterator, .. }) => why_other(scope, is_iterator, name),
        Some(_) => why_other(scope, false, name),
    }
}

/// Of a name that is given a range.
pub(crate) fn why_ranged(
    scope: &Scope,
    is_earlier: bool,
    name: &str,
    thing: Option<Thing>,
) -> Option<NameWhy>
    ensures { result ≡ why_ranged scope.now is_earlier name.now (option_map thing_seen thing) }
{
    match thing {
        None => Some(NameWhy::Unknown),
        Some(thing) => {
            if is_earlier {
                return Some(NameWhy::Twice);
            }
            match thing {
                Thing::Number { is_iterator, .. } => why_word(scope, is_iterator, name),
                Thing::Function => why_other(scope, false, name),
                Thing::Array { .. } => why_other(scope, false, name),
            }
        }
    }
}
