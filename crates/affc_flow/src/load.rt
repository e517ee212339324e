//! Loads of parts.
ghost use Rattle.std.specs.Prelude.{◌≡◌};
ghost use Rattle.affc_flow.specs.Questions.{is_temporary};

use affc_ast::tree::{ArrayId, Role};
use affc_nest::{Access, Entry, Nest};

/// A load, and its number among the loads of its part.
#[derive(Drop)]
pub struct Load<'a> {
    pub nest: &'a Nest,
    pub reader: &'a Entry,
    pub access: &'a Access,
    pub number: u32,
}

/// Whether an array is a temporary.
pub fn is_temporary(nest: &Nest, array: ArrayId) -> bool
    ensures { result ≡ is_temporary nest.now array.0 }
{
    match nest.arrays.as_slice().get(array.0 as usize) {
        None => false,
        Some(info) => match info.role {
            Role::Temp => true,
            Role::Input => false,
            Role::Output => false,
        },
    }
}
