//! The loops round the blocks.
ghost use Rattle.std.specs.Prelude.{◌≡◌, ◌≤◌, length, IfOk};
ghost use Rattle.affc_loops.specs.Between as between;
ghost use Rattle.affc_loops.specs.Loops as specs;

use crate::blocks::one;
use affc_ast::Items;
use affc_ast::text::Text;
use affc_ast::tree::{Ix, Rel, Stmt};
use std::alloc::{AllocError, Global};

/// The name of a component's loop.
fn time_name(alloc: Global, component: u32) -> Result<Text, AllocError>
    ensures { IfOk result (λ t. t ≡ specs.time_name component) }
{
    let name = format!(in alloc; "affc_t{component}")?;
    Ok(Text::from_string(name))
}

/// Loops between these ends round a body.
#[tactic(auto, using(crate::proofs::LoopSteps::innermost))]
pub(crate) fn loops_between(
    alloc: Global,
    ends: Items<(Ix, Ix)>,
    body: Items<Stmt>,
) -> Result<Items<Stmt>, AllocError>
    requires { length ends ≤ 1024 }
    ensures { IfOk result (λ x. x ≡ between.loops_between ends 0 body) }
{
    let mut outer = ends;
    let Some((low, high)) = outer.pop() else {
        return Ok(body);
    };
    let iter = time_name(alloc, outer.len() as u32)?;
    let inner = one(
        alloc,
        Stmt::For {
            iter,
            low,
            rel: Rel::LessEqual,
            high,
            body,
        },
    )?;
    loops_between(alloc, outer, inner)
}
