//! Whether a proof is one of a question.
ghost use Rattle.std.specs.Prelude.{◌≡◌, ◌≤◌, ◌-◌, ◌↔◌, IsTrue};
ghost use Rattle.affc_products.specs.Parts.{IsProof};

use affc_farkas::{Proof, check, depth_at_most};
use affc_system::System;
use affc_system::system::MOST_ROWS;

/// How many rows more than these stand at a node at most.
fn room(rows: usize) -> u32
    requires { rows ≤ 1024 }
    ensures { result ≡ 1024 - rows }
{
    (MOST_ROWS - rows) as u32
}

/// Whether a proof is one of a system, and at most 1,024 rows stand at each of its nodes. Its depth is looked at first, so that the
/// stack goes no deeper than the rows allow.
pub fn is_proof(system: &System, proof: &Proof) -> bool
    ensures { IsTrue result ↔ IsProof system.now proof.now }
{
    let _columns = system.columns();
    let limit = room(system.rows().len());
    depth_at_most(proof, limit) && check(system, proof)
}
