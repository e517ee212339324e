//! A proof that is nested deeper than a certificate's may be.
ghost use Rattle.std.specs.Prelude.{◌≡◌, IfOk, length};

use affc_farkas::{MultiplierFault, Multipliers, Proof, check};
use affc_rows::Form;
use affc_system::System;
use smallvec::SmallVec;
use std::alloc::{AllocError, Global};
use std::test::Fail;

fn form(alloc: Global, row: [i128; 3]) -> Result<Form, AllocError>
    ensures { IfOk result (λ f. length f.coefs ≡ 2) }
{
    let [x, y, constant] = row;
    let coefs = SmallVec::from_slice(alloc, &[x, y])?;
    Ok(Form { coefs, constant })
}

fn leaf(alloc: Global, pairs: [(u32, u64); 2]) -> Result<Proof, MultiplierFault> {
    let mut by = Multipliers::new(alloc);
    for (row, times) in pairs {
        by.push(row, times)?;
    }
    Ok(Proof::Leaf(by))
}

/// A proof after a cut that adds the system's first row again.
fn after_cut(alloc: Global, rest: Proof) -> Result<Proof, Fail> {
    let mut by = Multipliers::new(alloc);
    by.push(0, 1)?;
    let row = form(alloc, [1, 0, -3])?;
    let rest = Box::new(alloc, rest)?;
    Ok(Proof::Cut {
        by,
        g: 1,
        row,
        rest,
    })
}

/// A proof as the upper side of a split on the second column, whose lower side is this leaf.
fn beside_leaf(alloc: Global, low: Proof, high: Proof) -> Result<Proof, Fail> {
    let form = form(alloc, [0, 1, 0])?;
    let low = Box::new(alloc, low)?;
    let high = Box::new(alloc, high)?;
    Ok(Proof::Split {
        form,
        at: 0,
        low,
        high,
    })
}

/// A proof of 5,000 cuts and 5,000 splits in turn, whose innermost leaf names the row of the innermost cut.
fn deep_proof(alloc: Global) -> Result<Proof, Fail> {
    let mut proof = leaf(alloc, [(1, 1), (5_001, 1)])?;
    for i in 0..5_000 {
        let first = if i == 4_999 {
            [(0, 1), (1, 1)]
        } else {
            [(1, 1), (3, 1)]
        };
        let low = leaf(alloc, first)?;
        proof = beside_leaf(alloc, low, after_cut(alloc, proof)?)?;
    }
    Ok(proof)
}

#[test]
fn nested_ten_thousand_deep(rt: HostRuntime) -> Result<(), Fail> {
    let alloc = rt.alloc();
    let mut system = System::new(alloc, 2);
    system.push(form(alloc, [1, 0, -3])?)?;
    system.push(form(alloc, [-1, 0, 2])?)?;
    let proof = deep_proof(alloc)?;
    assert!(rt; check(&system, &proof));
    Ok(())
}
