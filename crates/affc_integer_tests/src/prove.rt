//! Proofs that halve columns, where another one would let more rows stand at a node than may.
ghost use Rattle.std.specs.Prelude.{◌≡◌, IfOk, length};

use affc_farkas::{Proof, check, depth_at_most};
use affc_prove::refutation_within;
use affc_rows::Form;
use affc_split::Budget;
use affc_system::System;
use affc_system::system::MOST_ROWS;
use smallvec::SmallVec;
use std::alloc::{AllocError, Global};
use std::test::Fail;

/// A row over three columns: its coefficients and its constant.
type Row = [i16; 4];

/// Rows that each gain by being divided by 2. A proof that cuts all of them has four rows more at its nodes.
const EVEN: [Row; 4] = [[2, 2, 0, 1], [2, 0, 2, 1], [0, 2, 2, 1], [2, 2, 2, 1]];

fn form(alloc: Global, row: Row) -> Result<Form, AllocError>
    ensures { IfOk result (λ f. length f.coefs ≡ 3) }
{
    let [x, y, z, constant] = row;
    let coefs = SmallVec::from_slice(alloc, &[i128::from(x), i128::from(y), i128::from(z)])?;
    Ok(Form {
        coefs,
        constant: i128::from(constant),
    })
}

fn add(alloc: Global, system: &mut System, rows: &[Row]) -> Result<(), Fail> {
    for row in rows {
        let form = form(alloc, *row)?;
        if form.coefs.len() == system.columns() as usize {
            system.push(form)?;
        }
    }
    Ok(())
}

/// Two columns from 0 to 7 and one from 0 up to an end, with these four rows and those that gain.
fn system_of(alloc: Global, end: i16, rows: [Row; 4]) -> Result<System, Fail> {
    let mut system = System::new(alloc, 3);
    add(alloc, &mut system, &[[1, 0, 0, 0], [-1, 0, 0, 7]])?;
    add(alloc, &mut system, &[[0, 1, 0, 0], [0, -1, 0, 7]])?;
    add(alloc, &mut system, &[[0, 0, 1, 0], [0, 0, -1, end]])?;
    add(alloc, &mut system, &rows)?;
    add(alloc, &mut system, &EVEN)?;
    Ok(system)
}

/// The proof with at most so many rows at a node, where one is found.
fn proof_within(alloc: Global, system: &System, most: usize) -> Option<Proof> {
    let mut budget = Budget::new(None);
    match refutation_within(alloc, system, most, &mut budget) {
        Ok(found) => found,
        Err(_) => None,
    }
}

#[test]
fn at_most_so_many_rows(rt: HostRuntime) -> Result<(), Fail> {
    let alloc = rt.alloc();
    let cases = [
        (
            7,
            [
                [9, -8, 8, -63],
                [-9, 8, -8, 64],
                [-11, -11, 9, 52],
                [11, 11, -9, -51],
            ],
            2,
        ),
        // The last column follows from the others by one division. Halving it alone would take ten rows.
        (
            552,
            [
                [418, 448, -11, 5],
                [-418, -448, 11, 5],
                [-152, -165, 4, 5],
                [152, 165, -4, -2],
            ],
            5,
        ),
    ];
    for (end, rows, more) in cases {
        let system = system_of(alloc, end, rows)?;
        let long = proof_within(alloc, &system, MOST_ROWS);
        assert!(rt; matches!(&long, Some(proof) if !depth_at_most(proof, more)));
        let most = system.rows().len() + more as usize;
        let short = proof_within(alloc, &system, most);
        assert!(rt;
            matches!(&short, Some(proof) if check(&system, proof) && depth_at_most(proof, more))
        );
    }
    Ok(())
}
