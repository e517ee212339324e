//! The instance that a last-write tree names.
ghost use Rattle.std.specs.Prelude.{◌≡◌, ◌∷◌, [], IfOk};
ghost use Rattle.affc_quast.specs.Examples.{tree};
ghost use Rattle.affc_quast.specs.Seen.{seen};
ghost use Rattle.affc_quast.specs.Trees.{Source};

use affc_quast::Quast;
use affc_rows::Form;
use smallvec::SmallVec;
use sqlite_items::Items;
use std::alloc::{AllocError, Global};
use std::test::Fail;

fn form(alloc: Global, coefs: &[i128], constant: i128) -> Result<Form, AllocError>
    ensures { IfOk result (λ f. f ≡ record { coefs = coefs.now; constant = constant }) }
{
    let coefs = SmallVec::from_slice(alloc, coefs)?;
    Ok(Form { coefs, constant })
}

fn source(alloc: Global, part: u32, form: Form) -> Result<Quast, AllocError>
    ensures { IfOk result (λ t. seen t ≡ Source part (form ∷ [])) }
{
    let mut forms = Items::new(alloc);
    forms.push(form)?;
    Ok(Quast::Source { part, forms })
}

/// S0 at i - 1 where i is at least 1, and elsewhere S1 at the half of i + 1, rounded down.
fn small_tree(alloc: Global) -> Result<Quast, AllocError>
    ensures { IfOk result (λ t. seen t ≡ tree) }
{
    let before = form(alloc, &[0, 1], -1)?;
    let yes = source(alloc, 0, before)?;
    let quotient = form(alloc, &[0, 0, 1], 0)?;
    let rest = source(alloc, 1, quotient)?;
    let divided = form(alloc, &[0, 1], 1)?;
    let no = Quast::Div {
        form: divided,
        by: 2,
        rest: Box::new(alloc, rest)?,
    };
    let tested = form(alloc, &[0, 1], -1)?;
    Ok(Quast::Test {
        form: tested,
        yes: Box::new(alloc, yes)?,
        no: Box::new(alloc, no)?,
    })
}

/// The statement and the iterator of the instance that it names where N is 4.
fn named(alloc: Global, i: i8) -> Result<Option<(u32, i64)>, AllocError> {
    let tree = small_tree(alloc)?;
    let point = [4, i64::from(i)];
    let Some(instance) = tree.source_at(alloc, &point)? else {
        return Ok(None);
    };
    let iterator = instance.iterators.as_slice().first().copied();
    Ok(iterator.map(|j| (instance.statement, j)))
}

#[test]
fn sources(rt: HostRuntime) -> Result<(), Fail> {
    let rows = [
        (5, (0, 4)),
        (1, (0, 0)),
        (0, (1, 0)),
        (-1, (1, 0)),
        (-3, (1, -1)),
        (-4, (1, -2)),
    ];
    for (i, want) in rows {
        assert_eq!(rt; named(rt.alloc(), i)?, Some(want));
    }
    Ok(())
}
