//! Trees.
ghost use Rattle.std.specs.Prelude.{◌≡◌, ◌++◌, ◌≤◌, length, IfOk, OnOk, IfSome};
ghost use Rattle.std.specs.List.{All};
ghost use Rattle.affc_rows.specs.Forms.{value, values_of};
ghost use Rattle.affc_quast.specs.Limits.{Shaped, FitsTree, widest};
ghost use Rattle.affc_quast.specs.Paths.{IsNear, HasValue, HasNearValue, LeadsNear};
ghost use Rattle.affc_quast.specs.Seen.{seen};
ghost use Rattle.affc_quast.specs.Trees.{named_at, quotients_at, depth_of};

use affc_ast::tree::Instance;
use affc_rows::{Form, Range};
use sqlite_items::Items;
use std::alloc::{AllocError, Global};

/// Which instance stores what a load reads, by tests on the parameters and on the iterators of the load's statement (the
/// quasi-affine selection trees of Feautrier, 1988 and 1991).
///
/// The columns of a form are the number parameters, the iterators and the quotients of the divisions above, outermost first.
#[derive(Drop)]
pub enum Quast {
    /// `yes` where the form is at least 0, and `no` elsewhere.
    Test {
        form: Form,
        yes: Box<Quast>,
        no: Box<Quast>,
    },
    /// The quotient of the form by a number of at least 1, rounded down, is a column more in `rest`.
    Div {
        form: Form,
        by: i64,
        rest: Box<Quast>,
    },
    /// The instance of this part with a form for each of its coordinates.
    Source {
        part: u32,
        forms: Items<Form>,
    },
    /// What was handed in: no instance stores it before.
    Input,
}

/// A tree for each load, parts and loads in order.
#[derive(Drop)]
pub struct Flow {
    pub trees: Items<Quast>,
}

/// The value of a form at a point.
fn value_at(form: &Form, point: &[i128]) -> i128
    requires { HasValue form.now point.now }
    ensures { result ≡ value form.now point.now }
{
    match form.eval(point) {
        Ok(value) => value,
        Err(Range) => unreachable!(),
    }
}

/// Adds the values of an instance's iterators.
fn add_values(forms: &[Form], point: &[i128], values: &mut Items<i64>) -> Result<(), AllocError>
    requires { All (HasNearValue point.now) forms.now }
    ensures { OnOk result (values.new ≡ values.old ++ values_of forms.now point.now) }
{
    match forms {
        [] => Ok(()),
        [form, rest @ ..] => {
            let value = value_at(form, point);
            values.push(value as i64)?;
            add_values(rest, point, values)
        }
    }
}

/// The instance of the leaf to which a point leads; the quotients on its way come behind the point.
fn leaf_at(
    tree: &Quast,
    alloc: Global,
    point: &mut Vec<i128>,
) -> Result<Option<Instance>, AllocError>
    requires { LeadsNear (seen tree.now) point.old.items }
    ensures { IfOk result (λ o. o ≡ named_at (seen tree.now) point.old.items) }
{
    match tree {
        Quast::Test { form, yes, no } => {
            if value_at(form, point.as_slice()) >= 0 {
                leaf_at(yes, alloc, point)
            } else {
                leaf_at(no, alloc, point)
            }
        }
        Quast::Div { form, by, rest } => {
            let quotient = value_at(form, point.as_slice()).div_euclid(i128::from(*by));
            point.push(quotient)?;
            leaf_at(rest, alloc, point)
        }
        Quast::Source { part, forms } => {
            let mut iterators = Items::new(alloc);
            add_values(forms.as_slice(), point.as_slice(), &mut iterators)?;
            Ok(Some(Instance {
                statement: *part,
                iterators,
            }))
        }
        Quast::Input => Ok(None),
    }
}

/// Adds these numbers, wider.
fn add_wide(point: &[i64], wide: &mut Vec<i128>) -> Result<(), AllocError>
    ensures { OnOk result (wide.new.items ≡ wide.old.items ++ point.now) }
{
    match point {
        [] => Ok(()),
        [x, rest @ ..] => {
            wide.push(i128::from(*x))?;
            add_wide(rest, wide)
        }
    }
}

impl Quast {
    /// The instance that the tree names where the parameters and iterators have these values.
    pub fn source_at(&self, alloc: Global, point: &[i64]) -> Result<Option<Instance>, AllocError>
        requires shaped { Shaped (length point.now) (seen self.now) }
        requires limits { FitsTree widest (seen self.now) }
        requires short { depth_of (seen self.now) ≤ 400 }
        requires few { length point.now ≤ 128 }
        requires near { All IsNear point.now }
        requires quotients { All IsNear (quotients_at (seen self.now) point.now) }
        requires iterators { IfSome (named_at (seen self.now) point.now) (λ b. All IsNear b.iterators) }
        ensures { IfOk result (λ o. o ≡ named_at (seen self.now) point.now) }
    {
        let mut wide = Vec::new(alloc);
        add_wide(point, &mut wide)?;
        leaf_at(self, alloc, &mut wide)
    }
}
