//! Times of instances, compared component by component.
ghost use Rattle.std.specs.Prelude.{◌≡◌, ◌+◌, ◌*◌, ◌*ℤ◌, ◌^◌, ◌≤◌, ◌++◌, length, unsigned_abs, nat_abs, IsTrue};
ghost use Rattle.std.specs.Ordering.{int_cmp};
ghost use Rattle.std.specs.Cmp.Lexicographic.{slice_cmp};
ghost use Rattle.affc_rows.specs.Forms.{dot, value, values_of, HaveColumns};
ghost use Rattle.affc_trace.specs.Target.{are_slight, all_slight, time_cmp};
ghost use Rattle.affc_compare.specs.Timed.{AreBothTimed};

use affc_ast::tree::Instance;
use affc_rows::Form;
use affc_trace::schedule::TimeMap;
use std::cmp::Ordering;

fn product(c: i128, x: i64) -> i128
    requires { unsigned_abs c ≤ 256 }
    ensures value { result ≡ c *ℤ x }
    ensures size { unsigned_abs result ≤ 2 ^ 71 }
{
    c * i128::from(x)
}

/// Slight coefficients times a point.
fn products(coefs: &[i128], point: &[i64]) -> i128
    requires one_each { length point.now ≡ length coefs.now }
    requires few { length coefs.now ≤ 16 }
    requires slight { IsTrue (are_slight coefs.now) }
    ensures value { result ≡ dot coefs.now point.now }
    ensures size { unsigned_abs result ≤ 16 * 2 ^ 71 }
{
    let mut sum: i128 = 0;
    for (i, c) in coefs.iter().enumerate() {
        sum += product(*c, point[i]);
    }
    sum
}

/// The value of a slight form at the parameters and the iterators.
fn component(form: &Form, p: &[i64], iterators: &[i64]) -> i128
    requires columns { length form.now.coefs ≡ length p.now + length iterators.now }
    requires few { length p.now + length iterators.now ≤ 16 }
    requires slight { IsTrue (are_slight form.now.coefs) }
    requires constant { nat_abs form.now.constant ≤ 2 ^ 30 }
    ensures { result ≡ value form.now (p.now ++ iterators.now) }
{
    let (outer, inner) = form.coefs.as_slice().split_at(p.len());
    products(outer, p) + products(inner, iterators) + form.constant
}

/// The values of two lists of slight forms, compared in turn.
fn compare(
    first: &[Form],
    second: &[Form],
    p: &[i64],
    iterators: &[i64],
    others: &[i64],
) -> Ordering
    requires one_each { length first.now ≡ length second.now }
    requires first_columns { HaveColumns (length p.now + length iterators.now) first.now }
    requires second_columns { HaveColumns (length p.now + length others.now) second.now }
    requires few_first { length p.now + length iterators.now ≤ 16 }
    requires few_second { length p.now + length others.now ≤ 16 }
    requires first_slight { IsTrue (all_slight first.now) }
    requires second_slight { IsTrue (all_slight second.now) }
    ensures { result ≡ slice_cmp int_cmp (values_of first.now (p.now ++ iterators.now)) (values_of second.now (p.now ++ others.now)) }
{
    for (i, form) in first.iter().enumerate() {
        let other = &second[i];
        let order = component(form, p, iterators).cmp(&component(other, p, others));
        if order != Ordering::Equal {
            return order;
        }
    }
    Ordering::Equal
}

/// By time, and then by the statement's number.
pub(crate) fn by_time(maps: &[TimeMap], p: &[i64], a: &Instance, b: &Instance) -> Ordering
    requires { AreBothTimed maps.now p.now a.now b.now }
    ensures { result ≡ time_cmp maps.now p.now a.now b.now }
{
    let first = &maps[a.statement as usize];
    let second = &maps[b.statement as usize];
    let times = compare(
        first.forms.as_slice(),
        second.forms.as_slice(),
        p,
        a.iterators.as_slice(),
        b.iterators.as_slice(),
    );
    times.then(a.statement.cmp(&b.statement))
}
