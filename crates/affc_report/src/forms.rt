//! Affine forms as text.
ghost use Rattle.std.specs.Prelude.{◌≡◌, ◌++◌, ◌+◌, ◌<◌, ◌^◌, length, take, drop, IfOk, OnOk, string_bytes};
ghost use Rattle.affc_report.specs.Forms.{terms_of, named_form, row_text, times_text, negated_text, leading, following, sign_behind};
ghost use Rattle.affc_report.specs.Sums.{begun_by, begun_by_all, term_text, terms_text, end_text, name_text, numbered_terms};
ghost use Rattle.affc_report.specs.Trees.{tree_form};

use affc_ast::text::Text;
use affc_rows::Form;
use std::alloc::AllocError;

/// What stands for a column.
#[derive(Clone, Copy)]
pub enum Name<'a> {
    Word(&'a str),
    /// A letter with a number.
    Numbered(&'a str, u64),
}

/// The names of the first columns of a tree's forms.
#[derive(Clone, Copy)]
pub struct Names<'a> {
    pub parameters: &'a [Text],
    pub iterators: &'a [Text],
}

// Adds a name.
fn add_name(out: &mut String, name: &Name<'_>) -> Result<(), AllocError>
    ensures { OnOk result (string_bytes out.new ≡ string_bytes out.old ++ name_text name.now) }
{
    match name {
        Name::Word(word) => out.push_str(word),
        Name::Numbered(letter, number) => write!(out, "{letter}{number}"),
    }
}

// Adds so many times a name.
fn add_times(out: &mut String, magnitude: u128, name: &Name<'_>) -> Result<(), AllocError>
    ensures { OnOk result (string_bytes out.new ≡ string_bytes out.old ++ times_text magnitude (name_text name.now)) }
{
    if magnitude > 1 {
        write!(out, "{magnitude} * ")?;
    }
    add_name(out, name)
}

// The same with a minus before it.
fn add_negated(out: &mut String, magnitude: u128, name: &Name<'_>) -> Result<(), AllocError>
    ensures { OnOk result (string_bytes out.new ≡ string_bytes out.old ++ negated_text magnitude (name_text name.now)) }
{
    if magnitude > 1 {
        out.push_str("-(")?;
        add_times(out, magnitude, name)?;
        return out.push_str(")");
    }
    out.push_str("-")?;
    add_name(out, name)
}

// Adds a term that leads.
fn add_leading(out: &mut String, coef: i128, name: &Name<'_>) -> Result<(), AllocError>
    ensures { OnOk result (string_bytes out.new ≡ string_bytes out.old ++ leading coef (name_text name.now)) }
{
    if coef < 0 {
        add_negated(out, coef.unsigned_abs(), name)
    } else {
        add_times(out, coef.unsigned_abs(), name)
    }
}

// Adds the sign of a number behind a term.
fn add_sign(out: &mut String, number: i128) -> Result<(), AllocError>
    ensures { OnOk result (string_bytes out.new ≡ string_bytes out.old ++ sign_behind number) }
{
    if number < 0 {
        out.push_str(" - ")
    } else {
        out.push_str(" + ")
    }
}

// Adds a term behind others.
fn add_following(out: &mut String, coef: i128, name: &Name<'_>) -> Result<(), AllocError>
    ensures { OnOk result (string_bytes out.new ≡ string_bytes out.old ++ following coef (name_text name.now)) }
{
    add_sign(out, coef)?;
    add_times(out, coef.unsigned_abs(), name)
}

// Adds a term. Answers whether one is written now.
fn add_term(out: &mut String, begun: bool, coef: i128, name: &Name<'_>) -> Result<bool, AllocError>
    ensures begun { IfOk result (λ b. b ≡ begun_by begun coef) }
    ensures text { OnOk result (string_bytes out.new ≡ string_bytes out.old ++ term_text begun coef (name_text name.now)) }
{
    if coef.unsigned_abs() == 0 {
        return Ok(begun);
    }
    if begun {
        add_following(out, coef, name)?;
    } else {
        add_leading(out, coef, name)?;
    }
    Ok(true)
}

// Adds the terms of columns with words.
fn add_terms(
    out: &mut String,
    begun: bool,
    coefs: &[i128],
    words: &[Text],
) -> Result<bool, AllocError>
    ensures begun { IfOk result (λ b. b ≡ begun_by_all begun (terms_of coefs.now words.now)) }
    ensures text { OnOk result (string_bytes out.new ≡ string_bytes out.old ++ terms_text begun (terms_of coefs.now words.now)) }
{
    let [coef, coefs @ ..] = coefs else {
        return Ok(begun);
    };
    let [word, words @ ..] = words else {
        return Ok(begun);
    };
    let begun = add_term(out, begun, *coef, &Name::Word(word.as_str()))?;
    add_terms(out, begun, coefs, words)
}

// Adds the terms of the columns of a letter, which have the numbers from this one on.
fn add_numbered(
    out: &mut String,
    begun: bool,
    coefs: &[i128],
    letter: &str,
    from: u64,
) -> Result<bool, AllocError>
    requires { from + length coefs.now < 2 ^ 64 }
    ensures begun { IfOk result (λ b. b ≡ begun_by_all begun (numbered_terms letter.now from coefs.now)) }
    ensures text { OnOk result (string_bytes out.new ≡ string_bytes out.old ++ terms_text begun (numbered_terms letter.now from coefs.now)) }
{
    match coefs {
        [] => Ok(begun),
        [coef, coefs @ ..] => {
            let begun = add_term(out, begun, *coef, &Name::Numbered(letter, from))?;
            add_numbered(out, begun, coefs, letter, from + 1)
        }
    }
}

// Adds the constant behind all terms.
fn add_constant(out: &mut String, begun: bool, constant: i128) -> Result<(), AllocError>
    ensures { OnOk result (string_bytes out.new ≡ string_bytes out.old ++ end_text begun constant) }
{
    if !begun {
        return write!(out, "{constant}");
    }
    let magnitude = constant.unsigned_abs();
    if magnitude == 0 {
        return Ok(());
    }
    add_sign(out, constant)?;
    write!(out, "{magnitude}")
}

/// The first so many elements.
fn front(coefs: &[i128], count: usize) -> &[i128]
    ensures { result.now ≡ take count coefs.now }
{
    match coefs.get(..count) {
        Some(front) => front,
        None => coefs,
    }
}

/// The elements behind the first so many.
pub fn behind<T>(elements: &[T], count: usize) -> &[T]
    ensures { result.now ≡ drop count elements.now }
{
    match elements.get(count..) {
        Some(behind) => behind,
        None => &[],
    }
}

/// Adds a form of a tree.
#[tactic(auto, using(crate::proofs::SumLemmas::written))]
pub fn add_form(out: &mut String, names: &Names<'_>, form: &Form) -> Result<(), AllocError>
    ensures { OnOk result (string_bytes out.new ≡ string_bytes out.old ++ tree_form names.now.parameters.now names.now.iterators.now form.now) }
{
    let coefs = form.coefs.as_slice();
    let parameters = front(coefs, names.parameters.len());
    let inner = behind(coefs, names.parameters.len());
    let iterators = front(inner, names.iterators.len());
    let quotients = behind(inner, names.iterators.len());
    let begun = add_terms(out, false, iterators, names.iterators)?;
    let begun = add_terms(out, begun, parameters, names.parameters)?;
    let begun = add_numbered(out, begun, quotients, "q", 0)?;
    add_constant(out, begun, form.constant)
}

/// Adds a form over columns of these names.
#[tactic(auto, using(crate::proofs::SumLemmas::named))]
pub fn add_named(out: &mut String, words: &[Text], form: &Form) -> Result<(), AllocError>
    ensures { OnOk result (string_bytes out.new ≡ string_bytes out.old ++ named_form words.now form.now) }
{
    let begun = add_terms(out, false, form.coefs.as_slice(), words)?;
    add_constant(out, begun, form.constant)
}

/// Adds a form over `x0`, `x1`, ..
#[tactic(auto, using(crate::proofs::SumLemmas::subscripted))]
pub fn add_row(out: &mut String, form: &Form) -> Result<(), AllocError>
    ensures { OnOk result (string_bytes out.new ≡ string_bytes out.old ++ row_text form.now) }
{
    let begun = add_numbered(out, false, form.coefs.as_slice(), "x", 0)?;
    add_constant(out, begun, form.constant)
}
