//! Folds of temporaries as text.
ghost use Rattle.std.specs.Prelude.{◌≡◌, ◌++◌, ◌+◌, ◌<◌, ◌^◌, length, IfOk, OnOk, MatchOption, Some, None, string_bytes};
ghost use Rattle.std.specs.Fmt.{signed_decimal};
ghost use Rattle.affc_basis.specs.Folds.{fold_of};
ghost use Rattle.affc_weigh.specs.Choices.{choice_of};
ghost use Rattle.affc_report.specs.Forms.{row_text};
ghost use Rattle.affc_report.specs.Folds as specs;

use crate::forms::{add_named, add_row};
use crate::lists::{WriteItem, add_list};
use crate::loose::add_loose;
use affc_ast::Items;
use affc_ast::text::Text;
use affc_ast::tree::ArrayId;
use affc_basis::{Fold, Mark, Modulus};
use affc_loopends::scanned::Loose;
use affc_rows::Form;
use affc_schedtext::outline::{ArrayOutline, Outline};
use affc_weigh::{Choice, Price};
use std::alloc::{AllocError, Global};

// The rows of a basis.
struct Rows;

impl WriteItem<Form> for Rows {
    ghost item_text = { λ rows form. row_text form };

    fn add_item(&self, out: &mut String, item: &Form) -> Result<(), AllocError> {
        add_row(out, item)
    }
}

// The subscripts of an element.
struct Subscripts;

impl WriteItem<i64> for Subscripts {
    ghost item_text = { λ subscripts n. signed_decimal n };

    fn add_item(&self, out: &mut String, item: &i64) -> Result<(), AllocError> {
        write!(out, "{item}")
    }
}

// ---- What is known of a modulus

// Adds the parameters with their values.
fn add_values(out: &mut String, parameters: &[Text], values: &[i64]) -> Result<(), AllocError>
    ensures { OnOk result (string_bytes out.new ≡ string_bytes out.old ++ specs.values_text parameters.now values.now) }
{
    let [name, parameters @ ..] = parameters else {
        return Ok(());
    };
    let [value, values @ ..] = values else {
        return Ok(());
    };
    let name = name.as_str();
    write!(out, " {name}={value}")?;
    add_values(out, parameters, values)
}

// Adds at which values of the parameters it is.
fn add_at(out: &mut String, parameters: &[Text], values: &[i64]) -> Result<(), AllocError>
    ensures { OnOk result (string_bytes out.new ≡ string_bytes out.old ++ specs.at_text parameters.now values.now) }
{
    match parameters {
        [] => Ok(()),
        [_, ..] => {
            out.push_str(" at")?;
            add_values(out, parameters, values)
        }
    }
}

// Adds an element's subscripts.
fn add_element(out: &mut String, element: &[i64]) -> Result<(), AllocError>
    ensures { OnOk result (string_bytes out.new ≡ string_bytes out.old ++ specs.element_text element.now) }
{
    out.push_str("(")?;
    add_list(out, &Subscripts, element)?;
    out.push_str(")")
}

// Adds the two elements of a mark.
fn add_pair(out: &mut String, pair: &Option<(Items<i64>, Items<i64>)>) -> Result<(), AllocError>
    ensures { OnOk result (string_bytes out.new ≡ string_bytes out.old ++ specs.pair_text pair.now) }
{
    match pair {
        None => out.push_str(" no pair"),
        Some((first, second)) => {
            out.push_str(" pair ")?;
            add_element(out, first.as_slice())?;
            out.push_str(" ")?;
            add_element(out, second.as_slice())
        }
    }
}

// Adds what is known of a modulus.
fn add_mark(out: &mut String, parameters: &[Text], mark: &Mark) -> Result<(), AllocError>
    ensures { OnOk result (string_bytes out.new ≡ string_bytes out.old ++ specs.mark_text parameters.now mark.now) }
{
    match mark {
        Mark::Least { p, pair } => {
            out.push_str(" least")?;
            add_at(out, parameters, p.as_slice())?;
            add_pair(out, pair)
        }
        Mark::Bound => out.push_str(" bound"),
    }
}

// ---- Folds

// Adds the line of a modulus.
fn add_modulus(
    out: &mut String,
    parameters: &[Text],
    number: usize,
    modulus: &Modulus,
) -> Result<(), AllocError>
    ensures { OnOk result (string_bytes out.new ≡ string_bytes out.old ++ specs.modulus_text parameters.now number modulus.now) }
{
    write!(out, "  modulus {number}: ")?;
    add_named(out, parameters, &modulus.form)?;
    add_mark(out, parameters, &modulus.mark)?;
    out.push_str("\n")
}

// Adds the lines of moduli with the numbers from this one on.
fn add_moduli(
    out: &mut String,
    parameters: &[Text],
    number: usize,
    moduli: &[Modulus],
) -> Result<(), AllocError>
    requires { number + length moduli.now < 2 ^ 64 }
    ensures { OnOk result (string_bytes out.new ≡ string_bytes out.old ++ specs.moduli_text parameters.now number moduli.now) }
{
    match moduli {
        [] => Ok(()),
        [modulus, moduli @ ..] => {
            add_modulus(out, parameters, number, modulus)?;
            add_moduli(out, parameters, number + 1, moduli)
        }
    }
}

// Adds the line of a basis.
fn add_basis(out: &mut String, rows: &[Form]) -> Result<(), AllocError>
    ensures { OnOk result (string_bytes out.new ≡ string_bytes out.old ++ specs.basis_text rows.now) }
{
    out.push_str("  basis (")?;
    add_list(out, &Rows, rows)?;
    out.push_str(")\n")
}

// The fold of the array with this number, if it has one.
fn fold_of(folds: &[(ArrayId, Fold)], array: usize) -> Option<&Fold>
    ensures { MatchOption result (fold_of folds.now array ≡ None) (λ fold. fold_of folds.now array ≡ Some fold.now) }
{
    match folds {
        [] => None,
        [(folded, fold), folds @ ..] => {
            if folded.0 as usize == array {
                Some(fold)
            } else {
                fold_of(folds, array)
            }
        }
    }
}

// ---- Costs

// Adds numbers, each behind a space.
fn add_numbers(out: &mut String, numbers: &[u64]) -> Result<(), AllocError>
    ensures { OnOk result (string_bytes out.new ≡ string_bytes out.old ++ specs.numbers_text numbers.now) }
{
    match numbers {
        [] => Ok(()),
        [n, numbers @ ..] => {
            write!(out, " {n}")?;
            add_numbers(out, numbers)
        }
    }
}

// Adds what a basis comes to.
fn add_price(out: &mut String, price: &Option<Price>) -> Result<(), AllocError>
    ensures { OnOk result (string_bytes out.new ≡ string_bytes out.old ++ specs.price_text price.now) }
{
    match price {
        None => out.push_str(" budget"),
        Some(price) => {
            add_numbers(out, price.values.as_slice())?;
            let cost = price.cost;
            write!(out, " cost {cost}")
        }
    }
}

// Adds the line of a basis that wasn't chosen.
fn add_rival(out: &mut String, number: usize, price: &Option<Price>) -> Result<(), AllocError>
    ensures { OnOk result (string_bytes out.new ≡ string_bytes out.old ++ specs.rival_text number price.now) }
{
    write!(out, "  rival {number}:")?;
    add_price(out, price)?;
    out.push_str("\n")
}

// Adds the lines of the bases that weren't chosen, with numbers from this one on.
fn add_rivals(
    out: &mut String,
    chosen: usize,
    number: usize,
    prices: &[Option<Price>],
) -> Result<(), AllocError>
    requires { number + length prices.now < 2 ^ 64 }
    ensures { OnOk result (string_bytes out.new ≡ string_bytes out.old ++ specs.rivals_text chosen number prices.now) }
{
    match prices {
        [] => Ok(()),
        [price, prices @ ..] => {
            if number != chosen {
                add_rival(out, number, price)?;
            }
            add_rivals(out, chosen, number + 1, prices)
        }
    }
}

// Adds what a fold costs, and the lines of the bases that weren't chosen.
fn add_choice(out: &mut String, choice: &Choice) -> Result<(), AllocError>
    ensures { OnOk result (string_bytes out.new ≡ string_bytes out.old ++ specs.choice_text (Some choice.now)) }
{
    let cost = choice.cost;
    write!(out, "  cost {cost}\n")?;
    let prices = choice.prices.as_slice();
    add_rivals(out, choice.number as usize, 0, prices)
}

// The choice of the array with this number, if there is one.
fn choice_of(choices: &[(ArrayId, Choice)], array: usize) -> Option<&Choice>
    ensures { MatchOption result (choice_of choices.now array ≡ None) (λ choice. choice_of choices.now array ≡ Some choice.now) }
{
    match choices {
        [] => None,
        [(of, choice), choices @ ..] => {
            if of.0 as usize == array {
                Some(choice)
            } else {
                choice_of(choices, array)
            }
        }
    }
}

// ---- Temporaries

// Adds the line of a temporary that is left whole.
fn add_whole(out: &mut String) -> Result<(), AllocError>
    ensures { OnOk result (string_bytes out.new ≡ string_bytes out.old ++ specs.whole_text) }
{
    out.push_str("  whole budget\n")
}

// Adds the lines of a fold.
fn add_fold(
    out: &mut String,
    parameters: &[Text],
    fold: &Fold,
    choices: &[(ArrayId, Choice)],
    number: usize,
) -> Result<(), AllocError>
    ensures { OnOk result (string_bytes out.new ≡ string_bytes out.old ++ specs.fold_text parameters.now (Some fold.now) (choice_of choices.now number)) }
{
    add_basis(out, fold.basis.rows.as_slice())?;
    add_moduli(out, parameters, 0, fold.moduli.as_slice())?;
    match choice_of(choices, number) {
        Some(choice) => add_choice(out, choice),
        None => Ok(()),
    }
}

// Adds a temporary's name and its lines.
fn add_temporary(
    out: &mut String,
    parameters: &[Text],
    folds: &[(ArrayId, Fold)],
    choices: &[(ArrayId, Choice)],
    number: usize,
    array: &ArrayOutline,
) -> Result<(), AllocError>
    ensures { OnOk result (string_bytes out.new ≡ string_bytes out.old ++ specs.temporary_text parameters.now array.now.name (fold_of folds.now number) (choice_of choices.now number)) }
{
    let name = array.name.as_str();
    write!(out, "array {name}\n")?;
    match fold_of(folds, number) {
        Some(fold) => add_fold(out, parameters, fold, choices, number),
        None => add_whole(out),
    }
}

// Adds the temporaries among arrays with the numbers from this one on.
fn add_temporaries(
    out: &mut String,
    parameters: &[Text],
    folds: &[(ArrayId, Fold)],
    choices: &[(ArrayId, Choice)],
    number: usize,
    arrays: &[ArrayOutline],
) -> Result<(), AllocError>
    requires { number + length arrays.now < 2 ^ 64 }
    ensures { OnOk result (string_bytes out.new ≡ string_bytes out.old ++ specs.temporaries_text parameters.now folds.now choices.now number arrays.now) }
{
    match arrays {
        [] => Ok(()),
        [array, arrays @ ..] => {
            if array.is_temporary {
                add_temporary(out, parameters, folds, choices, number, array)?;
            }
            add_temporaries(out, parameters, folds, choices, number + 1, arrays)
        }
    }
}

/// What became of each temporary, as text: the rows of its basis, its moduli, and what this and other bases cost; or that it is
/// left whole. Of an array that has no choice no cost is told. Then which components of times have no ends, and why.
pub fn fold_report(
    alloc: Global,
    outline: &Outline,
    folds: &[(ArrayId, Fold)],
    choices: &[(ArrayId, Choice)],
    loose: &[Loose],
) -> Result<Vec<u8>, AllocError>
    ensures { IfOk result (λ text. text.items ≡ specs.fold_report outline.now folds.now choices.now loose.now) }
{
    let mut out = String::new(alloc);
    add_temporaries(
        &mut out,
        outline.parameters.as_slice(),
        folds,
        choices,
        0,
        outline.arrays.as_slice(),
    )?;
    add_loose(&mut out, loose)?;
    Ok(out.into_bytes())
}
