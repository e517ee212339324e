//! What is known while a tree grows: candidates and divisions, and where under a path they stand. Nothing is promised of them.
//!
//! A candidate is over the columns of the load and, behind them, the quotients of all divisions that are known. A path has some
//! of these, in an order of its own.

use crate::path::Place;
use affc_drafts::Candidate;
use affc_nest::Division;
use affc_rows::Form;
use smallvec::SmallVec;
use sqlite_items::Items;
use std::alloc::{AllocError, Global};

/// What is known so far, and how much may still be tried.
#[derive(Drop)]
pub(crate) struct Growth {
    pub(crate) candidates: Vec<Candidate>,
    /// Each names only those before it.
    pub(crate) divisions: Vec<Division>,
    /// The candidates of the leaves.
    pub(crate) used: Items<usize>,
    pub(crate) asks: u32,
    pub(crate) samples: u32,
}

/// The rows above a leaf, and the divisions whose quotients are columns there, behind so many of the load.
#[derive(Drop)]
pub(crate) struct Site<'a> {
    pub(crate) place: &'a Place<'a>,
    pub(crate) first: usize,
    pub(crate) present: &'a [usize],
}

/// The first division that a form names and a path doesn't have.
pub(crate) fn missing(form: &Form, site: &Site<'_>) -> Option<usize> {
    for (i, c) in form.coefs.as_slice().iter().enumerate() {
        let division = i.checked_sub(site.first);
        if let Some(at) = division {
            if *c != 0 && !site.present.iter().any(|p| *p == at) {
                return Some(at);
            }
        }
    }
    None
}

/// A form over the columns of a path.
pub(crate) fn fitted(alloc: Global, form: &Form, site: &Site<'_>) -> Result<Form, AllocError> {
    let mut coefs = SmallVec::new(alloc);
    for i in 0..site.first {
        coefs.push(form.coefficient(i))?;
    }
    for p in site.present {
        coefs.push(form.coefficient(site.first.saturating_add(*p)))?;
    }
    let constant = form.constant;
    Ok(Form { coefs, constant })
}

/// The first division that some of these forms names and a path doesn't have.
fn missing_of(forms: &[Form], site: &Site<'_>) -> Option<usize> {
    for form in forms {
        let found = missing(form, site);
        if found.is_some() {
            return found;
        }
    }
    None
}

/// Forms over the columns of a path.
fn fitted_forms(alloc: Global, forms: &[Form], site: &Site<'_>) -> Result<Items<Form>, AllocError> {
    let mut out = Items::new(alloc);
    for form in forms {
        let made = fitted(alloc, form, site)?;
        out.push(made)?;
    }
    Ok(out)
}

/// The first division that a candidate names and a path doesn't have.
pub(crate) fn missing_division(candidate: &Candidate, site: &Site<'_>) -> Option<usize> {
    match missing_of(candidate.forms.as_slice(), site) {
        Some(at) => Some(at),
        None => missing_of(candidate.conditions.as_slice(), site),
    }
}

/// A candidate over the columns of a path.
pub(crate) fn fitted_candidate(
    alloc: Global,
    candidate: &Candidate,
    site: &Site<'_>,
) -> Result<Candidate, AllocError> {
    let forms = fitted_forms(alloc, candidate.forms.as_slice(), site)?;
    let conditions = fitted_forms(alloc, candidate.conditions.as_slice(), site)?;
    Ok(Candidate {
        part: candidate.part,
        forms,
        conditions,
    })
}

// ---- Lists of candidates, by their numbers.

/// So many numbers from 0 on.
pub(crate) fn first_numbers(alloc: Global, n: usize) -> Result<Items<usize>, AllocError> {
    let mut out = Items::new(alloc);
    for i in 0..n {
        out.push(i)?;
    }
    Ok(out)
}

/// The numbers of two lists, each once.
pub(crate) fn both(
    alloc: Global,
    first: &[usize],
    second: &[usize],
) -> Result<Items<usize>, AllocError> {
    let mut out = Items::from_slice(alloc, first)?;
    for i in second {
        if !first.iter().any(|j| *j == *i) {
            out.push(*i)?;
        }
    }
    Ok(out)
}

/// A candidate, and how many leaves it has.
#[derive(Drop)]
struct Use {
    candidate: usize,
    leaves: usize,
}

/// The candidates of leaves, each once.
fn uses_of(alloc: Global, used: &[usize]) -> Result<Vec<Use>, AllocError> {
    let mut uses: Vec<Use> = Vec::new(alloc);
    for i in used {
        if !uses.iter().any(|u| u.candidate == *i) {
            let leaves = used.iter().filter(|j| **j == *i).count();
            let Ok(()) = uses.push(Use {
                candidate: *i,
                leaves,
            }) else {
                return Err(AllocError);
            };
        }
    }
    Ok(uses)
}

/// The candidates of leaves, those with the most leaves first.
fn by_use(alloc: Global, used: &[usize]) -> Result<Items<usize>, AllocError> {
    let uses = uses_of(alloc, used)?;
    let mut out = Items::new(alloc);
    for fewer in 0..used.len() {
        for each in uses.iter() {
            if each.leaves.saturating_add(fewer) == used.len() {
                out.push(each.candidate)?;
            }
        }
    }
    Ok(out)
}

/// The candidates of leaves with which a smaller tree is tried: those with the most leaves first, where one has several, and the last one
/// first, where two leaves name instances of one statement. `None` where neither is so.
pub(crate) fn candidates_again(
    alloc: Global,
    growth: &Growth,
) -> Result<Option<Items<usize>>, AllocError> {
    let used = growth.used.as_slice();
    let list = by_use(alloc, used)?;
    if list.len() != used.len() {
        return Ok(Some(list));
    }
    let [first, second] = used else {
        return Ok(None);
    };
    match (
        growth.candidates.get(*first),
        growth.candidates.get(*second),
    ) {
        (Some(one), Some(other)) if one.part == other.part => {
            let mut turned = Items::new(alloc);
            turned.push(*second)?;
            turned.push(*first)?;
            Ok(Some(turned))
        }
        _ => Ok(None),
    }
}
