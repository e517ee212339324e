//! One source, compiled.
ghost use Rattle.std.specs.Prelude.{◌≡◌, ℕ, List, Option, IfOk, IfErr, option_map};
ghost use Rattle.affc_grammar.specs.Reads.{Reads};
ghost use Rattle.affc_weigh.specs.Costs.{NeverFalls, TakesModuli};
ghost use Rattle.affc_cli.specs.Budgets.{FoldsWithin, FoldMakes, MadeWithin, answers_of, wanted_for};
ghost use Rattle.affc_driver.specs.Accounts.{FoldsMade, IsShort};
ghost use Rattle.affc_driver.specs.Certificates.{certificate_text};
ghost use Rattle.affc_driver.specs.Programs.{IsOfText, OfEachText};
ghost use Rattle.affc_driver.specs.Refusals.{RefusalSays};
ghost use Rattle.affc_driver.specs.declared.refusal.Refusal.TheVariants.{Budget as Spent};
ghost use Rattle.affc_cli.specs.Refusal.{TextCause};

use crate::pieces::Pieces;
use affc_ast::tree::Program;
use affc_driver::{Made, Refusal as FoldRefusal, Wanted, fold_program, read};
use affc_lines::meaning::{meaning, unwritten};
use affc_lines::refusal::Refusal;
use affc_lines::schedule::{illegal, unplanned};
use affc_split::Budget;
use affc_weigh::{Cost, Weigher, powers, sum, words};
use affc_words::words::{CostName, Settings};
use std::alloc::Global;

// The refusal of a program that isn't compiled, as it is told of a source that reads as it.
fn told(alloc: Global, program: &Program, settings: Settings, refusal: FoldRefusal) -> Refusal
    ensures { (source : List ℕ) (schedule : Option (List ℕ)) → Reads source program.now → RefusalSays source schedule refusal → (refusal ≡ Spent → IsShort source schedule settings.budget) → TextCause source schedule settings result }
{
    match refusal {
        FoldRefusal::Source(fault) => Refusal::Source(fault),
        FoldRefusal::Printed(place) => Refusal::Printed(place),
        FoldRefusal::Schedule(fault) => unplanned(alloc, program, &fault),
        FoldRefusal::Meaning(fault) => meaning(alloc, program, &fault),
        FoldRefusal::Unwritten {
            array: _,
            access,
            p,
            instance,
        } => unwritten(alloc, program, access, p.as_slice(), &instance),
        FoldRefusal::Illegal { p, a, b } => illegal(alloc, program, p.as_slice(), &a, &b),
        FoldRefusal::Budget => Refusal::Budget,
        FoldRefusal::Memory => Refusal::Memory,
    }
}

// What is made of a program by this cost.
fn fold_by<F: Cost>(
    alloc: Global,
    program: &Program,
    schedule: Option<&[u8]>,
    cost: F,
    wanted: Wanted,
    units: &mut Budget,
) -> Result<Made, FoldRefusal>
    requires of_text { IsOfText program.now }
    requires takes { TakesModuli (F.takes cost) }
    requires never_falls { NeverFalls (F.answers cost) }
    ensures ok { IfOk result (λ made. OfEachText program.now (λ text. FoldsMade (F.answers cost) text (option_map (λ s. s.now) schedule.entry) units.new wanted made)) }
    ensures err { IfErr result (λ refusal. OfEachText program.now (λ text. RefusalSays text (option_map (λ s. s.now) schedule.entry) refusal)) }
    ensures limit { units.new.limit ≡ units.old.limit }
    ensures short { IfErr result (λ refusal. refusal ≡ Spent → OfEachText program.now (λ text. IsShort text (option_map (λ s. s.now) schedule.entry) units.new.limit)) }
{
    let weigher = Weigher::new(cost);
    fold_program(alloc, program, schedule, &weigher, wanted, units)
}

// What is made of it by the cost of this name.
fn fold_named(
    alloc: Global,
    program: &Program,
    schedule: Option<&[u8]>,
    cost: CostName,
    wanted: Wanted,
    units: &mut Budget,
) -> Result<Made, FoldRefusal>
    requires { IsOfText program.now }
    ensures ok { IfOk result (λ made. OfEachText program.now (λ text. FoldsMade (answers_of cost) text (option_map (λ s. s.now) schedule.entry) units.new wanted made)) }
    ensures err { IfErr result (λ refusal. OfEachText program.now (λ text. RefusalSays text (option_map (λ s. s.now) schedule.entry) refusal)) }
    ensures limit { units.new.limit ≡ units.old.limit }
    ensures short { IfErr result (λ refusal. refusal ≡ Spent → OfEachText program.now (λ text. IsShort text (option_map (λ s. s.now) schedule.entry) units.new.limit)) }
{
    match cost {
        CostName::Words => fold_by(alloc, program, schedule, words, wanted, units),
        CostName::Sum => fold_by(alloc, program, schedule, sum, wanted, units),
        CostName::Powers => fold_by(alloc, program, schedule, powers, wanted, units),
    }
}

/// The text that does what the source does, in the order of the schedule and on temporaries that are folded at the least cost, with a
/// certificate where one is wanted, or why there is none. With a budget below the threshold no more boxes of questions are opened than it
/// has units.
pub fn folded(
    alloc: Global,
    source: &[u8],
    schedule: Option<&[u8]>,
    settings: Settings,
    wanted: Wanted,
) -> Result<Made, Refusal>
    ensures ok { IfOk result (MadeWithin source.now (option_map (λ s. s.now) schedule.entry) settings wanted) }
    ensures within { IfOk result (λ made. FoldsWithin source.now (option_map (λ s. s.now) schedule.entry) settings made.done.text.items made.done.report.items made.done.cost) }
    ensures err { IfErr result (TextCause source.now (option_map (λ s. s.now) schedule.entry) settings) }
{
    let program = read(alloc, source)?;
    let mut units = Budget::new(settings.budget);
    match fold_named(alloc, &program, schedule, settings.cost, wanted, &mut units) {
        Ok(made) => Ok(made),
        Err(refusal) => Err(told(alloc, &program, settings, refusal)),
    }
}

// A certificate is wanted where a file is named for it.
fn wanted_for(file: Option<&str>) -> Wanted
    ensures { result ≡ wanted_for (option_map (λ s. s.now) file.entry) }
{
    match file {
        None => Wanted::Text,
        Some(_) => Wanted::Certificate,
    }
}

// The text of a certificate, if there is one.
fn certificate_text(alloc: Global, certificate: Option<Vec<u8>>) -> Vec<u8>
    ensures { result.items ≡ certificate_text (option_map (λ t. t.items) certificate) }
{
    match certificate {
        None => Vec::new(alloc),
        Some(text) => text,
    }
}

/// What is made of a source, with a certificate where a file is named for it, or why there is nothing.
pub fn fold(
    alloc: Global,
    source: &[u8],
    schedule: Option<&[u8]>,
    settings: Settings,
    file: Option<&str>,
) -> Result<Pieces, Refusal>
    ensures ok { IfOk result (λ made. FoldMakes (option_map (λ s. s.now) file.entry) source.now (option_map (λ s. s.now) schedule.entry) settings made.certificate.items made.text.items made.report.items) }
    ensures err { IfErr result (TextCause source.now (option_map (λ s. s.now) schedule.entry) settings) }
{
    match folded(alloc, source, schedule, settings, wanted_for(file)) {
        Ok(Made { done, certificate }) => Ok(Pieces {
            certificate: certificate_text(alloc, certificate),
            text: done.text,
            report: done.report,
        }),
        Err(refusal) => Err(refusal),
    }
}
