//! A source with its schedule, compiled by a certificate.
ghost use Rattle.std.specs.Prelude.{◌≡◌, ℕ, List, Some, None, IsTrue, IfOk, OnOk, IfErr};
ghost use Rattle.affc_ast.specs.Counted.{IsCounted};
ghost use Rattle.affc_trace.specs.Target.{IsScheduleOf, within_limits};
ghost use Rattle.affc_domain.specs.Plain.{IsPlain};
ghost use Rattle.affc_domain.specs.Ranges.{first_wide};
ghost use Rattle.affc_nest.specs.Laws.{NamesArrays};
ghost use Rattle.affc_nest.specs.Nests.{nest_of};
ghost use Rattle.affc_check.specs.list.Certs.{IsCertWithin};
ghost use Rattle.affc_accept.specs.Accepted.{IsRead, IsAccepted};
ghost use Rattle.affc_accept.specs.Bases.{KeepBases};
ghost use Rattle.affc_driver.specs.Plans.{HasPlan};
ghost use Rattle.affc_driver.specs.Programs.{IsOfText, OfEachText};
ghost use Rattle.affc_replay.specs.Made.{HasOwnTemporaries, IsDecided, IsReplayed, IsReplaying};
ghost use Rattle.affc_replay.specs.Refusals.{ReplayRefuses, accept_refusal};
ghost use Rattle.affc_replay.specs.Replays.{ReplaysTo};

use crate::refusal::Refusal;
use crate::scalars::add_scalars;
use affc_accept::{AcceptFault, accept_items, accept_text};
use affc_ast::tree::{ArrayId, Program};
use affc_basis::Fold;
use affc_cert::Cert;
use affc_check::Checked;
use affc_driver::folding::finish;
use affc_driver::read;
use affc_foldprint::laws::{folds_compile, folds_well_named};
use affc_grammar::laws::reads_counted;
use affc_nest::{Extracted, Nest, extract_any};
use affc_plan::read as plan_read;
use affc_schedtext::{Plan, SchedFault};
use std::alloc::Global;

/// What is replayed: a plain program, its nest, a plan of it, and the text of a certificate.
#[derive(Clone, Copy, Drop)]
struct Replaying<'a> {
    program: &'a Program,
    nest: &'a Nest,
    plan: &'a Plan,
    certificate: &'a [u8],
}

/// What is made of a source by a certificate.
#[derive(Drop)]
pub struct Replayed {
    /// The compiled program, as C.
    pub text: Vec<u8>,
    /// What became of each temporary: its fold, and what is known of it.
    pub report: Vec<u8>,
}

// The plan that a schedule's text reads as.
fn plan_of(alloc: Global, program: &Program, schedule: &[u8]) -> Result<Plan, Refusal>
    requires plain { IsPlain program.now }
    requires counted { IsCounted program.now }
    ensures planned { IfOk result (HasPlan program.now (Some schedule.now)) }
    ensures err { IfErr result (λ refusal. (certificate : List ℕ) → OfEachText program.now (λ text. ReplayRefuses text schedule.now certificate refusal)) }
{
    match plan_read(alloc, program, schedule) {
        Ok(plan) => Ok(plan),
        Err(SchedFault::Memory) => Err(Refusal::Memory),
        Err(fault) => Err(Refusal::Schedule(fault)),
    }
}

// What is said of a certificate.
fn refused(fault: AcceptFault) -> Refusal
    ensures { result ≡ accept_refusal fault }
{
    match fault {
        AcceptFault::Certificate(fault) => Refusal::Certificate(fault),
        AcceptFault::Check(fault) => Refusal::Check(fault),
        AcceptFault::Memory => Refusal::Memory,
    }
}

// The certificate that a text is, of which the items aren't looked at.
fn text_of(alloc: Global, replaying: &Replaying<'_>) -> Result<Cert, Refusal>
    requires nest { replaying.now.nest.now ≡ nest_of replaying.now.program.now }
    ensures read { IfOk result (IsRead replaying.now.nest.now replaying.now.certificate.now) }
    ensures within { IfOk result (IsCertWithin replaying.now.nest.now) }
    ensures bases { IfOk result (λ cert. KeepBases replaying.now.nest.now replaying.now.plan.now.folds cert.folds) }
    ensures err { IfErr result (λ refusal. (schedule : List ℕ) → HasPlan replaying.now.program.now (Some schedule) replaying.now.plan.now → OfEachText replaying.now.program.now (λ text. ReplayRefuses text schedule replaying.now.certificate.now refusal)) }
{
    match accept_text(alloc, replaying.nest, replaying.plan, replaying.certificate) {
        Ok(cert) => Ok(cert),
        Err(fault) => Err(refused(fault)),
    }
}

// Whether all iterators keep their ranges, where this is the first loop that doesn't, and the certificate's text is right.
fn in_range(replaying: &Replaying<'_>, cert: &Cert, wide: Option<(u32, u32)>) -> Result<(), Refusal>
    requires nest { replaying.now.nest.now ≡ nest_of replaying.now.program.now }
    requires wide { wide ≡ first_wide replaying.now.program.now }
    requires read { IsRead replaying.now.nest.now replaying.now.certificate.now cert.now }
    requires bases { KeepBases replaying.now.nest.now replaying.now.plan.now.folds cert.now.folds }
    ensures near { OnOk result (first_wide replaying.now.program.now ≡ None) }
    ensures err { IfErr result (λ refusal. (schedule : List ℕ) → HasPlan replaying.now.program.now (Some schedule) replaying.now.plan.now → OfEachText replaying.now.program.now (λ text. ReplayRefuses text schedule replaying.now.certificate.now refusal)) }
{
    match wide {
        None => Ok(()),
        Some((statement, loop_number)) => Err(Refusal::IteratorRange {
            statement,
            loop_number,
        }),
    }
}

// What a certificate shows.
fn accepted(alloc: Global, replaying: &Replaying<'_>, cert: &Cert) -> Result<Checked, Refusal>
    requires replaying { IsReplaying replaying.now.program.now replaying.now.nest.now replaying.now.plan.now }
    requires read { IsRead replaying.now.nest.now replaying.now.certificate.now cert.now }
    requires within { IsCertWithin replaying.now.nest.now cert.now }
    requires bases { KeepBases replaying.now.nest.now replaying.now.plan.now.folds cert.now.folds }
    ensures ok { IfOk result (λ checked. IsAccepted replaying.now.nest.now replaying.now.plan.now replaying.now.certificate.now checked.folds.items) }
    ensures err { IfErr result (λ refusal. (schedule : List ℕ) → HasPlan replaying.now.program.now (Some schedule) replaying.now.plan.now → OfEachText replaying.now.program.now (λ text. ReplayRefuses text schedule replaying.now.certificate.now refusal)) }
{
    match accept_items(alloc, replaying.nest, replaying.plan, cert) {
        Ok(checked) => Ok(checked),
        Err(fault) => Err(refused(fault)),
    }
}

// The folds that a certificate shows, with those of temporaries without dimensions.
fn folds_of(
    alloc: Global,
    replaying: &Replaying<'_>,
    cert: &Cert,
) -> Result<Vec<(ArrayId, Fold)>, Refusal>
    requires replaying { IsReplaying replaying.now.program.now replaying.now.nest.now replaying.now.plan.now }
    requires read { IsRead replaying.now.nest.now replaying.now.certificate.now cert.now }
    requires within { IsCertWithin replaying.now.nest.now cert.now }
    requires bases { KeepBases replaying.now.nest.now replaying.now.plan.now.folds cert.now.folds }
    ensures decided { IfOk result (λ folds. IsDecided replaying.now.program.now replaying.now.plan.now replaying.now.certificate.now folds.items) }
    ensures err { IfErr result (λ refusal. (schedule : List ℕ) → HasPlan replaying.now.program.now (Some schedule) replaying.now.plan.now → OfEachText replaying.now.program.now (λ text. ReplayRefuses text schedule replaying.now.certificate.now refusal)) }
{
    let checked = accepted(alloc, replaying, cert)?;
    let Checked {
        folds: shown,
        spare: _,
    } = checked;
    let mut folds = shown;
    add_scalars(alloc, 0, replaying.nest.arrays.as_slice(), &mut folds)?;
    Ok(folds)
}

// What is printed with these folds.
fn written(
    alloc: Global,
    replaying: &Replaying<'_>,
    folds: &[(ArrayId, Fold)],
) -> Result<Replayed, Refusal>
    requires replaying { IsReplaying replaying.now.program.now replaying.now.nest.now replaying.now.plan.now }
    requires decided { IsDecided replaying.now.program.now replaying.now.plan.now replaying.now.certificate.now folds.now }
    ensures ok { IfOk result (λ r. IsReplayed replaying.now.program.now replaying.now.plan.now replaying.now.certificate.now r.text.items r.report.items) }
    ensures err { IfErr result (λ refusal. refusal ≡ Refusal.Memory) }
{
    match finish(
        alloc,
        replaying.program,
        replaying.nest,
        replaying.plan,
        folds,
        &[],
    ) {
        Ok(done) => Ok(Replayed {
            text: done.text,
            report: done.report,
        }),
        Err(_) => Err(Refusal::Memory),
    }
}

// What is made of a plain program by a plan and a certificate.
fn replay_by(
    alloc: Global,
    program: &Program,
    plan: &Plan,
    certificate: &[u8],
) -> Result<Replayed, Refusal>
    requires plain { IsPlain program.now }
    requires arrays { NamesArrays program.now }
    requires temporaries { HasOwnTemporaries program.now }
    requires fits { IsScheduleOf program.now plan.now.schedule }
    requires slight { IsTrue (within_limits plan.now.schedule) }
    ensures ok { IfOk result (λ r. IsReplayed program.now plan.now certificate.now r.text.items r.report.items) }
    ensures err { IfErr result (λ refusal. (schedule : List ℕ) → HasPlan program.now (Some schedule) plan.now → OfEachText program.now (λ text. ReplayRefuses text schedule certificate.now refusal)) }
{
    let Extracted { nest, wide } = extract_any(alloc, program)?;
    let replaying = Replaying {
        program,
        nest: &nest,
        plan,
        certificate,
    };
    let cert = text_of(alloc, &replaying)?;
    in_range(&replaying, &cert, wide)?;
    let folds = folds_of(alloc, &replaying, &cert)?;
    written(alloc, &replaying, folds.as_slice())
}

/// What `replay` makes of a program that was read.
pub fn replay_program(
    alloc: Global,
    program: &Program,
    schedule: &[u8],
    certificate: &[u8],
) -> Result<Replayed, Refusal>
    requires { IsOfText program.now }
    ensures ok { IfOk result (λ r. OfEachText program.now (λ text. ReplaysTo text schedule.now certificate.now r.text.items r.report.items)) }
    ensures err { IfErr result (λ refusal. OfEachText program.now (λ text. ReplayRefuses text schedule.now certificate.now refusal)) }
{
    reads_counted();
    folds_well_named();
    folds_compile();
    let plan = plan_of(alloc, program, schedule)?;
    replay_by(alloc, program, &plan, certificate)
}

/// The text that does what the source does, in the order of the schedule and on temporaries that are folded as the certificate
/// shows, or why there is none. The source's text is looked at first, then the schedule's, then the certificate's, then the ranges of the
/// program's loops, and then the sizes and items of the certificate.
pub fn replay(
    alloc: Global,
    source: &[u8],
    schedule: &[u8],
    certificate: &[u8],
) -> Result<Replayed, Refusal>
    ensures ok { IfOk result (λ r. ReplaysTo source.now schedule.now certificate.now r.text.items r.report.items) }
    ensures err { IfErr result (ReplayRefuses source.now schedule.now certificate.now) }
{
    let program = read(alloc, source)?;
    replay_program(alloc, &program, schedule, certificate)
}
