//! The words of the command line.

ghost use Rattle.std.specs.Prelude.{◌≡◌, ◌≤◌, IfOk, IfSome, true, codes, option_map};
ghost use Rattle.std.specs.List.{list_all, list_any};
ghost use Rattle.std.specs.Char.{is_ascii_digit};
ghost use Rattle.clap.specs.Words.{app_of, is_simple};
ghost use Rattle.clap.specs.Faults.{is_simple_and_free};
ghost use Rattle.affc_words.specs.Command.{answer, texts_of, is_empty, is_named, number_to, budget_of, cost_of, settings_of, steps_of, stages_of, fold_by, command_of};
ghost use Rattle.affc_words.specs.Parsed.{Parses, fold_app, replay_app, is_clean, run_app, flow_app, big_app};
ghost use Rattle.affc_words.specs.Seen.{seen};

use crate::stages::Stages;
use clap::error::ErrorKind;
use clap::{Arg, ArgMatches};
use std::alloc::{AllocError, Global};

/// A cost by its name.
#[derive(Clone, Copy)]
pub enum CostName {
    Words,
    Sum,
    Powers,
}

/// How much may be asked for a fold, if that is limited, and by which cost it is chosen.
#[derive(Clone, Copy)]
pub struct Settings {
    pub budget: Option<u64>,
    pub cost: CostName,
}

/// What the words ask for.
#[derive(Clone, Copy)]
pub enum Command<'a> {
    Fold {
        source: &'a str,
        schedule: Option<&'a str>,
        settings: Settings,
        /// The file that the certificate goes to.
        certificate: Option<&'a str>,
    },
    Replay {
        source: &'a str,
        schedule: &'a str,
        certificate: &'a str,
    },
    Run {
        source: &'a str,
        feed: &'a str,
        steps: u64,
    },
    Flow {
        source: &'a str,
    },
    Big {
        stages: Stages,
    },
}

fn are_digits(text: &str) -> bool
    ensures { result ≡ list_all is_ascii_digit text.now }
{
    text.bytes().all(|b| b.is_ascii_digit())
}

// One to nineteen digits that write a number from 1 to the most.
fn number_to(most: u64, text: &str) -> Option<u64>
    ensures reads { result ≡ number_to most text.now }
    ensures limits { IfSome result (λ n. (1 ≤ n) × (n ≤ most)) }
{
    if text.len() > 19 || !are_digits(text) {
        return None;
    }
    match text.parse::<u64>() {
        Ok(n) if n >= 1 && n <= most => Some(n),
        _ => None,
    }
}

fn budget_of(value: Option<&str>) -> Option<Option<u64>>
    ensures { result ≡ budget_of (option_map (λ s. s.now) value.entry) }
{
    match value {
        None => Some(None),
        Some(text) => number_to(9_223_372_036_854_775_807, text).map(Some),
    }
}

fn cost_of(value: Option<&str>) -> Option<CostName>
    ensures { result ≡ cost_of (option_map (λ s. s.now) value.entry) }
{
    match value {
        None => Some(CostName::Words),
        Some("words") => Some(CostName::Words),
        Some("sum") => Some(CostName::Sum),
        Some("powers") => Some(CostName::Powers),
        Some(_) => None,
    }
}

fn settings_of(budget: Option<&str>, cost: Option<&str>) -> Option<Settings>
    ensures { result ≡ settings_of (option_map (λ s. s.now) budget.entry) (option_map (λ s. s.now) cost.entry) }
{
    let Some(budget) = budget_of(budget) else {
        return None;
    };
    let Some(cost) = cost_of(cost) else {
        return None;
    };
    Some(Settings { budget, cost })
}

fn steps_of(value: Option<&str>) -> Option<u64>
    ensures { result ≡ steps_of (option_map (λ s. s.now) value.entry) }
{
    match value {
        None => Some(10_000_000),
        Some(text) => number_to(1_000_000_000_000, text),
    }
}

fn stages_of(text: &str) -> Option<Stages>
    ensures { option_map (λ s. s.count) result ≡ stages_of text.now }
{
    match number_to(62, text) {
        Some(n) => Some(Stages { count: n as u32 }),
        None => None,
    }
}

// Whether a name that may be left out isn't empty.
fn is_named(name: Option<&str>) -> bool
    ensures { result ≡ is_named (option_map (λ s. s.now) name.entry) }
{
    match name {
        None => true,
        Some(name) => !name.is_empty(),
    }
}

fn has_empty(words: &[String]) -> bool
    ensures { result ≡ list_any is_empty (texts_of words.now) }
{
    for word in words {
        if word.is_empty() {
            return true;
        }
    }
    false
}

// Whether no word before the first `--` begins with one hyphen.
fn is_clean(words: &[String]) -> bool
    ensures { result ≡ is_clean (texts_of words.now) }
{
    for word in words {
        match word.as_bytes() {
            [b'-', b'-'] => return true,
            [b'-', b'-', ..] => {}
            [b'-', ..] => return false,
            _ => {}
        }
    }
    true
}

// What the words come to by a form's clap command, if it takes them.
fn parsed<'a>(
    form: clap::Command<'a>,
    words: &'a [String],
) -> Result<Option<ArgMatches<'a>>, AllocError>
    requires simple { is_simple (app_of form) ≡ true }
    requires free { is_simple_and_free (app_of form) ≡ true }
    ensures { IfOk result (Parses (app_of form.entry) (texts_of words.entry.now)) }
{
    match form.try_get_matches_from(words) {
        Ok(matches) => Ok(Some(matches)),
        Err(error) => match error.kind() {
            ErrorKind::OutOfMemory => Err(AllocError),
            _ => Ok(None),
        },
    }
}

// `fold SRC [SCHED] [--budget N] [--cost NAME] [--cert FILE]`
fn fold_form<'a>(alloc: Global) -> Result<clap::Command<'a>, AllocError>
    ensures { IfOk result (λ form. app_of form ≡ fold_app) }
{
    clap::Command::new(alloc, "fold")
        .no_binary_name(true)
        .disable_help_flag(true)
        .arg(Arg::new(alloc, "source").required(true))?
        .arg(Arg::new(alloc, "schedule"))?
        .arg(Arg::new(alloc, "budget").long("budget"))?
        .arg(Arg::new(alloc, "cost").long("cost"))?
        .arg(Arg::new(alloc, "cert").long("cert"))
}

// The command, where its settings are read and no name is empty.
fn fold_by<'a>(
    source: &'a str,
    schedule: Option<&'a str>,
    settings: Option<Settings>,
    certificate: Option<&'a str>,
) -> Option<Command<'a>>
    ensures { option_map seen result ≡ fold_by source.now (option_map (λ s. s.now) schedule.entry) settings (option_map (λ s. s.now) certificate.entry) }
{
    if !is_named(certificate) {
        return None;
    }
    match settings {
        Some(settings) => Some(Command::Fold {
            source,
            schedule,
            settings,
            certificate,
        }),
        None => None,
    }
}

fn read_fold<'a>(alloc: Global, words: &'a [String]) -> Result<Option<Command<'a>>, AllocError>
    requires { is_clean (texts_of words.now) ≡ true }
    ensures { IfOk result (λ found. option_map seen found ≡ answer (codes "fold") (texts_of words.entry.now)) }
{
    let form = fold_form(alloc)?;
    let Some(matches) = parsed(form, words)? else {
        return Ok(None);
    };
    let Some(source) = matches.get_str("source") else {
        return Ok(None);
    };
    let schedule = matches.get_str("schedule");
    let budget = matches.get_str("budget");
    let cost = matches.get_str("cost");
    let certificate = matches.get_str("cert");
    Ok(fold_by(source, schedule, settings_of(budget, cost), certificate))
}

// `replay SRC SCHED CERT`
fn replay_form<'a>(alloc: Global) -> Result<clap::Command<'a>, AllocError>
    ensures { IfOk result (λ form. app_of form ≡ replay_app) }
{
    clap::Command::new(alloc, "replay")
        .no_binary_name(true)
        .disable_help_flag(true)
        .arg(Arg::new(alloc, "source").required(true))?
        .arg(Arg::new(alloc, "schedule").required(true))?
        .arg(Arg::new(alloc, "certificate").required(true))
}

fn read_replay<'a>(alloc: Global, words: &'a [String]) -> Result<Option<Command<'a>>, AllocError>
    requires { is_clean (texts_of words.now) ≡ true }
    ensures { IfOk result (λ found. option_map seen found ≡ answer (codes "replay") (texts_of words.entry.now)) }
{
    let form = replay_form(alloc)?;
    let Some(matches) = parsed(form, words)? else {
        return Ok(None);
    };
    let Some(source) = matches.get_str("source") else {
        return Ok(None);
    };
    let Some(schedule) = matches.get_str("schedule") else {
        return Ok(None);
    };
    let Some(certificate) = matches.get_str("certificate") else {
        return Ok(None);
    };
    Ok(Some(Command::Replay {
        source,
        schedule,
        certificate,
    }))
}

// `run SRC DATA [--steps N]`
fn run_form<'a>(alloc: Global) -> Result<clap::Command<'a>, AllocError>
    ensures { IfOk result (λ form. app_of form ≡ run_app) }
{
    clap::Command::new(alloc, "run")
        .no_binary_name(true)
        .disable_help_flag(true)
        .arg(Arg::new(alloc, "source").required(true))?
        .arg(Arg::new(alloc, "data").required(true))?
        .arg(Arg::new(alloc, "steps").long("steps"))
}

fn read_run<'a>(alloc: Global, words: &'a [String]) -> Result<Option<Command<'a>>, AllocError>
    requires { is_clean (texts_of words.now) ≡ true }
    ensures { IfOk result (λ found. option_map seen found ≡ answer (codes "run") (texts_of words.entry.now)) }
{
    let form = run_form(alloc)?;
    let Some(matches) = parsed(form, words)? else {
        return Ok(None);
    };
    let Some(source) = matches.get_str("source") else {
        return Ok(None);
    };
    let Some(feed) = matches.get_str("data") else {
        return Ok(None);
    };
    let Some(steps) = steps_of(matches.get_str("steps")) else {
        return Ok(None);
    };
    Ok(Some(Command::Run {
        source,
        feed,
        steps,
    }))
}

// `flow SRC`
fn flow_form<'a>(alloc: Global) -> Result<clap::Command<'a>, AllocError>
    ensures { IfOk result (λ form. app_of form ≡ flow_app) }
{
    clap::Command::new(alloc, "flow")
        .no_binary_name(true)
        .disable_help_flag(true)
        .arg(Arg::new(alloc, "source").required(true))
}

fn read_flow<'a>(alloc: Global, words: &'a [String]) -> Result<Option<Command<'a>>, AllocError>
    requires { is_clean (texts_of words.now) ≡ true }
    ensures { IfOk result (λ found. option_map seen found ≡ answer (codes "flow") (texts_of words.entry.now)) }
{
    let form = flow_form(alloc)?;
    let Some(matches) = parsed(form, words)? else {
        return Ok(None);
    };
    let Some(source) = matches.get_str("source") else {
        return Ok(None);
    };
    Ok(Some(Command::Flow { source }))
}

// `big N`
fn big_form<'a>(alloc: Global) -> Result<clap::Command<'a>, AllocError>
    ensures { IfOk result (λ form. app_of form ≡ big_app) }
{
    clap::Command::new(alloc, "big")
        .no_binary_name(true)
        .disable_help_flag(true)
        .arg(Arg::new(alloc, "stages").required(true))
}

fn read_big<'a>(alloc: Global, words: &'a [String]) -> Result<Option<Command<'a>>, AllocError>
    requires { is_clean (texts_of words.now) ≡ true }
    ensures { IfOk result (λ found. option_map seen found ≡ answer (codes "big") (texts_of words.entry.now)) }
{
    let form = big_form(alloc)?;
    let Some(matches) = parsed(form, words)? else {
        return Ok(None);
    };
    let Some(text) = matches.get_str("stages") else {
        return Ok(None);
    };
    let Some(stages) = stages_of(text) else {
        return Ok(None);
    };
    Ok(Some(Command::Big { stages }))
}

/// What the words stand for, if they are one of the command forms. It fails for want of memory alone.
pub fn command_of<'a>(alloc: Global, words: &'a [String]) -> Result<Option<Command<'a>>, AllocError>
    ensures { IfOk result (λ found. option_map seen found ≡ command_of (texts_of words.entry.now)) }
{
    let [name, behind @ ..] = words else {
        return Ok(None);
    };
    if has_empty(behind) || !is_clean(behind) {
        return Ok(None);
    }
    match name.as_str() {
        "fold" => read_fold(alloc, behind),
        "replay" => read_replay(alloc, behind),
        "run" => read_run(alloc, behind),
        "flow" => read_flow(alloc, behind),
        "big" => read_big(alloc, behind),
        _ => Ok(None),
    }
}
