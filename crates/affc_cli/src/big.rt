//! A pipeline of many stages, folded and summed up.
ghost use Rattle.std.specs.Prelude.{◌≡◌, ◌++◌, [], IfOk, IfErr, OnOk, string_bytes};
ghost use Rattle.affc_cli.specs.Big.{BigCause, SumsUp, count_line, summary};

use crate::fold::folded;
use crate::pieces::Pieces;
use affc_driver::Wanted;
use affc_generate::{Pipeline, generate, whole};
use affc_lines::refusal::Refusal;
use affc_words::stages::Stages;
use affc_words::words::{CostName, Settings};
use std::alloc::{AllocError, Global};

fn add_count(out: &mut String, words: &str, count: u128) -> Result<(), AllocError>
    ensures { OnOk result (string_bytes out.new ≡ string_bytes out.old ++ count_line words.now count) }
{
    out.push_str(words)?;
    writeln!(out, " {count}")
}

// The summary of a pipeline whose folds cost so much together.
fn summary(alloc: Global, stages: Stages, folded: u128) -> Result<String, AllocError>
    ensures { IfOk result (λ text. string_bytes text ≡ summary stages.count folded) }
{
    let count = stages.count;
    let mut out = String::new(alloc);
    add_count(&mut out, "stages", u128::from(count))?;
    add_count(&mut out, "statements", u128::from(count + 1))?;
    add_count(&mut out, "whole", u128::from(whole(count)))?;
    add_count(&mut out, "folded", folded)?;
    Ok(out)
}

/// The pipeline of so many stages, folded at the least cost by words, and summed up, or why there is nothing.
pub fn big(alloc: Global, stages: Stages) -> Result<Pieces, Refusal>
    ensures ok { IfOk result (λ made. SumsUp stages.count made.text.items) }
    ensures no_report { IfOk result (λ made. made.report.items ≡ []) }
    ensures err { IfErr result (BigCause stages.count) }
{
    let Ok(Pipeline { source, schedule }) = generate(alloc, stages.count) else {
        return Err(Refusal::Memory);
    };
    let settings = Settings {
        budget: None,
        cost: CostName::Words,
    };
    let made = folded(
        alloc,
        source.as_bytes(),
        Some(schedule.as_bytes()),
        settings,
        Wanted::Text,
    )?;
    match summary(alloc, stages, made.done.cost) {
        Ok(text) => Ok(Pieces {
            certificate: Vec::new(alloc),
            text: text.into_bytes(),
            report: Vec::new(alloc),
        }),
        Err(_) => Err(Refusal::Memory),
    }
}
