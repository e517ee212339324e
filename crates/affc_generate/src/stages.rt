//! The texts of a pipeline.
ghost use Rattle.std.specs.Prelude.{◌≡◌, ◌+◌, ◌-◌, ◌*◌, ◌<◌, ◌≤◌, ◌^◌, ◌++◌, IfOk, OnOk, string_bytes};
ghost use Rattle.std.specs.List.{flat_map, range_with_len};
ghost use Rattle.affc_generate.specs.Stages as specs;

use std::alloc::{AllocError, Global};

/// The most stages of a pipeline: with one more it would have more statements than a program may.
pub const MOST_STAGES: u32 = 62;

/// A pipeline's source, and the schedule that runs each stage as soon as what it reads is there.
#[derive(Drop)]
pub struct Pipeline {
    pub source: String,
    pub schedule: String,
}

/// Adds the sum of M and a number.
fn add_wider(out: &mut String, by: u32) -> Result<(), AllocError>
    ensures { OnOk result (string_bytes out.new ≡ string_bytes out.old ++ specs.wider by) }
{
    out.push_str("M + ")?;
    write!(out, "{by}")
}

/// Adds the line that declares a temporary.
fn add_declaration(out: &mut String, stages: u32, k: u32) -> Result<(), AllocError>
    requires { (k < stages) × (stages ≤ 62) }
    ensures { OnOk result (string_bytes out.new ≡ string_bytes out.old ++ specs.declaration stages k) }
{
    write!(out, "  uint64_t a{k}[")?;
    add_wider(out, 2 * (stages - k))?;
    out.push_str("];\n")
}

/// Adds those of all temporaries.
fn add_declarations(out: &mut String, stages: u32) -> Result<(), AllocError>
    requires { stages ≤ 62 }
    ensures { OnOk result (string_bytes out.new ≡ string_bytes out.old ++ flat_map (specs.declaration stages) (range_with_len 0 stages)) }
{
    for k in 0..stages {
        add_declaration(out, stages, k)?;
    }
    Ok(())
}

/// Adds an element of a temporary.
fn add_element(out: &mut String, k: u32, subscript: &str) -> Result<(), AllocError>
    ensures { OnOk result (string_bytes out.new ≡ string_bytes out.old ++ specs.element k subscript.now) }
{
    write!(out, "a{k}[{subscript}]")
}

/// Adds the sum of three elements that follow one another.
fn add_neighbours(out: &mut String, k: u32) -> Result<(), AllocError>
    ensures { OnOk result (string_bytes out.new ≡ string_bytes out.old ++ specs.neighbours k) }
{
    add_element(out, k, "i")?;
    out.push_str(" + ")?;
    add_element(out, k, "i + 1")?;
    out.push_str(" + ")?;
    add_element(out, k, "i + 2")
}

/// Adds what stands before the end of a loop.
#[tactic(auto, unfolding(crate::specs::Stages::for_front))]
fn add_for_front(out: &mut String) -> Result<(), AllocError>
    ensures { OnOk result (string_bytes out.new ≡ string_bytes out.old ++ specs.for_front) }
{
    out.push_str("  for (int64_t i = 0; i < ")
}

/// Adds what stands behind the end of a loop.
#[tactic(auto, unfolding(crate::specs::Stages::for_behind))]
fn add_for_behind(out: &mut String) -> Result<(), AllocError>
    ensures { OnOk result (string_bytes out.new ≡ string_bytes out.old ++ specs.for_behind) }
{
    out.push_str("; i++) {\n    ")
}

/// Adds the assignment of a stage behind the first.
fn add_summed(out: &mut String, k: u32) -> Result<(), AllocError>
    requires { 1 ≤ k }
    ensures { OnOk result (string_bytes out.new ≡ string_bytes out.old ++ specs.summed k) }
{
    add_element(out, k, "i")?;
    out.push_str(" = ")?;
    add_neighbours(out, k - 1)
}

/// Adds the loop of a stage behind the first.
fn add_stage(out: &mut String, stages: u32, k: u32) -> Result<(), AllocError>
    requires { (1 ≤ k) × (k < stages) × (stages ≤ 62) }
    ensures { OnOk result (string_bytes out.new ≡ string_bytes out.old ++ specs.stage stages k) }
{
    add_for_front(out)?;
    add_wider(out, 2 * (stages - k))?;
    add_for_behind(out)?;
    add_summed(out, k)?;
    out.push_str(";\n  }\n")
}

/// Adds those of all stages behind the first.
fn add_stages(out: &mut String, stages: u32) -> Result<(), AllocError>
    requires { (1 ≤ stages) × (stages ≤ 62) }
    ensures { OnOk result (string_bytes out.new ≡ string_bytes out.old ++ flat_map (specs.stage stages) (range_with_len 1 (stages - 1))) }
{
    for k in 1..stages {
        add_stage(out, stages, k)?;
    }
    Ok(())
}

/// Adds what stands before the extent of the input.
#[tactic(auto, unfolding(crate::specs::Stages::head_front))]
fn add_head_front(out: &mut String) -> Result<(), AllocError>
    ensures { OnOk result (string_bytes out.new ≡ string_bytes out.old ++ specs.head_front) }
{
    out.push_str(
        "#include <stdint.h>\n#pragma affc param M 1 1000\nvoid big(int64_t M, const uint64_t in[",
    )
}

/// Adds what stands behind it.
#[tactic(auto, unfolding(crate::specs::Stages::head_behind))]
fn add_head_behind(out: &mut String) -> Result<(), AllocError>
    ensures { OnOk result (string_bytes out.new ≡ string_bytes out.old ++ specs.head_behind) }
{
    out.push_str("], uint64_t out[M]) {\n")
}

/// Adds the head of the function.
fn add_head(out: &mut String, stages: u32) -> Result<(), AllocError>
    requires { stages ≤ 62 }
    ensures { OnOk result (string_bytes out.new ≡ string_bytes out.old ++ specs.head stages) }
{
    add_head_front(out)?;
    add_wider(out, 2 * stages)?;
    add_head_behind(out)
}

/// Adds the loop of the first stage.
fn add_first_loop(out: &mut String, stages: u32) -> Result<(), AllocError>
    requires { stages ≤ 62 }
    ensures { OnOk result (string_bytes out.new ≡ string_bytes out.old ++ specs.first_loop stages) }
{
    add_for_front(out)?;
    add_wider(out, 2 * stages)?;
    add_for_behind(out)?;
    out.push_str("a0[i] = in[i]")?;
    out.push_str(";\n  }\n")
}

/// Adds the loop of the outputs.
fn add_last_loop(out: &mut String, stages: u32) -> Result<(), AllocError>
    requires { (1 ≤ stages) × (stages ≤ 62) }
    ensures { OnOk result (string_bytes out.new ≡ string_bytes out.old ++ specs.last_loop stages) }
{
    add_for_front(out)?;
    out.push_str("M")?;
    add_for_behind(out)?;
    out.push_str("out[i] = ")?;
    add_neighbours(out, stages - 1)?;
    out.push_str(";\n  }\n")
}

/// The source.
fn source(alloc: Global, stages: u32) -> Result<String, AllocError>
    requires { (1 ≤ stages) × (stages ≤ 62) }
    ensures { IfOk result (λ text. string_bytes text ≡ specs.source stages) }
{
    let mut out = String::new(alloc);
    add_head(&mut out, stages)?;
    add_declarations(&mut out, stages)?;
    add_first_loop(&mut out, stages)?;
    add_stages(&mut out, stages)?;
    add_last_loop(&mut out, stages)?;
    out.push_str("}\n")?;
    Ok(out)
}

/// Adds when a stage runs.
fn add_time(out: &mut String, k: u32) -> Result<(), AllocError>
    requires { k ≤ 62 }
    ensures { OnOk result (string_bytes out.new ≡ string_bytes out.old ++ specs.time_of k) }
{
    let late = 2 * k;
    write!(out, "S{k}: (i + ")?;
    write!(out, "{late});")
}

/// Adds the inverse of that.
fn add_inverse(out: &mut String, k: u32) -> Result<(), AllocError>
    requires { k ≤ 62 }
    ensures { OnOk result (string_bytes out.new ≡ string_bytes out.old ++ specs.inverse_of k) }
{
    let late = 2 * k;
    write!(out, " i = t0 - {late};\n")
}

/// Adds the line of a stage.
fn add_line(out: &mut String, k: u32) -> Result<(), AllocError>
    requires { k ≤ 62 }
    ensures { OnOk result (string_bytes out.new ≡ string_bytes out.old ++ specs.line k) }
{
    add_time(out, k)?;
    add_inverse(out, k)
}

/// The first lines of a schedule.
#[tactic(auto, unfolding(crate::specs::Stages::schedule_front))]
fn schedule_front(alloc: Global) -> Result<String, AllocError>
    ensures { IfOk result (λ text. string_bytes text ≡ specs.schedule_front) }
{
    String::from_str(alloc, "time 1;\nS0: (i); i = t0;\n")
}

/// The schedule.
fn schedule(alloc: Global, stages: u32) -> Result<String, AllocError>
    requires { stages ≤ 62 }
    ensures { IfOk result (λ text. string_bytes text ≡ specs.schedule stages) }
{
    let mut out = schedule_front(alloc)?;
    for k in 1..stages + 1 {
        add_line(&mut out, k)?;
    }
    Ok(out)
}

/// The pipeline of so many stages, from 1 to 62.
pub fn generate(alloc: Global, stages: u32) -> Result<Pipeline, AllocError>
    requires { (1 ≤ stages) × (stages ≤ MOST_STAGES) }
    ensures source { IfOk result (λ made. string_bytes made.source ≡ specs.source stages) }
    ensures schedule { IfOk result (λ made. string_bytes made.schedule ≡ specs.schedule stages) }
{
    let source = source(alloc, stages)?;
    let schedule = schedule(alloc, stages)?;
    Ok(Pipeline { source, schedule })
}

/// The extents of all its temporaries where M is 1000, summed.
pub fn whole(stages: u32) -> u32
    requires { stages ≤ MOST_STAGES }
    ensures { result ≡ specs.whole stages }
{
    stages * 1000 + stages * (stages + 1)
}
