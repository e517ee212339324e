//! What words ask for, in words.
use affc_words::words::{Command, CostName, Settings, command_of};
use std::alloc::{AllocError, Global};

// The cost that is taken where none is named isn't written.
fn cost_of(cost: CostName) -> &'static str {
    match cost {
        CostName::Words => "",
        CostName::Sum => " by sum",
        CostName::Powers => " by powers",
    }
}

fn tell_settings(text: &mut String, settings: Settings) -> Result<(), AllocError> {
    if let Some(units) = settings.budget {
        write!(text, " {units}")?;
    }
    text.push_str(cost_of(settings.cost))
}

fn tell_fold(
    text: &mut String,
    source: &str,
    schedule: Option<&str>,
    settings: Settings,
    certificate: Option<&str>,
) -> Result<(), AllocError> {
    write!(text, "fold [{source}]")?;
    if let Some(schedule) = schedule {
        write!(text, " [{schedule}]")?;
    }
    tell_settings(text, settings)?;
    if let Some(certificate) = certificate {
        write!(text, " for [{certificate}]")?;
    }
    Ok(())
}

/// What the words ask for.
pub fn told(alloc: Global, words: &[String]) -> Result<String, AllocError> {
    let mut text = String::new(alloc);
    match command_of(alloc, words)? {
        None => text.push_str("none")?,
        Some(
            Command::Fold {
                source,
                schedule,
                settings,
                certificate,
            },
        ) => tell_fold(&mut text, source, schedule, settings, certificate)?,
        Some(
            Command::Replay {
                source,
                schedule,
                certificate,
            },
        ) => write!(text, "replay [{source}] [{schedule}] [{certificate}]")?,
        Some(
            Command::Run {
                source,
                feed,
                steps,
            },
        ) => write!(text, "run [{source}] [{feed}] {steps}")?,
        Some(Command::Flow { source }) => write!(text, "flow [{source}]")?,
        Some(Command::Big { stages }) => {
            let count = stages.count;
            write!(text, "big {count}")?
        }
    }
    Ok(text)
}
