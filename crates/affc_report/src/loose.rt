//! The components of times that have no ends, as text.
ghost use Rattle.std.specs.Prelude.{◌≡◌, ◌++◌, OnOk, string_bytes};
ghost use Rattle.affc_report.specs.Loose as specs;

use affc_loopends::Why;
use affc_loopends::scanned::Loose;
use std::alloc::AllocError;

// Adds why a component has no ends.
fn add_why(out: &mut String, why: &Why) -> Result<(), AllocError>
    ensures { OnOk result (string_bytes out.new ≡ string_bytes out.old ++ specs.why_text why.now) }
{
    match why {
        Why::Made { asked: _, made: _ } => out.push_str("made"),
        Why::Wide {
            asked: _,
            made: _,
            next: _,
        } => out.push_str("wide"),
        Why::Large { row: _ } => out.push_str("large"),
        Why::Nine { rows: _ } => out.push_str("nine"),
    }
}

// Adds the line of a component.
fn add_one(out: &mut String, loose: &Loose) -> Result<(), AllocError>
    ensures { OnOk result (string_bytes out.new ≡ string_bytes out.old ++ specs.loose_text loose.now) }
{
    let statement = loose.statement;
    let component = loose.component;
    write!(out, "loose S{statement} component {component} ")?;
    add_why(out, &loose.why)?;
    out.push_str("\n")
}

/// Adds a line for each of these components.
pub fn add_loose(out: &mut String, loose: &[Loose]) -> Result<(), AllocError>
    ensures { OnOk result (string_bytes out.new ≡ string_bytes out.old ++ specs.all_loose_text loose.now) }
{
    match loose {
        [] => Ok(()),
        [first, loose @ ..] => {
            add_one(out, first)?;
            add_loose(out, loose)
        }
    }
}
