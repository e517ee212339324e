//! The lines that say why a certificate isn't one.
ghost use Rattle.std.specs.Prelude.{◌≡◌, IfOk, string_bytes};
ghost use Rattle.affc_lines.specs.Certificate.{numbered_line, certificate_line, check_line};

use affc_cert::CertFault;
use affc_check::CheckFault;
use std::alloc::{AllocError, Global};

// What is said of a part or an item.
fn numbered_line(alloc: Global, words: &str, number: usize) -> Result<String, AllocError>
    ensures { IfOk result (λ line. string_bytes line ≡ numbered_line words.now number) }
{
    let mut line = String::from_str(alloc, "affc: certificate: ")?;
    line.push_str(words)?;
    write!(line, " {number}")?;
    Ok(line)
}

/// What is said of a text that is no certificate, without the line's end.
pub fn certificate_line(alloc: Global, fault: &CertFault) -> Result<String, AllocError>
    ensures { IfOk result (λ line. string_bytes line ≡ certificate_line fault.now) }
{
    match fault {
        CertFault::Json => String::from_str(alloc, "affc: certificate: json"),
        CertFault::Version => String::from_str(alloc, "affc: certificate: version"),
        CertFault::Shape(part) => numbered_line(alloc, "shape", *part),
        CertFault::Number(part) => numbered_line(alloc, "number", *part),
        CertFault::Memory => String::from_str(alloc, "affc: memory"),
    }
}

/// What is said of a certificate that isn't valid, without the line's end.
pub fn check_line(alloc: Global, fault: &CheckFault) -> Result<String, AllocError>
    ensures { IfOk result (λ line. string_bytes line ≡ check_line fault.now) }
{
    match fault {
        CheckFault::Number(part) => numbered_line(alloc, "number", *part),
        CheckFault::Proof(item) => numbered_line(alloc, "proof", *item),
        CheckFault::Shown(item) => numbered_line(alloc, "shown", *item),
        CheckFault::Memory => String::from_str(alloc, "affc: memory"),
    }
}
