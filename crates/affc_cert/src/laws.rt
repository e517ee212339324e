//! Laws of certificates.
ghost use Rattle.affc_cert.specs.Certificates.{Certificate, seen};
ghost use Rattle.affc_cert.specs.Limits.{FitsCert};
ghost use Rattle.affc_cert.specs.Refusals.{Refuses, refusal};
ghost use Rattle.affc_cert.specs.Values.{cert_value};
ghost use Rattle.affc_cert.specs.Within.{IsWithin};
ghost use Rattle.affc_cert.specs.declared.cert.Cert.{Cert};
ghost use Rattle.affc_cert.specs.declared.cert.CertFault.{CertFault};
ghost use Rattle.affc_cert.specs.declared.layout.Layout.{Layout};
ghost use Rattle.serde_json.specs.Data.{Data};
ghost use Rattle.std.specs.Prelude.{◌≡◌, None};

/// One JSON value is that of one certificate. So what is read of a text that was written says what was written.
#[tactic(auto, using(crate::proofs::Unique::one_certificate))]
pub fn one_value_is_of_one_certificate()
    ensures { (a b : Certificate) → cert_value a ≡ cert_value b → a ≡ b }
{}

/// What is read with no fault is refused for no product either, so no text has two answers.
#[tactic(auto, using(crate::proofs::Broken::right_is_not_refused))]
pub fn a_right_value_is_not_refused()
    ensures { (layout : Layout) (c : Cert) (e : CertFault) → refusal layout (cert_value (seen c)) ≡ None → Refuses layout (cert_value (seen c)) e → ⊥ }
{}

/// A JSON value is refused for one reason at most.
#[tactic(auto, using(crate::proofs::Broken::one_refusal))]
pub fn a_value_has_one_refusal()
    ensures { (layout : Layout) (d : Data) (e f : CertFault) → Refuses layout d e → Refuses layout d f → e ≡ f }
{}

/// The value of a certificate within the limits is refused for nothing.
#[tactic(auto, using(crate::proofs::Within::not_refused))]
pub fn written_is_not_refused()
    ensures { (layout : Layout) (c : Certificate) → IsWithin layout c → refusal layout (cert_value c) ≡ None }
{}

/// What is read is within the limits.
#[tactic(auto, using(crate::proofs::Within::is_within))]
pub fn read_is_within()
    ensures { (layout : Layout) (c : Certificate) → refusal layout (cert_value c) ≡ None → IsWithin layout c }
{}

/// The numbers of a certificate within the limits fit 64 bits, so it is written.
#[tactic(auto, using(crate::proofs::Within::fits))]
pub fn within_is_written()
    ensures { (layout : Layout) (c : Cert) → IsWithin layout (seen c) → FitsCert c }
{}
