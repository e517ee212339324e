//! Whether the numbers of a certificate fit 64 bits.
ghost use Rattle.affc_cert.specs.Limits.{FitsCert};
ghost use Rattle.affc_certvalue.specs.proof.Limits.{FitsProof};
ghost use Rattle.affc_cert.specs.tree.Limits.{FitsTree};
ghost use Rattle.std.specs.List.{All};
ghost use Rattle.std.specs.Prelude.{◌↔◌, IsTrue};

use crate::cert::Cert;
use crate::tree::fits::tree_fits;
use affc_certvalue::fold::fits::folds_fit;
use affc_certvalue::proof::fits::proof_fits;
use affc_farkas::Proof;
use affc_quast::Quast;

fn trees_fit(trees: &[Quast]) -> bool
    ensures { IsTrue result ↔ All FitsTree trees.now }
{
    trees.iter().all(|tree| tree_fits(tree))
}

fn proofs_fit(proofs: &[Proof]) -> bool
    ensures { IsTrue result ↔ All FitsProof proofs.now }
{
    proofs.iter().all(|proof| proof_fits(proof))
}

/// Whether each number of a certificate fits 64 bits.
pub(crate) fn cert_fits(cert: &Cert) -> bool
    ensures { IsTrue result ↔ FitsCert cert.now }
{
    trees_fit(cert.flow.trees.as_slice())
        && folds_fit(cert.folds.as_slice())
        && proofs_fit(cert.proofs.as_slice())
}
