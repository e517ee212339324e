//! Whether the numbers of a tree fit 64 bits.
ghost use Rattle.affc_cert.specs.tree.Limits.{FitsTree};
ghost use Rattle.std.specs.Prelude.{◌↔◌, IsTrue};

use affc_certvalue::fits::{form_fits, forms_fit};
use affc_quast::Quast;

pub fn tree_fits(tree: &Quast) -> bool
    ensures { IsTrue result ↔ FitsTree tree.now }
{
    match tree {
        Quast::Test { form, yes, no } => form_fits(form) && tree_fits(yes) && tree_fits(no),
        Quast::Div { form, by: _, rest } => form_fits(form) && tree_fits(rest),
        Quast::Source { part: _, forms } => forms_fit(forms.as_slice()),
        Quast::Input => true,
    }
}
