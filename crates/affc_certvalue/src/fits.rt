//! Whether numbers fit 64 bits.
ghost use Rattle.affc_certvalue.specs.Limits.{FitsForm, IsWord};
ghost use Rattle.std.specs.List.{All};
ghost use Rattle.std.specs.Prelude.{◌↔◌, IsTrue};

use affc_rows::Form;

pub fn is_word(number: i128) -> bool
    ensures { IsTrue result ↔ IsWord number }
{
    i64::try_from(number).is_ok()
}

pub fn are_words(numbers: &[i128]) -> bool
    ensures { IsTrue result ↔ All IsWord numbers.now }
{
    numbers.iter().all(|number| is_word(*number))
}

pub fn form_fits(form: &Form) -> bool
    ensures { IsTrue result ↔ FitsForm form.now }
{
    are_words(form.coefs.as_slice()) && is_word(form.constant)
}

pub fn forms_fit(forms: &[Form]) -> bool
    ensures { IsTrue result ↔ All FitsForm forms.now }
{
    forms.iter().all(|form| form_fits(form))
}
