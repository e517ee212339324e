//! What values of mixtures and compositions are. Each law is the contract of a function that does nothing.
ghost use Rattle.std.specs.Prelude.{◌≡◌, ℤ, List, ◌+ℤ◌, ◌*ℤ◌, length};
ghost use Rattle.affc_rows.specs.Forms.{Affine, value, mixed_form, HaveColumns, columns_of, values_of, composed_form};

/// The value of `s f + t g` is `s` times the value of `f` plus `t` times that of `g`.
pub fn value_of_mixture()
    ensures { (s : ℤ) (f : Affine) (t : ℤ) (g : Affine) (x : List ℤ) → length f.coefs ≡ length g.coefs → length f.coefs ≡ length x
        → value (mixed_form s f t g) x ≡ (s *ℤ value f x) +ℤ (t *ℤ value g x) }
{}

/// The value of a composition is the form's value at the values of the images.
pub fn value_of_composition()
    ensures { (f : Affine) (images : List Affine) (x : List ℤ) → length images ≡ length f.coefs → HaveColumns (length x) images
        → (length x ≡ columns_of images) → value (composed_form f images) x ≡ value f (values_of images x) }
{}
