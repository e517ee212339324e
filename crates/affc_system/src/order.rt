//! The lexicographic order of points.
ghost use Rattle.std.specs.Prelude.{MatchBool};
ghost use Rattle.affc_system.specs.Order.{LexLe};

/// Whether the first list is at most the second in lexicographic order.
pub fn is_at_most(xs: &[i64], zs: &[i64]) -> bool
    ensures order { MatchBool result (LexLe xs.now zs.now) (LexLe zs.now xs.now) }
    ensures exact { MatchBool result (LexLe xs.now zs.now) (LexLe xs.now zs.now → ⊥) }
{
    match xs {
        [] => true,
        [x, more_xs @ ..] => match zs {
            [] => false,
            [z, more_zs @ ..] => {
                if *x < *z {
                    true
                } else if *z < *x {
                    false
                } else {
                    is_at_most(more_xs, more_zs)
                }
            }
        },
    }
}
