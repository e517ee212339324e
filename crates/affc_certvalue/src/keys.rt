//! The keys of an object.
ghost use Rattle.affc_certvalue.specs.Keys.{are_keys, has_keys};
ghost use Rattle.serde_json.specs.View.{view, members_view};
ghost use Rattle.std.specs.Prelude.{◌≡◌, map};

use serde_json::{Map, Value};

/// Whether a map's keys are exactly these, in order.
#[tactic(auto, using(crate::proofs::Keyed::key_steps))]
fn are_keys(entries: &Map<String, Value>, keys: &[&str]) -> bool
    ensures { result ≡ are_keys (map (λ k. k.now) keys.now) (members_view entries.now.entries) }
{
    let mut rest = keys;
    for (key, _) in entries.iter() {
        let [first, others @ ..] = rest else {
            return false;
        };
        if key.as_str() != *first {
            return false;
        }
        rest = others;
    }
    rest.is_empty()
}

/// Whether a value is an object with exactly these keys, which are in order by bytes.
pub fn has_keys(value: &Value, keys: &[&str]) -> bool
    ensures { result ≡ has_keys (map (λ k. k.now) keys.now) (view value.now) }
{
    match value.as_object() {
        None => false,
        Some(entries) => are_keys(entries, keys),
    }
}
