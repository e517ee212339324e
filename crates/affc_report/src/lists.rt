//! Lists with commas.
ghost use Rattle.std.specs.Prelude.{◌≡◌, ℕ, ◌++◌, List, flat_map, OnOk, string_bytes, codes};
ghost use Rattle.std.specs.List.{join_by};

use std::alloc::AllocError;

/// How the items of a list are written.
pub trait WriteItem<T> {
    ghost item_text: { Self → T → List ℕ };

    /// Adds an item.
    fn add_item(&self, out: &mut String, item: &T) -> Result<(), AllocError>
        ensures { OnOk result (string_bytes out.new ≡ string_bytes out.old ++ item_text self.now item.now) };
}

// Adds items, each behind a comma.
fn add_behind<T, W: WriteItem<T>>(
    out: &mut String,
    writer: &W,
    items: &[T],
) -> Result<(), AllocError>
    ensures { OnOk result (string_bytes out.new ≡ string_bytes out.old ++ flat_map (λ x. codes ", " ++ W.item_text writer.now x) items.now) }
{
    match items {
        [] => Ok(()),
        [item, items @ ..] => {
            out.push_str(", ")?;
            writer.add_item(out, item)?;
            add_behind(out, writer, items)
        }
    }
}

/// Adds items with commas between them.
pub fn add_list<T, W: WriteItem<T>>(
    out: &mut String,
    writer: &W,
    items: &[T],
) -> Result<(), AllocError>
    ensures { OnOk result (string_bytes out.new ≡ string_bytes out.old ++ join_by (W.item_text writer.now) (codes ", ") items.now) }
{
    match items {
        [] => Ok(()),
        [item, items @ ..] => {
            writer.add_item(out, item)?;
            add_behind(out, writer, items)
        }
    }
}
