//! Items put behind others.
ghost use Rattle.std.specs.Prelude.{flat_map, ◌≡◌, ◌++◌, ◌∷◌, [], map, IfOk, OnOk, IfErr};
ghost use Rattle.affc_products.specs.Blocks.{product, block_questions};
ghost use Rattle.affc_check.specs.list.Held.{item_said, listed_said};
ghost use Rattle.affc_check.specs.list.Items.{Question, Shown};
ghost use Rattle.affc_check.specs.list.Limits.{AnyPasses};
ghost use Rattle.affc_check.specs.list.Listed.{AreListed};

use crate::list::item::{Item, Listed, Point};
use crate::list::stop::Stop;
use affc_products::Block;
use affc_questions::Long;
use affc_rows::Form;
use affc_system::System;
use sqlite_items::Items;
use std::alloc::{AllocError, Global};

/// Adds a question.
pub(crate) fn add_question(out: &mut Vec<Listed<'_>>, system: System) -> Result<(), AllocError>
    ensures { OnOk result (flat_map listed_said out.new.items ≡ flat_map listed_said out.old.items ++ Question system ∷ []) }
{
    out.push(Listed::One(Item::Question(system)))?;
    Ok(())
}

/// Adds a point that is shown.
pub(crate) fn add_point(out: &mut Vec<Listed<'_>>, point: Point) -> Result<(), AllocError>
    ensures { OnOk result (flat_map listed_said out.new.items ≡ flat_map listed_said out.old.items ++ Shown point.system point.point ∷ []) }
{
    out.push(Listed::One(Item::Shown(point)))?;
    Ok(())
}

/// Adds a question, if it keeps the limits.
pub(crate) fn add_long(alloc: Global, long: &Long, out: &mut Vec<Listed<'_>>) -> Result<(), Stop>
    ensures ok { OnOk result (AreListed (flat_map listed_said out.old.items) (flat_map listed_said out.new.items) (Question long.now ∷ [])) }
    ensures past { IfErr result (λ e. e ≡ Stop.Past → AnyPasses (Question long.now ∷ [])) }
{
    match long.system(alloc)? {
        Some(system) => {
            add_question(out, system)?;
            Ok(())
        }
        None => Err(Stop::Past),
    }
}

/// Adds questions in product form.
fn add_block<'a>(out: &mut Vec<Listed<'a>>, block: Block<'a>) -> Result<(), AllocError>
    ensures { OnOk result (flat_map listed_said out.new.items ≡ flat_map listed_said out.old.items ++ map Question (block_questions block.entry)) }
{
    out.push(Listed::Questions(block))?;
    Ok(())
}

/// Adds the questions of a product, if all keep the limits. The tails are its last factor.
pub(crate) fn add_product<'a>(
    alloc: Global,
    columns: u32,
    front: &'a [Form],
    factors: &'a [Items<Items<Form>>],
    tails: Items<Items<Form>>,
    out: &mut Vec<Listed<'a>>,
) -> Result<(), Stop>
    ensures ok { OnOk result (AreListed (flat_map listed_said out.old.items) (flat_map listed_said out.new.items) (map Question (product columns front.now (factors.now ++ tails ∷ [])))) }
    ensures past { IfErr result (λ e. e ≡ Stop.Past → AnyPasses (map Question (product columns front.now (factors.now ++ tails ∷ [])))) }
{
    let Some(block) = Block::of(alloc, columns, front, factors, tails) else {
        return Err(Stop::Past);
    };
    add_block(out, block)?;
    Ok(())
}

/// Adds questions as items.
fn add_wholes(systems: Vec<System>, out: &mut Vec<Item>) -> Result<(), AllocError>
    ensures { OnOk result (map item_said out.new.items ≡ map item_said out.old.items ++ map Question systems.items) }
{
    for system in systems {
        out.push(Item::Question(system))?;
    }
    Ok(())
}

/// Adds the items that are listed, with all their rows.
fn add_whole(alloc: Global, listed: Listed<'_>, out: &mut Vec<Item>) -> Result<(), AllocError>
    ensures { OnOk result (map item_said out.new.items ≡ map item_said out.old.items ++ listed_said listed.entry) }
{
    match listed {
        Listed::One(item) => {
            out.push(item)?;
            Ok(())
        }
        Listed::Questions(block) => {
            let systems = block.systems(alloc)?;
            add_wholes(systems, out)
        }
    }
}

/// The items that are listed, each with all its rows.
pub(crate) fn wholes(alloc: Global, listed: Vec<Listed<'_>>) -> Result<Vec<Item>, AllocError>
    ensures { IfOk result (λ items. map item_said items.items ≡ flat_map listed_said listed.entry.items) }
{
    let mut items = Vec::new(alloc);
    for one in listed {
        add_whole(alloc, one, &mut items)?;
    }
    Ok(items)
}
