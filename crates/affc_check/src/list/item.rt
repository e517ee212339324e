//! Items in code.
ghost use Rattle.std.specs.Prelude.{◌≤◌};
ghost use Rattle.std.specs.List.{All};
ghost use Rattle.affc_system.specs.Systems.{IsRow};

use affc_nest::{Access, Entry};
use affc_products::{Block, Group};
use affc_quast::Quast;
use affc_questions::Long;
use affc_system::System;
use sqlite_items::Items;

/// A system, which may have more rows than a question, with a point that it is to have.
#[derive(Drop)]
pub struct Point {
    pub system: Long,
    pub point: Items<i64>,
    ghost few: { system.columns ≤ 128 },
    ghost fit: { All (IsRow system.columns) system.rows },
}

/// An item of a certificate.
#[derive(Drop)]
pub enum Item {
    /// The system is to have no integer point.
    Question(System),
    Shown(Point),
}

/// One item as it is listed, or several: questions in product form, whose rows are not copied.
#[derive(Drop)]
pub enum Listed<'a> {
    One(Item),
    Questions(Block<'a>),
}

/// The questions of a certificate that are listed in groups.
#[derive(Drop)]
pub struct Groups {
    /// Those of the trees, a part for each.
    pub trees: Items<Items<Group>>,
    /// Those on the schedule.
    pub schedule: Items<Group>,
}

/// A load of a statement that can have instances, with its tree.
#[derive(Clone, Copy, Drop)]
pub struct Loaded<'a> {
    pub reader: &'a Entry,
    pub load: &'a Access,
    pub tree: &'a Quast,
}
