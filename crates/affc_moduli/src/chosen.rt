//! Rows that are chosen one after another, up to one with which no point is left.
ghost use Rattle.std.specs.Prelude.{◌≡◌, ℤ, List, ◌+◌, ◌<◌, ◌≤◌, ◌++◌, ◌∷◌, [], IsTrue, IfOk, OnOk, length, take};
ghost use Rattle.std.specs.List.{All};
ghost use Rattle.affc_system.specs.Boxes.{InBox};
ghost use Rattle.affc_system.specs.Pairs.{WithinReach};
ghost use Rattle.affc_system.specs.Systems.{IsRow, IsPoint, Meets};
ghost use Rattle.affc_split.specs.maximum.Regions.{InRegion};

use crate::bounds::is_out;
use crate::keys::key_of;
use crate::slices::add;
use affc_rows::Form;
use affc_split::maximum::Region;
use affc_system::{BoxOf, System};
use std::alloc::{AllocError, Global};

/// The points of a box at which the rows that are chosen so far are at least 0, and the keys of these rows.
#[derive(Drop)]
pub struct Chosen {
    pub region: Region,
    keys: Vec<i64>,
    ghost first: { length keys.items ≤ length region.system.rows },
}

impl Chosen {
    /// No rows yet, over a box.
    pub fn over(alloc: Global, columns: u32, ranges: BoxOf) -> Chosen
        requires few { columns ≤ 128 }
        requires width { length ranges ≡ columns }
        requires near { All WithinReach ranges }
        ensures system { result.region.system ≡ record { columns = columns; rows = [] } }
        ensures ranges { result.region.ranges ≡ ranges }
    {
        let system = System::new(alloc, columns);
        Chosen {
            region: Region { system, ranges },
            keys: Vec::new(alloc),
        }
    }

    /// The number of rows.
    pub fn count(&self) -> usize
        ensures { result ≡ length self.now.region.system.rows }
    {
        self.region.system.rows().len()
    }

    /// Keeps so many rows, the first ones.
    pub fn cut_back(&mut self, count: usize)
        ensures system { self.new.region.system ≡ record self.old.region.system { rows = take count self.old.region.system.rows } }
        ensures ranges { self.new.region.ranges ≡ self.old.region.ranges }
    {
        self.keys.truncate(count);
        self.region.system.truncate(count);
    }

    /// Adds a row, which has this key.
    fn put(&mut self, row: &Form, key: i64) -> Result<(), AllocError>
        requires row { IsRow self.old.region.system.columns row.now }
        requires room { length self.old.region.system.rows < 1024 }
        ensures system { OnOk result (self.new.region.system ≡ record self.old.region.system { rows = self.old.region.system.rows ++ row.now ∷ [] }) }
        ensures ranges { OnOk result (self.new.region.ranges ≡ self.old.region.ranges) }
    {
        add(&mut self.region.system, row.clone()?)?;
        self.keys.push(key)?;
        Ok(())
    }

    /// Adds a row, unless it is seen that with it no point is left. Answers whether it is added.
    fn add_row(&mut self, row: &Form) -> Result<bool, AllocError>
        requires row { IsRow self.old.region.system.columns row.now }
        requires room { length self.old.region.system.rows < 1024 }
        ensures added { IfOk result (λ added. IsTrue added → self.new.region.system ≡ record self.old.region.system { rows = self.old.region.system.rows ++ row.now ∷ [] }) }
        ensures out { IfOk result (λ added. ¬ (IsTrue added) → (z : List ℤ) → InRegion self.old.region z → Meets z row.now → ⊥) }
        ensures same { IfOk result (λ added. ¬ (IsTrue added) → self.new.region.system ≡ self.old.region.system) }
        ensures ranges { OnOk result (self.new.region.ranges ≡ self.old.region.ranges) }
    {
        let key = key_of(row);
        if is_out(&self.region, row, key, self.keys.as_slice()) {
            return Ok(false);
        }
        self.put(row, key)?;
        Ok(true)
    }

    /// Adds rows, up to one with which it is seen that no point is left. Answers whether all are added.
    pub fn add(&mut self, rows: &[Form]) -> Result<bool, AllocError>
        requires rows { All (IsRow self.old.region.system.columns) rows.now }
        requires room { length self.old.region.system.rows + length rows.now ≤ 1024 }
        ensures all { IfOk result (λ all. IsTrue all → self.new.region.system ≡ record self.old.region.system { rows = self.old.region.system.rows ++ rows.now }) }
        ensures none { IfOk result (λ all. ¬ (IsTrue all) → (z : List ℤ) → InBox self.old.region.ranges z → IsPoint (record self.old.region.system { rows = self.old.region.system.rows ++ rows.now }) z → ⊥) }
        ensures columns { OnOk result (self.new.region.system.columns ≡ self.old.region.system.columns) }
        ensures begins { OnOk result (take (length self.old.region.system.rows) self.new.region.system.rows ≡ self.old.region.system.rows) }
        ensures ranges { OnOk result (self.new.region.ranges ≡ self.old.region.ranges) }
    {
        for row in rows {
            if !self.add_row(row)? {
                return Ok(false);
            }
        }
        Ok(true)
    }
}
