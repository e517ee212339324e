//! What is visible at a place.

ghost use Rattle.std.specs.Prelude.{◌≡◌, ◌∷◌, [], None, OnOk, OnErr, MatchOption};
ghost use Rattle.std.specs.Option.{option_map};
ghost use Rattle.std.specs.List.{find};
ghost use Rattle.affc_lex.specs.Bytes.{same};
ghost use Rattle.affc_grammar.specs.Names as names;
ghost use Rattle.affc_grammar.specs.Grammar.{Name};
ghost use Rattle.affc_names.specs.Things.{thing_seen};
ghost use Rattle.affc_names.specs.Visible.{without, thing_in};
ghost use Rattle.affc_names.specs.Table.{latest_first, AreApart};

use crate::spread::Spread;
use affc_ast::tree::Role;
use indexmap::IndexMap;
use std::alloc::{AllocError, Global};
use std::marker::Model;

/// What a name stands for; numbers and arrays are counted from 0.
#[derive(Clone, Copy)]
pub(crate) enum Thing {
    Function,
    Number {
        id: u32,
        is_iterator: bool,
    },
    Array {
        id: u32,
        role: Role,
        dimensions: usize,
    },
}

/// A name is added to those of a table, where it isn't there.
fn insert(
    things: &mut IndexMap<String, Thing, Spread>,
    alloc: Global,
    name: &str,
    thing: Thing,
) -> Result<(), AllocError>
    requires apart { AreApart (latest_first things.old.entries) }
    requires absent { thing_in (find (λ v. same v.name name.now) (latest_first things.old.entries)) ≡ None }
    ensures added { OnOk result (latest_first things.new.entries ≡ record { name = name.now; thing = thing_seen thing } ∷ latest_first things.old.entries) }
    ensures err { OnErr result (things.new.entries ≡ things.old.entries) }
{
    let name = String::from_str(alloc, name)?;
    match things.insert(name, thing) {
        Ok(_) => Ok(()),
        Err(_) => Err(AllocError),
    }
}

/// The thing that was added last, which is there no longer.
fn pop(things: &mut IndexMap<String, Thing, Spread>) -> Option<Thing>
    ensures { MatchOption result
        ((latest_first things.old.entries ≡ []) × (things.new.entries ≡ things.old.entries))
        (λ thing. (w : Name) × (latest_first things.old.entries ≡ record { name = w; thing = thing_seen thing } ∷ latest_first things.new.entries)) }
{
    let (_, thing) = things.pop()?;
    Some(thing)
}

/// The visible names, each with what it stands for; no name is visible twice.
#[derive(Drop)]
pub(crate) struct Scope {
    has_prelude: bool,
    things: IndexMap<String, Thing, Spread>,
    numbers: u32,
    arrays: u32,
}

impl Model for Scope {
    ghost use Rattle.affc_grammar.specs.Names as grammar;

    ghost Value = { grammar.Scope };

    ghost use Rattle.affc_names.specs.Inside.{shown, IsCounted};

    ghost view = { shown };

    ghost invariant = { IsCounted };
}

impl Scope {
    /// Nothing is visible.
    pub(crate) fn new(alloc: Global, spread: Spread, has_prelude: bool) -> Scope
        ensures { result ≡ record { has_prelude = has_prelude; visible = [] } }
    {
        Scope {
            has_prelude,
            things: IndexMap::with_hasher(alloc, spread),
            numbers: 0,
            arrays: 0,
        }
    }

    pub(crate) fn has_prelude(&self) -> bool
        ensures { result ≡ self.now.has_prelude }
    {
        self.has_prelude
    }

    pub(crate) fn find(&self, name: &str) -> Option<Thing>
        ensures { option_map thing_seen result ≡ names.thing_of self.now name.now }
    {
        self.things.get(name).copied()
    }

    pub(crate) fn add_function(&mut self, alloc: Global, name: &str) -> Result<(), AllocError>
        requires { names.thing_of self.old name.now ≡ None }
        ensures { OnOk result (self.new ≡ names.with_thing self.old name.now names.function) }
    {
        insert(&mut self.things, alloc, name, Thing::Function)?;
        Ok(())
    }

    pub(crate) fn add_number(
        &mut self,
        alloc: Global,
        name: &str,
        is_iterator: bool,
    ) -> Result<(), AllocError>
        requires { names.thing_of self.old name.now ≡ None }
        ensures { OnOk result (self.new ≡ names.with_number is_iterator self.old name.now) }
    {
        let id = self.numbers;
        if id == u32::MAX {
            return Err(AllocError);
        }
        insert(
            &mut self.things,
            alloc,
            name,
            Thing::Number { id, is_iterator },
        )?;
        self.numbers = id + 1;
        Ok(())
    }

    pub(crate) fn add_array(
        &mut self,
        alloc: Global,
        name: &str,
        role: Role,
        dimensions: usize,
    ) -> Result<(), AllocError>
        requires { names.thing_of self.old name.now ≡ None }
        ensures { OnOk result (self.new ≡ names.with_array self.old name.now role dimensions) }
    {
        let id = self.arrays;
        if id == u32::MAX {
            return Err(AllocError);
        }
        let thing = Thing::Array {
            id,
            role,
            dimensions,
        };
        insert(&mut self.things, alloc, name, thing)?;
        self.arrays = id + 1;
        Ok(())
    }

    /// The name that was added last is visible no longer.
    pub(crate) fn forget_last(&mut self)
        ensures { self.new ≡ without 1 self.old }
    {
        let last = pop(&mut self.things);
        match last {
            Some(Thing::Number { .. }) => self.numbers -= 1,
            Some(Thing::Array { .. }) => self.arrays -= 1,
            _ => {}
        }
    }
}
