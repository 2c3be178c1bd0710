//! A table of one module, made from an object, and what is read of it (operators.rs makes tables
//! from tables).

ghost use Rattle.std.specs.Prelude.{◌≡◌, IfOk, IsSome, Some};
ghost use Rattle.omos_model.specs.Term.{Term};
ghost use Rattle.omos_model.specs.Definition.{definition};
ghost use Rattle.omos_model.specs.State.{state, states, in_rows};
ghost use Rattle.module_table.specs.TableParts.{defined_in, AreNames};
ghost use Rattle.module_table.specs.Stands.{StandsFor, IsObject, StandsForLeaf};

use crate::exports::Definitions;
use crate::{exports, marks, names};
use omos_base::{NoMemory, Row, Shared, SymName};
use omos_model::{Entry, Mark, MarkRow, Target};
use seeded_hash::Seed;
use std::alloc::Global;
use std::marker::Model;

/// What a module defines and refers to, seen as its definitions and its leaves.
#[derive(Drop)]
pub struct Table {
    pub(crate) exports: Definitions,
    pub(crate) rows: Vec<MarkRow>,
}

impl Model for Table {
    ghost use Rattle.module_table.specs.TableParts.{TableParts};
    ghost use Rattle.omos_model.specs.contracts.expr.Expr as expr;
    ghost use Rattle.std.specs.Coded.{codes};

    ghost Value = { TableParts };

    ghost coded = { Prim.hlevel (codes, expr.the_row.coded) };

    ghost view = { λ t. record { exports = t.exports.entries; rows = t.rows.items } };
}

impl Table {
    /// The table of one object: each name of it is defined, each reference by name is open. The
    /// seed is that of its hashes, and of each table that an operator makes of it.
    ///
    /// The object is shared and not copied. The cost is that of its names and of its distinct
    /// references: what many relocations aim at alike is one.
    pub fn leaf(
        alloc: Global,
        seed: Seed,
        number: u32,
        entry: Shared<Entry>,
    ) -> Result<Table, NoMemory>
        requires { IsObject entry }
        ensures { IfOk result (λ t. StandsForLeaf t number entry) }
    {
        let Entry::Object(fragment) = entry.get() else {
            unreachable!()
        };
        let exports = exports::of_leaf(alloc, seed, fragment.exports(), number)?;
        let mut rows = Vec::with_capacity(alloc, 1)?;
        rows.push(marks::row(alloc, number, entry)?)?;
        Ok(Table { exports, rows })
    }

    /// The table of these definitions and references.
    pub fn of_parts(exports: Definitions, rows: Vec<MarkRow>) -> Table
        ensures { result ≡ record { exports = exports.entries; rows = rows.items } }
    {
        Table { exports, rows }
    }

    /// What the name is defined as, or None exactly where it isn't defined: one look-up.
    pub fn find(&self, name: &SymName) -> Option<Target>
        ensures held { result ≡ defined_in self.now name.now }
        ensures meant { (t : Term) → StandsFor self.now t → result ≡ definition t name.now }
    {
        self.exports.get(name).copied()
    }

    /// What the fixup of a leaf is at the top of the module, found leaf by leaf.
    pub fn reference(&self, leaf: u32, fixup: u32) -> &Mark
        requires { IsSome (in_rows self.now.rows leaf fixup) }
        ensures held { in_rows self.now.rows leaf fixup ≡ Some result.now }
        ensures meant { (t : Term) → StandsFor self.now t → state t leaf fixup ≡ Some result.now }
    {
        marks::reference(self.rows.as_slice(), leaf, fixup)
    }

    /// The leaves, from left to right, each with what its fixups are at the top of the module.
    pub fn rows(&self) -> &[MarkRow]
        ensures held { result.now ≡ self.now.rows }
        ensures meant { (t : Term) → StandsFor self.now t → result.now ≡ states t }
    {
        self.rows.as_slice()
    }

    /// The definitions, in no order that counts.
    pub fn definitions(&self) -> &Definitions
        ensures { result.now.entries ≡ self.now.exports }
    {
        &self.exports
    }

    /// The names that are defined, in the order of bytes, each once; their bytes are shared.
    pub fn names(&self) -> Result<Row<SymName>, NoMemory>
        ensures held { IfOk result (λ names. AreNames names (defined_in self.now)) }
        ensures meant { IfOk result
            (λ names. (t : Term) → StandsFor self.now t → AreNames names (definition t)) }
    {
        names::of(*self.exports.allocator(), &self.exports)
    }
}
