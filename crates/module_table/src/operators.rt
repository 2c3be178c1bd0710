//! The operators: each makes a table from tables, and is one step more in the caller's count.

ghost use Rattle.std.specs.Prelude.{◌≡◌, ◌+◌, IfOk};
ghost use Rattle.omos_model.specs.Op.{Rename, Restrict, Freeze, Hide, Show, CopyAs};
ghost use Rattle.module_table.specs.Stands.{IsObject, StandsForOverride, AnswersOp};
ghost use Rattle.module_table.specs.Stands.{AnswersMerge, AnswersMergeLeaf, in_place};

use crate::fault::{self, TableFault};
use crate::rules::{Bind, BindOutside, Reopen};
use crate::steps::Steps;
use crate::table::Table;
use crate::{exports, marks, refusals};
use omos_base::{Fault, NoMemory, Shared, SymName};
use omos_model::Entry;
use std::sync::ledger::Ledger;

impl Table {
    /// Puts two modules together, which may define no name twice: the definitions of both, and
    /// all references as they are. The refusal has the least name that both define.
    ///
    /// It costs the names of the smaller side, and the leaves of the right. The entries of one
    /// table are moved into the other, the fewer into the more.
    pub fn merge<L: Ledger>(
        left: Table,
        right: Table,
        steps: &mut Steps<L>,
    ) -> Result<Table, Fault<TableFault>>
        ensures answers { AnswersMerge result left right }
        ensures cost { steps.new ≡ steps.old + 1 }
    {
        steps.tick();
        let Table { exports, mut rows } = left;
        let Table {
            exports: more,
            rows: mut more_rows,
        } = right;
        if let Some(name) = exports::conflict(&exports, &more) {
            return Err(fault::conflict(name));
        }
        let exports = exports::unite(exports, more)?;
        rows.append(&mut more_rows)?;
        Ok(Table { exports, rows })
    }

    /// Puts an object's leaf behind the module, as `merge` does with the leaf's table, which isn't
    /// made. Where it is refused, the table stands for nothing.
    ///
    /// It costs the object's names and distinct references. The object is shared and not copied.
    pub fn merge_leaf<L: Ledger>(
        &mut self,
        number: u32,
        entry: Shared<Entry>,
        steps: &mut Steps<L>,
    ) -> Result<(), Fault<TableFault>>
        requires object { IsObject entry }
        ensures answers { AnswersMergeLeaf (in_place result self.new) self.old number entry }
        ensures cost { steps.new ≡ steps.old + 1 }
    {
        steps.tick();
        let Entry::Object(fragment) = entry.get() else {
            unreachable!()
        };
        if let Some(name) = exports::put_leaf(&mut self.exports, fragment.exports(), number)? {
            return Err(fault::conflict(name));
        }
        let alloc = *self.rows.allocator();
        self.rows.push(marks::row(alloc, number, entry)?)?;
        Ok(())
    }

    /// Puts two modules together: where both define a name, the right's definition stays. All
    /// references stay as they are, so what was bound to the left's definition still is.
    ///
    /// It costs what `merge` does.
    pub fn override_by<L: Ledger>(
        left: Table,
        right: Table,
        steps: &mut Steps<L>,
    ) -> Result<Table, NoMemory>
        ensures answers { IfOk result (λ t. StandsForOverride t left right) }
        ensures cost { steps.new ≡ steps.old + 1 }
    {
        steps.tick();
        let Table { exports, mut rows } = left;
        let Table {
            exports: more,
            rows: mut more_rows,
        } = right;
        let exports = exports::join(exports, more)?;
        rows.append(&mut more_rows)?;
        Ok(Table { exports, rows })
    }

    /// Gives the definition of one name, and what is open under it, to another. It is refused
    /// where the name is neither defined nor open, and where another definition has the new name.
    ///
    /// It costs one pass over the distinct references, in place; where the name isn't defined and
    /// is open, also one over the places of a leaf, up to the first that is open under it.
    pub fn rename<L: Ledger>(
        self,
        from: &SymName,
        to: &SymName,
        steps: &mut Steps<L>,
    ) -> Result<Table, Fault<TableFault>>
        ensures answers { AnswersOp result (Rename from.now to.now) self }
        ensures cost { steps.new ≡ steps.old + 1 }
    {
        steps.tick();
        let Table {
            mut exports,
            mut rows,
        } = self;
        if let Some(fault) = refusals::of_rename(&exports, rows.as_slice(), from, to) {
            return Err(fault);
        }
        exports::rename(&mut exports, from, to)?;
        marks::rewrite(&Reopen { from, to }, &mut rows)?;
        Ok(Table { exports, rows })
    }

    /// Takes the definition of a name out; references that are open under it stay open. It is
    /// refused where the name isn't defined.
    ///
    /// It costs one look-up.
    pub fn restrict<L: Ledger>(
        self,
        name: &SymName,
        steps: &mut Steps<L>,
    ) -> Result<Table, Fault<TableFault>>
        ensures answers { AnswersOp result (Restrict name.now) self }
        ensures cost { steps.new ≡ steps.old + 1 }
    {
        steps.tick();
        let Table { mut exports, rows } = self;
        let Some(_) = exports.swap_remove(name) else {
            return Err(fault::no_definition(name));
        };
        Ok(Table { exports, rows })
    }

    /// Binds what is open under a name to its definition here, which stays. It is refused where
    /// the name isn't defined.
    ///
    /// It costs one pass over the distinct references, in place.
    pub fn freeze<L: Ledger>(
        self,
        name: &SymName,
        steps: &mut Steps<L>,
    ) -> Result<Table, Fault<TableFault>>
        ensures answers { AnswersOp result (Freeze name.now) self }
        ensures cost { steps.new ≡ steps.old + 1 }
    {
        steps.tick();
        let Table { exports, mut rows } = self;
        let Some(target) = exports.get(name).copied() else {
            return Err(fault::no_definition(name));
        };
        let frozen = Bind { name, target };
        marks::rewrite(&frozen, &mut rows)?;
        Ok(Table { exports, rows })
    }

    /// Takes the definition of a name out, and binds what is open under it to it. It is refused
    /// where the name isn't defined.
    ///
    /// It costs one pass over the distinct references, in place.
    pub fn hide<L: Ledger>(
        self,
        name: &SymName,
        steps: &mut Steps<L>,
    ) -> Result<Table, Fault<TableFault>>
        ensures answers { AnswersOp result (Hide name.now) self }
        ensures cost { steps.new ≡ steps.old + 1 }
    {
        steps.tick();
        let Table {
            mut exports,
            mut rows,
        } = self;
        let Some(target) = exports.swap_remove(name) else {
            return Err(fault::no_definition(name));
        };
        let hidden = Bind { name, target };
        marks::rewrite(&hidden, &mut rows)?;
        Ok(Table { exports, rows })
    }

    /// Hides every name but these. It is refused for the first of them that isn't defined.
    ///
    /// It costs a look-up for each of the names and one pass over the distinct references, in
    /// place, with two look-ups at most for each; the definitions that go are dropped.
    pub fn show<L: Ledger>(
        self,
        names: &[SymName],
        steps: &mut Steps<L>,
    ) -> Result<Table, Fault<TableFault>>
        ensures answers { AnswersOp result (Show names.now) self }
        ensures cost { steps.new ≡ steps.old + 1 }
    {
        steps.tick();
        let Table { exports, mut rows } = self;
        if let Some(fault) = refusals::of_show(&exports, names) {
            return Err(fault);
        }
        let kept = exports::show(&exports, names)?;
        let rule = BindOutside {
            kept: &kept,
            exports: &exports,
        };
        marks::rewrite(&rule, &mut rows)?;
        Ok(Table {
            exports: kept,
            rows,
        })
    }

    /// Gives the definition of one name to another too. It is refused where the first isn't
    /// defined, and then where the second is.
    ///
    /// It costs three look-ups.
    pub fn copy_as<L: Ledger>(
        self,
        from: &SymName,
        to: &SymName,
        steps: &mut Steps<L>,
    ) -> Result<Table, Fault<TableFault>>
        ensures answers { AnswersOp result (CopyAs from.now to.now) self }
        ensures cost { steps.new ≡ steps.old + 1 }
    {
        steps.tick();
        let Table { mut exports, rows } = self;
        if let Some(fault) = refusals::of_copy(&exports, from, to) {
            return Err(fault);
        }
        exports::copy_as(&mut exports, from, to)?;
        Ok(Table { exports, rows })
    }
}
