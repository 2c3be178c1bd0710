//! Operators on one expression, with their names.

ghost use Rattle.std.specs.Prelude.{◌≡◌, IfOk};
ghost use Rattle.bp_tree.specs.Grammar.{applied};
ghost use Rattle.bp_tree.specs.inside.Symbols.{op_meant};

use omos_base::{NoMemory, SymName};
use omos_model::Expr;
use sqlite_items::{Boxed, Items};
use std::alloc::Global;

/// An operator that waits for its operand.
#[derive(Drop)]
pub(crate) enum Operator {
    Rename(SymName, SymName),
    Restrict(SymName),
    Freeze(SymName),
    Hide(SymName),
    Show(Items<SymName>),
    CopyAs(SymName, SymName),
}

impl Operator {
    /// The operator on an operand.
    pub(crate) fn apply(self, alloc: Global, operand: Expr) -> Result<Expr, NoMemory>
        ensures { IfOk result (λ e. e ≡ applied (op_meant self) operand) }
    {
        let body = Boxed::new(alloc, operand)?;
        Ok(match self {
            Operator::Rename(from, to) => Expr::Rename { from, to, body },
            Operator::Restrict(name) => Expr::Restrict { name, body },
            Operator::Freeze(name) => Expr::Freeze { name, body },
            Operator::Hide(name) => Expr::Hide { name, body },
            Operator::Show(names) => Expr::Show { names, body },
            Operator::CopyAs(from, to) => Expr::CopyAs { from, to, body },
        })
    }
}
