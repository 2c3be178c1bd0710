//! A blueprint's expression.

use omos_base::{PathName, SymName};
use sqlite_items::{Boxed, Items};

/// What a blueprint says is to be linked. Operators work on modules, and a path stands for one.
#[derive(Drop)]
pub enum Expr {
    /// The object or the blueprint under a path.
    Path(PathName),
    /// All definitions of the operands, of which no two may share a name.
    Merge(Items<Expr>),
    /// The definitions of both, of which the right one's win.
    Override(Boxed<Expr>, Boxed<Expr>),
    /// A definition, and the references that are open under its name, under another name.
    Rename {
        from: SymName,
        to: SymName,
        body: Boxed<Expr>,
    },
    /// A definition goes; references stay open.
    Restrict {
        name: SymName,
        body: Boxed<Expr>,
    },
    /// The open references of a name are bound here; the definition stays.
    Freeze {
        name: SymName,
        body: Boxed<Expr>,
    },
    /// The open references of a name are bound here, and the definition goes.
    Hide {
        name: SymName,
        body: Boxed<Expr>,
    },
    /// All other definitions are hidden.
    Show {
        names: Items<SymName>,
        body: Boxed<Expr>,
    },
    /// A second name for a definition.
    CopyAs {
        from: SymName,
        to: SymName,
        body: Boxed<Expr>,
    },
}
