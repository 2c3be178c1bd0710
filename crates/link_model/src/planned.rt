//! A module that is ready to be placed.

ghost use Rattle.std.specs.Prelude.{◌≡◌, ◌≤◌, IsTrue};
ghost use Rattle.omos_model.specs.ImageParts.{is_range};
ghost use Rattle.link_model.specs.Module.{IsReady, ready_of};

use crate::evaluated::Evaluated;
use crate::layout::Layout;
use omos_base::PathName;
use omos_model::Stamped;
use std::marker::Model;

/// An evaluated module with its layout: all of an image but its base.
///
/// It keeps that the layout is that of the path's plan.
#[derive(Drop)]
pub struct Planned {
    evaluated: Evaluated,
    layout: Layout,
}

impl Model for Planned {
    ghost use Rattle.omos_model.specs.contracts.expr.Expr as expr;
    ghost use Rattle.std.specs.Coded.{codes};
    ghost use Rattle.link_model.specs.Module.{IsReady, Ready, ready_of};

    ghost Value = { Ready };

    ghost coded = { Prim.hlevel (codes, expr.the_row.coded) };

    ghost view = { λ p. ready_of p.evaluated p.layout };

    ghost invariant = { λ p. IsReady (ready_of p.evaluated p.layout) };
}

impl Planned {
    /// A module with the layout of its plan. It takes no memory.
    pub fn of(evaluated: Evaluated, layout: Layout) -> Planned
        requires { IsReady (ready_of evaluated layout) }
        ensures { result ≡ ready_of evaluated layout }
    {
        Planned { evaluated, layout }
    }

    /// The module.
    pub fn module(&self) -> &Evaluated
        ensures evaluated { result.now ≡ self.now.evaluated }
        ensures ready { IsReady self.now }
    {
        &self.evaluated
    }

    /// The layout.
    pub fn layout(&self) -> &Layout
        ensures layout { result.now ≡ self.now.layout }
        ensures ready { IsReady self.now }
    {
        &self.layout
    }

    /// The path.
    pub fn path(&self) -> &PathName
        ensures { result.now ≡ self.now.evaluated.path }
    {
        self.evaluated.path()
    }

    /// How many pages of 4,096 bytes it needs: 1 to 2,047.
    pub fn pages(&self) -> u32
        ensures pages { result ≡ self.now.layout.pages }
        ensures some { 1 ≤ self.now.layout.pages }
        ensures few { self.now.layout.pages ≤ 2047 }
    {
        self.layout.pages()
    }

    /// The least address at which it may be placed.
    pub fn lo(&self) -> u64
        ensures lo { result ≡ self.now.evaluated.lo }
        ensures range { IsTrue (is_range self.now.evaluated.lo self.now.evaluated.hi) }
    {
        self.evaluated.lo()
    }

    /// The address at which it has to end at the latest.
    pub fn hi(&self) -> u64
        ensures hi { result ≡ self.now.evaluated.hi }
        ensures range { IsTrue (is_range self.now.evaluated.lo self.now.evaluated.hi) }
    {
        self.evaluated.hi()
    }

    /// The distinct paths that were read, in order of first reading, with their stamps and entries.
    pub fn footprint(&self) -> &[Stamped]
        ensures { result.now ≡ self.now.evaluated.footprint }
    {
        self.evaluated.footprint()
    }
}
