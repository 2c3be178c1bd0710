//! What stands under a path of the namespace.

ghost use Rattle.std.specs.Prelude.{◌≡◌, IfOk};
ghost use Rattle.omos_model.specs.ImageParts.{IsImage, image_of};

use crate::expr::Expr;
use crate::fragment::Fragment;
use omos_base::{NoMemory, PathName, Shared, SymName};
use std::marker::Model;

/// Where a program starts.
#[derive(Debug, Drop)]
pub enum Start {
    /// At the definition of this name.
    Named(SymName),
    NoEntry,
}

/// A blueprint, seen as the record of these fields.
#[derive(Drop)]
pub struct Image {
    start: Start,
    /// The least address and the end of the range in which it may be placed.
    lo: u64,
    hi: u64,
    body: Expr,
}

impl Model for Image {
    ghost use Rattle.omos_model.specs.contracts.expr.Expr as expr;
    ghost use Rattle.std.specs.Coded.{codes};
    ghost use Rattle.omos_model.specs.ImageParts.{ImageParts, image_of, IsImage};

    ghost Value = { ImageParts };

    ghost coded = { Prim.hlevel (codes, expr.the_row.coded) };

    ghost view = { λ i. image_of i.start i.lo i.hi i.body };

    ghost invariant = { λ i. IsImage (image_of i.start i.lo i.hi i.body) };
}

impl Image {
    /// A blueprint of a lawful range, whose expression has a text.
    pub fn of(start: Start, lo: u64, hi: u64, body: Expr) -> Image
        requires { IsImage (image_of start lo hi body) }
        ensures { result ≡ image_of start lo hi body }
    {
        Image {
            start,
            lo,
            hi,
            body,
        }
    }

    /// Where a program of it starts.
    pub fn start(&self) -> &Start
        ensures start { result.now ≡ self.now.start }
        ensures lawful { IsImage self.now }
    {
        &self.start
    }

    /// The least address at which it may be placed.
    pub fn lo(&self) -> u64
        ensures lo { result ≡ self.now.lo }
        ensures lawful { IsImage self.now }
    {
        self.lo
    }

    /// The address at which it has to end at the latest.
    pub fn hi(&self) -> u64
        ensures hi { result ≡ self.now.hi }
        ensures lawful { IsImage self.now }
    {
        self.hi
    }

    /// Its expression.
    pub fn body(&self) -> &Expr
        ensures body { result.now ≡ self.now.body }
        ensures lawful { IsImage self.now }
    {
        &self.body
    }
}

/// What stands under a path.
#[derive(Drop)]
pub enum Entry {
    Object(Fragment),
    Blueprint(Image),
}

/// An entry with its path, and the number of the version that published it. It is small, and a
/// second one shares the path and the entry.
#[derive(Drop)]
pub struct Stamped {
    pub path: Shared<PathName>,
    pub stamp: u64,
    pub entry: Shared<Entry>,
}

impl Stamped {
    /// A second owner of the entry, with its path and stamp. Neither is copied.
    pub fn twin(&self) -> Result<Stamped, NoMemory>
        ensures { IfOk result (λ s. s ≡ self.now) }
    {
        Ok(Stamped {
            path: self.path.twin()?,
            stamp: self.stamp,
            entry: self.entry.twin()?,
        })
    }
}
