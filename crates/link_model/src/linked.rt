//! A linked image.

ghost use Rattle.std.specs.Prelude.{◌≡◌, ◌+◌, ◌*◌, ◌^◌, ◌≤◌, IfOk, Ok, length};
ghost use Rattle.link_model.specs.Answer.{answer};
ghost use Rattle.link_model.specs.Module.{IsLinked, linked_of};

use crate::planned::Planned;
use omos_base::{Bytes, NoMemory, PathName, Row, Shared};
use omos_model::Stamped;
use std::marker::Model;

/// The image of a path at a base.
///
/// It keeps that its bytes are the answer of uncached evaluation on the namespace that its
/// footprint lists, and that its pages end at 2^47 at most.
#[derive(Drop)]
pub struct Linked {
    path: PathName,
    base: u64,
    pages: u32,
    bytes: Bytes,
    footprint: Shared<Row<Stamped>>,
}

impl Model for Linked {
    ghost use Rattle.omos_model.specs.contracts.expr.Expr as expr;
    ghost use Rattle.std.specs.Coded.{codes};
    ghost use Rattle.link_model.specs.Module.{IsLinked, LinkedImage, linked_image};

    ghost Value = { LinkedImage };

    ghost coded = { Prim.hlevel (codes, expr.the_row.coded) };

    ghost view = { λ l. linked_image l.path l.base l.pages l.bytes l.footprint };

    ghost invariant = { λ l. IsLinked (linked_image l.path l.base l.pages l.bytes l.footprint) };
}

impl Linked {
    /// The image of a plan at a base. It shares the plan's footprint.
    pub fn of(planned: &Planned, base: u64, bytes: Bytes) -> Result<Linked, NoMemory>
        requires answered { answer planned.now.evaluated.footprint
            planned.now.evaluated.path base ≡ Ok bytes }
        requires within { base + 4096 * planned.now.layout.pages ≤ 2 ^ 47 }
        ensures { IfOk result (λ l. l ≡ linked_of planned.now base bytes) }
    {
        let module = planned.module();
        Ok(Linked {
            path: module.path().copy(),
            base,
            pages: planned.layout().pages(),
            bytes,
            footprint: module.share_footprint()?,
        })
    }

    /// The path.
    pub fn path(&self) -> &PathName
        ensures path { result.now ≡ self.now.path }
        ensures linked { IsLinked self.now }
    {
        &self.path
    }

    /// The address at which it stands.
    pub fn base(&self) -> u64
        ensures base { result ≡ self.now.base }
        ensures linked { IsLinked self.now }
    {
        self.base
    }

    /// How many pages of 4,096 bytes it takes from there on, at least one.
    pub fn pages(&self) -> u32
        ensures pages { result ≡ self.now.pages }
        ensures linked { IsLinked self.now }
    {
        self.pages
    }

    /// The file: a static executable of at most 8,388,608 bytes.
    pub fn bytes(&self) -> &[u8]
        ensures bytes { result.now ≡ self.now.bytes }
        ensures short { length self.now.bytes ≤ 8388608 }
        ensures linked { IsLinked self.now }
    {
        self.bytes.as_slice()
    }

    /// The distinct paths that were read, in order of first reading, with their stamps and entries.
    pub fn footprint(&self) -> &[Stamped]
        ensures footprint { result.now ≡ self.now.footprint }
        ensures linked { IsLinked self.now }
    {
        self.footprint.get().as_slice()
    }
}
