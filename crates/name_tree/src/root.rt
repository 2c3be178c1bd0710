//! The root of a tree.

ghost use Rattle.std.specs.Prelude.{◌≡◌, [], ◌<◌, ◌++◌, length, IfOk};
ghost use Rattle.name_tree.specs.Parts.{branches_of};

use crate::few::{Few, Small, append};
use crate::joint;
use crate::pages::Branch;
use omos_base::{NoMemory, Row, Shared};
use std::alloc::Global;

/// The branches: up to 8 or up to 64 in place, more in a list of their own. A publish makes all
/// places of the root anew; more than 8 branches have 9,216 paths at least.
#[derive(Drop)]
pub enum Root {
    Small(Shared<Small<Shared<Branch>>>),
    Few(Shared<Few<Shared<Branch>>>),
    Many(Shared<Row<Shared<Branch>>>),
}

impl Root {
    /// No branches.
    pub fn empty(alloc: Global) -> Result<Root, NoMemory>
        ensures { IfOk result (λ root. branches_of root ≡ []) }
    {
        Ok(Root::Many(Shared::of(alloc, Row::new(alloc))?))
    }

    /// A second owner of the same branches.
    pub fn twin(&self) -> Result<Root, NoMemory>
        ensures { IfOk result (λ root. root ≡ self.now) }
    {
        match self {
            Root::Small(branches) => Ok(Root::Small(branches.twin()?)),
            Root::Few(branches) => Ok(Root::Few(branches.twin()?)),
            Root::Many(branches) => Ok(Root::Many(branches.twin()?)),
        }
    }

    /// The branches.
    pub fn as_slice(&self) -> &[Shared<Branch>]
        ensures { result.now ≡ branches_of self.now }
    {
        match self {
            Root::Small(branches) => branches.get().as_slice(),
            Root::Few(branches) => branches.get().as_slice(),
            Root::Many(branches) => branches.get().as_slice(),
        }
    }

    /// A root of the branches of three slices.
    pub fn of(
        alloc: Global,
        front: &[Shared<Branch>],
        new: &[Shared<Branch>],
        back: &[Shared<Branch>],
    ) -> Result<Root, NoMemory>
        requires { 0 < length (front.now ++ new.now ++ back.now) }
        ensures { IfOk result (λ root. branches_of root ≡ front.now ++ new.now ++ back.now) }
    {
        let count = joint::count_of(front, new, back);
        if count <= 8 {
            return Ok(Root::Small(Small::of(alloc, front, new, back, count)?));
        }
        if count <= 64 {
            return Ok(Root::Few(Few::of(alloc, front, new, back, 0, count)?));
        }
        let mut branches = Row::from_vec(Vec::with_capacity(alloc, count)?);
        append(&mut branches, front)?;
        append(&mut branches, new)?;
        append(&mut branches, back)?;
        Ok(Root::Many(Shared::of(alloc, branches)?))
    }
}
