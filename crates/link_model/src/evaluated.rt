//! A path that was evaluated.

ghost use Rattle.std.specs.Prelude.{◌≡◌, IfOk, IsSome, IsTrue, Some};
ghost use Rattle.omos_model.specs.ImageParts.{is_range};
ghost use Rattle.link_model.specs.Module.{IsModule, found, landing_at, module_of};

use dict_row::DictRow;
use omos_base::{NoMemory, PathName, Row, Shared, SymName};
use omos_model::{Entry, Landing, Stamped, Start, Target};
use seeded_hash::Seed;
use std::marker::Model;

/// A name that a module defines, and what it is.
#[derive(Debug, Drop)]
pub struct Found {
    pub name: SymName,
    pub target: Target,
}

/// A path that was evaluated: its objects, what their references land on, and what it was
/// evaluated on.
///
/// It keeps that it is the evaluation of the path on the namespace that its footprint lists.
#[derive(Drop)]
pub struct Evaluated {
    path: PathName,
    leaves: Row<Shared<Entry>>,
    landings: Row<DictRow<Landing>>,
    names: Row<Found>,
    footprint: Shared<Row<Stamped>>,
    start: Start,
    lo: u64,
    hi: u64,
    seed: Seed,
}

impl Model for Evaluated {
    ghost use Rattle.omos_model.specs.contracts.expr.Expr as expr;
    ghost use Rattle.std.specs.Coded.{codes};
    ghost use Rattle.link_model.specs.Module.{Module, IsModule, module_of};

    ghost Value = { Module };

    ghost coded = { Prim.hlevel (codes, expr.the_row.coded) };

    ghost view = { λ e.
        module_of e.path e.leaves e.landings e.names e.footprint e.start e.lo e.hi };

    ghost invariant = { λ e.
        IsModule (module_of e.path e.leaves e.landings e.names e.footprint e.start e.lo e.hi) };
}

impl Evaluated {
    /// The evaluation of a path. It takes no memory. Tables of its targets hash by the seed.
    pub fn of(
        path: PathName,
        leaves: Row<Shared<Entry>>,
        landings: Row<DictRow<Landing>>,
        names: Row<Found>,
        footprint: Shared<Row<Stamped>>,
        start: Start,
        lo: u64,
        hi: u64,
        seed: Seed,
    ) -> Evaluated
        requires { IsModule (module_of path leaves landings names footprint start lo hi) }
        ensures { result ≡ module_of path leaves landings names footprint start lo hi }
    {
        Evaluated {
            path,
            leaves,
            landings,
            names,
            footprint,
            start,
            lo,
            hi,
            seed,
        }
    }

    /// The path.
    pub fn path(&self) -> &PathName
        ensures path { result.now ≡ self.now.path }
        ensures evaluated { IsModule self.now }
    {
        &self.path
    }

    /// Its leaves, each an object, from left to right.
    pub fn leaves(&self) -> &[Shared<Entry>]
        ensures leaves { result.now ≡ self.now.leaves }
        ensures evaluated { IsModule self.now }
    {
        self.leaves.as_slice()
    }

    /// What a fixup of a leaf lands on.
    pub fn landing(&self, leaf: u32, fixup: u32) -> &Landing
        requires { IsSome (landing_at self.now leaf fixup) }
        ensures landing { landing_at self.now leaf fixup ≡ Some result.now }
        ensures evaluated { IsModule self.now }
    {
        self.landings.as_slice()[leaf as usize].get(fixup as usize)
    }

    /// What the fixups land on: for each leaf, a landing for each of its fixups, in order.
    pub fn landings(&self) -> &[DictRow<Landing>]
        ensures landings { result.now ≡ self.now.landings }
        ensures evaluated { IsModule self.now }
    {
        self.landings.as_slice()
    }

    /// What a name is defined as, if it is defined. It looks through the defined names.
    pub fn find(&self, name: &SymName) -> Option<Target>
        ensures found { result ≡ found self.now.names name.now }
        ensures evaluated { IsModule self.now }
    {
        let names = self.names.as_slice();
        names.iter().find(|x| *name == x.name).map(|x| x.target)
    }

    /// The distinct paths that were read, in order of first reading, with their stamps and entries.
    pub fn footprint(&self) -> &[Stamped]
        ensures footprint { result.now ≡ self.now.footprint }
        ensures evaluated { IsModule self.now }
    {
        self.footprint.get().as_slice()
    }

    /// A second owner of the footprint, of which nothing is copied.
    pub fn share_footprint(&self) -> Result<Shared<Row<Stamped>>, NoMemory>
        ensures { IfOk result (λ footprint. footprint ≡ self.now.footprint) }
    {
        self.footprint.twin()
    }

    /// Where a program of it starts.
    pub fn start(&self) -> &Start
        ensures { result.now ≡ self.now.start }
    {
        &self.start
    }

    /// The least address at which it may be placed.
    pub fn lo(&self) -> u64
        ensures lo { result ≡ self.now.lo }
        ensures range { IsTrue (is_range self.now.lo self.now.hi) }
    {
        range_is_lawful(self);
        self.lo
    }

    /// The address at which it has to end at the latest.
    pub fn hi(&self) -> u64
        ensures hi { result ≡ self.now.hi }
        ensures range { IsTrue (is_range self.now.lo self.now.hi) }
    {
        range_is_lawful(self);
        self.hi
    }

    /// What tables of its targets hash by. Contracts don't see it, since no image depends on it.
    pub fn seed(&self) -> Seed {
        self.seed
    }
}

/// A module's range is that of its path's entry, which was read first. Nothing is copied.
fn range_is_lawful(evaluated: &Evaluated)
    ensures { IsTrue (is_range evaluated.now.lo evaluated.now.hi) }
{
    let _path = evaluated.path();
    match evaluated.footprint()[0].entry.get() {
        Entry::Object(_) => {}
        Entry::Blueprint(image) => {
            let _lo = image.lo();
        }
    }
}
