//! What became of the blueprints that were gone through.

ghost use Rattle.std.specs.Prelude.{◌≡◌, ◌+◌, ◌≤◌, [], Bool, false, true, IfOk, OnOk};
ghost use Rattle.omos_model.specs.Names.{Name};
ghost use Rattle.omos_model.specs.Namespace.{Space};
ghost use Rattle.omos_model.specs.Term.{Term};
ghost use Rattle.module_eval.specs.Costs.{IsBuiltAlone, StayBuilt, is_built};
ghost use Rattle.module_eval.specs.inside.Counted.{AreCounted, visit_of};
ghost use Rattle.module_eval.specs.inside.Kept.{AreKept, Finds, IsKept, IsRun};
ghost use Rattle.module_eval.specs.inside.Meant.{Means};
ghost use Rattle.module_eval.specs.inside.Reaches.{Fits, IsReach, with_added};
ghost use Rattle.module_eval.specs.inside.Times.{moved, once, away};

use crate::counts::Counts;
use crate::part::{Part, built};
use crate::reach::Reach;
use crate::read_path::ReadPath;
use crate::refused;
use crate::table_box::TableBox;
use indexmap::IndexMap;
use module_share::SharedTable;
use omos_base::{NoMemory, PathName};
use omos_model::Refusal;
use seeded_hash::Seed;
use sqlite_items::Boxed;
use std::alloc::Global;

/// What became of a blueprint, and the number of its first leaf there.
#[derive(Drop)]
pub struct Kept {
    first: u32,
    pub reach: Reach,
    /// Its table, or the first refusal of its operators. None where it was moved to its only use.
    built: Option<Result<SharedTable, Boxed<Refusal>>>,
}

/// What became of each blueprint that was gone through, but for the requested one.
#[derive(Drop)]
pub struct Memo<'a> {
    kept: IndexMap<ReadPath<'a>, Kept, Seed>,
    /// No blueprint that is open is kept, so that what is kept may be used without a walk.
    pub apart: bool,
    /// How many blueprints stood inside one another at most, since the innermost that is open for
    /// the first time was opened.
    pub deepest: usize,
}

/// What is found of a path's blueprint.
#[derive(Drop)]
pub enum Found {
    Kept(Kept),
    Nothing,
    NoMemory,
}

impl Kept {
    /// The same once more. A table isn't copied.
    fn twin(&self, alloc: Global) -> Result<Kept, NoMemory>
        ensures { IfOk result (λ kept. kept ≡ self.now) }
    {
        let first = self.first;
        let reach = self.reach;
        match &self.built {
            Some(Ok(table)) => {
                let built = Some(Ok(table.twin()?));
                Ok(Kept {
                    first,
                    reach,
                    built,
                })
            }
            Some(Err(refusal)) => {
                let built = Some(Err(Boxed::new(alloc, refused::again(refusal.get())?)?));
                Ok(Kept {
                    first,
                    reach,
                    built,
                })
            }
            None => Ok(Kept {
                first,
                reach,
                built: None,
            }),
        }
    }

    /// The blueprint once more, where the number of its first leaf is this one.
    ///
    /// A table is copied, which costs its names and references. One that was moved is wanted only
    /// where nodes are counted.
    pub fn again(self, alloc: Global, first: u32) -> Result<Part, NoMemory>
        ensures { (ns : Space) (path : Name) (counting : Bool) (t : Term) → IsKept ns path self
            → (counting ≡ false → moved self.built ≡ 0) → IsRun ns path first t
            → IfOk result (λ part. Means counting part t) }
    {
        let Kept {
            first: before,
            reach: _,
            built,
        } = self;
        match built {
            Some(Ok(table)) => {
                let again = table.instance(alloc, first.wrapping_sub(before))?;
                Ok(Part::Built(TableBox::new(alloc, again)?))
            }
            Some(Err(refusal)) => Ok(Part::Failed(refusal)),
            None => Ok(Part::Counted),
        }
    }
}

impl Kept {
    /// The blueprint once more, where its counts fit. They are added, and nothing is walked.
    pub fn use_again(self, counts: &mut Counts<'_>) -> Result<Part, NoMemory>
        requires counted { AreCounted counts.old }
        requires fits { Fits self.reach.added (visit_of counts.old) }
        ensures part { (ns : Space) (path : Name) (counting : Bool) (t : Term)
            → IsKept ns path self → (counting ≡ false → moved self.built ≡ 0)
            → IsRun ns path counts.old.leaves t → IfOk result (λ part. Means counting part t) }
        ensures sum { visit_of counts.new ≡ with_added self.reach.added (visit_of counts.old) }
        ensures read { counts.new.read ≡ counts.old.read }
        ensures counted { AreCounted counts.new }
    {
        let first = counts.leaves;
        self.reach.added.add_to(counts);
        self.again(counts.alloc(), first)
    }
}

impl<'a> Memo<'a> {
    /// Nothing is kept yet.
    pub fn new(alloc: Global, seed: Seed) -> Memo<'a>
        ensures kept { (ns : Space) → AreKept ns result.kept.entries }
        ensures none { result.kept.entries ≡ [] }
        ensures low { result.deepest ≡ 0 }
    {
        Memo {
            kept: IndexMap::with_hasher(alloc, seed),
            apart: true,
            deepest: 0,
        }
    }

    /// What became of a path's blueprint, if that is kept.
    pub fn find(&self, alloc: Global, path: &PathName) -> Found
        ensures { Finds result self.now.kept.entries path.now }
    {
        match self.kept.get(&ReadPath::of(path)) {
            Some(kept) => match kept.twin(alloc) {
                Ok(kept) => Found::Kept(kept),
                Err(NoMemory) => Found::NoMemory,
            },
            None => Found::Nothing,
        }
    }

    fn insert(&mut self, path: &'a PathName, kept: Kept) -> Result<(), NoMemory>
        ensures kept { OnOk result ((ns : Space) → IsKept ns path.now kept
            → AreKept ns self.old.kept.entries → AreKept ns self.new.kept.entries) }
        ensures here { OnOk result (is_built self.new.kept.entries path.now ≡ true) }
        ensures stays { OnOk result (StayBuilt self.old.kept.entries self.new.kept.entries) }
        ensures others { OnOk result
            (IsBuiltAlone self.old.kept.entries self.new.kept.entries path.now) }
        ensures away { OnOk result ((q : Name) → away self.new.kept.entries q
            ≤ away self.old.kept.entries q + once q path.now) }
        ensures unspent { moved kept.built ≡ 0 → OnOk result ((q : Name)
            → away self.new.kept.entries q ≤ away self.old.kept.entries q) }
        ensures apart { self.new.apart ≡ self.old.apart }
        ensures deepest { self.new.deepest ≡ self.old.deepest }
    {
        self.kept.insert(ReadPath::of(path), kept)?;
        Ok(())
    }

    /// Keeps what became of a path's blueprint, and gives it once more.
    ///
    /// Where this is its only use, it is moved there. Else a table is copied, which costs its names
    /// and references.
    pub fn keep(
        &mut self,
        alloc: Global,
        path: &'a PathName,
        first: u32,
        reach: Reach,
        only: bool,
        part: Part,
    ) -> Result<Part, NoMemory>
        ensures part { (ns : Space) (t : Term) → Means false part t → IsRun ns path.now first t
            → IfOk result (λ p. Means false p t) }
        ensures kept { (ns : Space) (t : Term) → Means false part t → IsRun ns path.now first t
            → IsReach ns path.now reach → AreKept ns self.old.kept.entries
            → OnOk result (AreKept ns self.new.kept.entries) }
        ensures here { (t : Term) → Means false part t
            → OnOk result (is_built self.new.kept.entries path.now ≡ true) }
        ensures stays { OnOk result (StayBuilt self.old.kept.entries self.new.kept.entries) }
        ensures others { OnOk result
            (IsBuiltAlone self.old.kept.entries self.new.kept.entries path.now) }
        ensures away { OnOk result ((q : Name) → away self.new.kept.entries q
            ≤ away self.old.kept.entries q + once q path.now) }
        ensures unspent { only ≡ false → OnOk result ((q : Name)
            → away self.new.kept.entries q ≤ away self.old.kept.entries q) }
        ensures apart { self.new.apart ≡ self.old.apart }
        ensures deepest { self.new.deepest ≡ self.old.deepest }
    {
        if only {
            let built = None;
            self.insert(
                path,
                Kept {
                    first,
                    reach,
                    built,
                },
            )?;
            return Ok(part);
        }
        match built(alloc, part)? {
            Some(Ok(table)) => {
                let table = SharedTable::of(alloc, table.into_inner())?;
                let own = table.instance(alloc, 0)?;
                let built = Some(Ok(table));
                self.insert(
                    path,
                    Kept {
                        first,
                        reach,
                        built,
                    },
                )?;
                Ok(Part::Built(TableBox::new(alloc, own)?))
            }
            Some(Err(refusal)) => {
                let built = Some(Err(Boxed::new(alloc, refused::again(refusal.get())?)?));
                self.insert(
                    path,
                    Kept {
                        first,
                        reach,
                        built,
                    },
                )?;
                Ok(Part::Failed(refusal))
            }
            None => Ok(Part::Counted),
        }
    }
}
