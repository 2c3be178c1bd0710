//! The layout of a program, or why it has no image.

ghost use Rattle.std.specs.Prelude.{◌≡◌, ◌+◌, ◌*◌, ◌^◌, ◌≤◌, IfOk, length};
ghost use Rattle.omos_model.specs.declared.fragment.Group.{Group};
ghost use Rattle.link_model.specs.Groups.{bytes_of, groups_of};
ghost use Rattle.link_model.specs.Layout as model;
ghost use Rattle.link_model.specs.Plan.{entry_of, no_start, unresolved};
ghost use Rattle.link_layout.specs.inside.ByGroup.{AreAtMost};
ghost use Rattle.link_layout.specs.IsLaid.{IsLaid};
ghost use Rattle.link_layout.specs.Layout.{AreSizes};
ghost use Rattle.link_layout.specs.Program.{IsFew, Lays, program_meaning, parts_in};
ghost use Rattle.link_layout.specs.inside.References.{RefusesFor};

use crate::pieces::ends_of;
use crate::places::places_of;
use crate::program::{Program, program_of};
use crate::references::check_references;
use crate::sizes::{all_pages, groups_of};
use crate::slots::slots_of;
use indexmap::IndexSet;
use link_model::{Evaluated, Groups, Layout, Slot};
use omos_base::{Fault, NoMemory, Row};
use omos_model::{Refusal, Start, Target};
use seeded_hash::Seed;
use std::alloc::Global;

/// With the header page, 8,388,608 bytes.
const MAX_PAGES: u64 = 2_047;

/// The slots of a program, and where its groups stand.
fn measure(
    alloc: Global,
    seed: Seed,
    program: &Program,
) -> Result<(IndexSet<Slot, Seed>, Groups), NoMemory>
    requires { IsFew program.now }
    ensures slots { IfOk result (λ x. x.0.keys ≡ model.slots_of (parts_in program.now)) }
    ensures groups { IfOk result (λ x. x.1 ≡ groups_of (parts_in program.now)) }
    ensures sizes { IfOk result (λ x. AreSizes x.1.sizes (parts_in program.now)) }
    ensures near { IfOk result (λ x. AreAtMost (2 ^ 49) x.1.sizes) }
    ensures begins { IfOk result (λ x. (g : Group) → bytes_of x.1.begins g ≤ 2 ^ 52) }
    ensures fit { IfOk result (λ x. x.1.slots + 8 * length x.0.keys ≤ 2 ^ 56) }
{
    let slots = slots_of(alloc, seed, program.leaves, program.landings)?;
    let groups = groups_of(&ends_of(program.leaves), slots.as_slice());
    Ok((slots, groups))
}

/// What the start is, if the program has one. It refuses a start whose name isn't defined: L10.
fn start_of(program: &Program) -> Result<Option<Target>, Fault<Refusal>>
    ensures refusal { RefusesFor
        (no_start (program_meaning program.now) program.now.start.now) result }
    ensures entry { IfOk result
        (λ entry. entry ≡ entry_of (program_meaning program.now) program.now.start.now) }
{
    let Start::Named(name) = program.start else {
        return Ok(None);
    };
    if program.entry.is_some() {
        return Ok(program.entry);
    }
    Err(Fault::Refused(Refusal::NoStart { name: name.copy()? }))
}

/// Refuses the first reference that is bound to nothing and isn't weak: L11.
fn check_landings(program: &Program) -> Result<(), Fault<Refusal>>
    requires { IsFew program.now }
    ensures { RefusesFor (unresolved (parts_in program.now)) result }
{
    check_references(program.leaves, program.landings)
}

/// Where the pieces of each leaf stand.
fn place(alloc: Global, program: &Program, groups: &Groups) -> Result<Row<Row<u64>>, NoMemory>
    requires few { IsFew program.now }
    requires groups { groups.now ≡ groups_of (parts_in program.now) }
    requires begins { (g : Group) → bytes_of groups.now.begins g ≤ 2 ^ 52 }
    ensures { IfOk result (λ places. places ≡ model.places_of (parts_in program.now)) }
{
    places_of(alloc, &groups.begins, program.leaves)
}

/// Where the groups, pieces and slots of a program stand, or the first reason why it has no image.
/// The seed is what the table of its slots hashes by.
///
/// The reasons are, in this order:
/// - L9, there are more than 2,047 pages of 4,096 bytes; it carries how many there would be;
/// - L10, the start's name isn't defined;
/// - L11, a reference is bound to nothing and isn't weak; the first by leaf and number.
///
/// It passes twice over the pieces and once over the fields, and looks each target of a GOT fixup
/// up in a table, which the layout keeps. What an object's references land on is looked at once a
/// symbol; only where something isn't bound they are gone through one by one. No object is copied.
/// Want of memory may come where any of this grows.
pub fn lay_program(alloc: Global, seed: Seed, program: &Program) -> Result<Layout, Fault<Refusal>>
    requires few { IsFew program.now }
    ensures laid { Lays result program.now }
{
    let (slots, groups) = measure(alloc, seed, program)?;
    let pages = all_pages(&groups.sizes);
    if pages > MAX_PAGES {
        return Err(Fault::Refused(Refusal::ImageTooLarge { pages }));
    }
    let entry = start_of(program)?;
    check_landings(program)?;
    let places = place(alloc, program, &groups)?;
    Ok(Layout::of(pages.max(1) as u32, groups, places, slots, entry))
}

/// The layout of a module, as `lay_program` finds it. The table of its slots hashes by the module's
/// seed, and the start is looked for among its names once.
pub fn lay(alloc: Global, evaluated: &Evaluated) -> Result<Layout, Fault<Refusal>>
    ensures laid { IsLaid result evaluated.now }
{
    lay_program(alloc, evaluated.seed(), &program_of(evaluated))
}
