//! How large the groups are, and where each begins.

ghost use Rattle.std.specs.Prelude.{◌≡◌, ◌+◌, ◌*◌, ◌^◌, ◌<◌, ◌≤◌, length};
ghost use Rattle.omos_model.specs.declared.fragment.Group.{Group};
ghost use Rattle.link_model.specs.Layout.{all_pages, end_with_slots, program_pieces, slots_of};
ghost use Rattle.link_model.specs.Program.{Parts};
ghost use Rattle.link_model.specs.Groups.{bytes_of, groups_of};
ghost use Rattle.link_layout.specs.inside.ByGroup.{AreAtMost};
ghost use Rattle.link_layout.specs.Layout.{AreBegins, AreEnds, AreSizes};

use crate::offsets::{PAGE, aligned, pages_of};
use link_model::{ByGroup, Groups, Slot};

/// Where Vars ends, behind its slots of 8 bytes. They begin at the next multiple of 8.
fn end_with_slots(end: u64, slots: &[Slot]) -> u64
    requires end { end ≤ 2 ^ 48 }
    requires few { length slots.now ≤ 1048576 }
    ensures value { result ≡ end_with_slots end slots.now }
    ensures near { result ≤ end + 8388616 }
{
    if slots.is_empty() {
        return end;
    }
    aligned(8, end) + 8 * slots.len() as u64
}

/// The sizes of the groups whose pieces end there, and that have these slots: Vars ends with its
/// slots, the others with their pieces.
fn sizes_of(ends: &ByGroup, slots: &[Slot]) -> ByGroup
    requires near { (g : Group) → bytes_of ends.now g ≤ 2 ^ 48 }
    requires few { length slots.now ≤ 1048576 }
    ensures sizes { (parts : Parts) → AreEnds ends.now (program_pieces parts)
        → slots_of parts ≡ slots.now → AreSizes result parts }
    ensures near { AreAtMost (2 ^ 49) result }
{
    ByGroup {
        vars: end_with_slots(ends.vars, slots),
        ..*ends
    }
}

/// Where groups of these sizes begin, counted from the base: Code at 0, each other one where the
/// pages of the one before end.
fn begins_of(sizes: &ByGroup) -> ByGroup
    requires { AreAtMost (2 ^ 49) sizes.now }
    ensures begins { (parts : Parts) → AreSizes sizes.now parts → AreBegins result parts }
    ensures near { (g : Group) → bytes_of result g ≤ 2 ^ 52 }
{
    let consts = pages_of(sizes.code);
    let vars = consts + pages_of(sizes.consts);
    let zeros = vars + pages_of(sizes.vars);
    ByGroup {
        code: 0,
        consts: PAGE * consts,
        vars: PAGE * vars,
        zeros: PAGE * zeros,
    }
}

/// Where the groups stand whose pieces end there, and that have these slots.
pub fn groups_of(ends: &ByGroup, slots: &[Slot]) -> Groups
    requires near { (g : Group) → bytes_of ends.now g ≤ 2 ^ 48 }
    requires few { length slots.now ≤ 1048576 }
    ensures groups { (parts : Parts) → AreEnds ends.now (program_pieces parts)
        → slots_of parts ≡ slots.now → result ≡ groups_of parts }
    ensures sizes { AreAtMost (2 ^ 49) result.sizes }
    ensures begins { (g : Group) → bytes_of result.begins g ≤ 2 ^ 52 }
    ensures slots { result.slots ≤ 2 ^ 53 }
{
    let sizes = sizes_of(ends, slots);
    let begins = begins_of(&sizes);
    Groups {
        sizes,
        begins,
        slots: begins.vars + aligned(8, ends.vars),
    }
}

/// How many pages the groups have.
pub fn all_pages(sizes: &ByGroup) -> u64
    requires { AreAtMost (2 ^ 49) sizes.now }
    ensures { (parts : Parts) → AreSizes sizes.now parts → result ≡ all_pages parts }
{
    pages_of(sizes.code) + pages_of(sizes.consts) + pages_of(sizes.vars) + pages_of(sizes.zeros)
}
