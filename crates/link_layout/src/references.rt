//! The first reference that is bound to nothing.

ghost use Rattle.std.specs.Prelude.{◌≡◌, ◌≤◌, IsTrue, Some, length};
ghost use Rattle.std.specs.List.{enumerate_from, list_all, zip};
ghost use Rattle.std.specs.Option.{option_copied};
ghost use Rattle.omos_model.specs.FragmentParts.{max_entries};
ghost use Rattle.omos_model.specs.declared.refusal.Refusal.TheVariants.{Unresolved};
ghost use Rattle.link_model.specs.Plan.{is_weak};
ghost use Rattle.link_layout.specs.inside.References.{RefusesFor, is_bound, open_under};
ghost use Rattle.link_layout.specs.inside.References.{refusal_among, refusal_in, refusal_of_leaf};

use dict_row::DictRow;
use omos_base::{Fault, Shared, SymName};
use omos_model::{Aim, Entry, Fixups, Landing, Refusal};

/// Whether the aim may stay undefined.
fn is_weak(aim: &Aim) -> bool
    ensures { result ≡ is_weak aim.now }
{
    match aim {
        Aim::At(_) => false,
        Aim::Name { name: _, weak } => *weak,
    }
}

/// The name under which a reference with this aim is open, where it is bound to nothing and isn't
/// weak.
fn open_name<'a>(aim: &Aim, landing: &'a Landing) -> Option<&'a SymName>
    ensures { option_copied result ≡ open_under aim.now landing.now }
{
    match landing {
        Landing::On(_) => None,
        Landing::Nothing(name) => { if is_weak(aim) { None } else { Some(name) } }
    }
}

fn is_bound(landing: &Landing) -> bool
    ensures { result ≡ is_bound landing.now }
{
    matches!(landing, Landing::On(_))
}

fn all_bound(values: &[Landing]) -> bool
    ensures { result ≡ list_all is_bound values.now }
{
    values.iter().all(|x| is_bound(x))
}

/// Whether all of a leaf's references are bound. It looks at each distinct landing once. A landing
/// that no reference has counts as well.
fn are_bound(landings: &DictRow<Landing>) -> bool
    ensures { IsTrue result → IsTrue (list_all is_bound landings.now) }
{
    all_bound(landings.parts().values)
}

/// Refuses a reference that is open under this name: L11.
#[cold]
fn refuse(leaf: u32, number: u32, name: &SymName) -> Result<(), Fault<Refusal>>
    ensures { RefusesFor (Some (Unresolved leaf number name.now)) result }
{
    Err(Fault::Refused(Refusal::Unresolved {
        leaf,
        fixup: number,
        name: name.copy()?,
    }))
}

/// L11 for the first of these references that is bound to nothing and isn't weak. Where all
/// distinct landings are bound, the references aren't gone through.
fn check_fixups(
    leaf: u32,
    fixups: &Fixups,
    landings: &DictRow<Landing>,
) -> Result<(), Fault<Refusal>>
    requires { length fixups.now ≤ max_entries }
    ensures { RefusesFor (refusal_in leaf (enumerate_from 0 (zip fixups.now landings.now))) result }
{
    if are_bound(landings) {
        return Ok(());
    }
    let aims = fixups.aims();
    for number in 0..aims.len().min(landings.len()) {
        if let Some(name) = open_name(aims.get(number), landings.get(number)) {
            return refuse(leaf, number as u32, name);
        }
    }
    Ok(())
}

/// L11 for the first of a leaf's references that is bound to nothing and isn't weak. A leaf is an
/// object; a blueprint would have no references.
fn check_leaf(
    number: u32,
    leaf: &Shared<Entry>,
    landings: &DictRow<Landing>,
) -> Result<(), Fault<Refusal>>
    ensures { RefusesFor (refusal_of_leaf (number, (leaf.now, landings.now))) result }
{
    match leaf.get() {
        Entry::Object(fragment) => check_fixups(number, fragment.fixups(), landings),
        Entry::Blueprint(_) => Ok(()),
    }
}

/// L11 for the first reference, by leaf and number, that is bound to nothing and isn't weak. It
/// looks at each leaf's distinct landings, and goes through the references of those leaves alone
/// that have one that isn't bound.
pub fn check_references(
    leaves: &[Shared<Entry>],
    landings: &[DictRow<Landing>],
) -> Result<(), Fault<Refusal>>
    requires { length leaves.now ≤ 256 }
    ensures { RefusesFor (refusal_among (enumerate_from 0 (zip leaves.now landings.now))) result }
{
    for (number, (leaf, row)) in leaves.iter().zip(landings).enumerate() {
        check_leaf(number as u32, leaf, row)?;
    }
    Ok(())
}
