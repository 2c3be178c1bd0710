//! What the levels of a tree do alike: values that stand in three slices become one part or two.

ghost use Rattle.std.specs.Prelude.{◌≡◌, ◌<◌, ◌≤◌, ◌++◌, [], suc, length, take, drop, get_or, IfOk};
ghost use Rattle.name_tree.specs.Tree.{parted};
ghost use Rattle.name_tree.specs.Parts.{one_list};

use crate::few::{Few, Owned};
use omos_base::{NoMemory, Shared};
use std::alloc::Global;

/// One part, or two.
#[derive(Drop)]
pub enum Parts<T> {
    One([T; 1]),
    Two([T; 2]),
}

impl<T> Parts<T> {
    /// The parts.
    pub fn as_slice(&self) -> &[T]
        ensures { result.now ≡ one_list self.now }
    {
        match self {
            Parts::One(parts) => parts.as_slice(),
            Parts::Two(parts) => parts.as_slice(),
        }
    }
}

/// How many values three slices have.
pub fn count_of<T>(front: &[T], new: &[T], back: &[T]) -> usize
    ensures few { result ≤ 65 → result ≡ length (front.now ++ new.now ++ back.now) }
    ensures many { 65 < result → 65 < length (front.now ++ new.now ++ back.now) }
{
    front
        .len()
        .saturating_add(new.len())
        .saturating_add(back.len())
}

/// The values of three slices as one part, or as two where there are 65.
pub fn parted_of<T: Owned>(
    alloc: Global,
    front: &[T],
    new: &[T],
    back: &[T],
) -> Result<Parts<Shared<Few<T>>>, NoMemory>
    requires some { 0 < length (front.now ++ new.now ++ back.now) }
    requires few { length (front.now ++ new.now ++ back.now) ≤ 65 }
    ensures { IfOk result (λ parts. one_list parts ≡ parted (front.now ++ new.now ++ back.now)) }
{
    let count = count_of(front, new, back);
    if count == 65 {
        let low = Few::of(alloc, front, new, back, 0, 32)?;
        let high = Few::of(alloc, front, new, back, 32, 33)?;
        return Ok(Parts::Two([low, high]));
    }
    let whole = Few::of(alloc, front, new, back, 0, count)?;
    Ok(Parts::One([whole]))
}

/// The values of the part of a number, none where no part has it.
pub fn part<T>(parts: &[Shared<Few<T>>], at: usize) -> &[T]
    ensures { result.now ≡ get_or parts.now at [] }
{
    if at < parts.len() {
        parts[at].get().as_slice()
    } else {
        Default::default()
    }
}

/// The values before the one of a number.
pub fn before<T>(list: &[T], at: usize) -> &[T]
    ensures { result.now ≡ take at list.now }
{
    if at < list.len() {
        list.split_at(at).0
    } else {
        list
    }
}

/// The values after the one of a number.
pub fn after<T>(list: &[T], at: usize) -> &[T]
    ensures { result.now ≡ drop (suc at) list.now }
{
    if at < list.len() {
        list.split_at(at + 1).1
    } else {
        list.split_at(list.len()).1
    }
}
