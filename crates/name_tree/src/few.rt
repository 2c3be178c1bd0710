//! Up to 64 values in place.

ghost use Rattle.std.specs.Prelude.{◌≡◌, ◌+◌, ◌<◌, ◌≤◌, ◌++◌, length, take, drop, get_or, IfOk};
ghost use Rattle.std.specs.Prelude.{OnOk};
ghost use Rattle.name_tree.specs.inside.Few.{HoldRows, IsRow, row_values, rows_of};

use omos_base::{NoMemory, Row, Shared};
use omos_model::Stamped;
use std::alloc::Global;
use std::marker::Model;

/// Of which there can be a second owner.
pub trait Owned: Drop {
    /// A second owner of the same value, which is not copied.
    fn second(&self) -> Result<Self, NoMemory>
        ensures { IfOk result (λ second. second ≡ self.now) };
}

impl Owned for Stamped {
    fn second(&self) -> Result<Stamped, NoMemory> {
        self.twin()
    }
}

impl<T: Drop> Owned for Shared<T> {
    fn second(&self) -> Result<Shared<T>, NoMemory> {
        self.twin()
    }
}

/// One, two, four, six or eight rows of eight values: the fewest that hold those that there are.
#[derive(Drop)]
pub(crate) enum Rows<T> {
    One([[T; 8]; 1]),
    Two([[T; 8]; 2]),
    Four([[T; 8]; 4]),
    Six([[T; 8]; 6]),
    Eight([[T; 8]; 8]),
}

impl<T> Rows<T> {
    /// The values of all rows.
    fn as_slice(&self) -> &[T]
        requires { length (rows_of self.now) ≤ 8 }
        ensures { result.now ≡ row_values (rows_of self.now) }
    {
        match self {
            Rows::One(rows) => rows.as_slice().as_flattened(),
            Rows::Two(rows) => rows.as_slice().as_flattened(),
            Rows::Four(rows) => rows.as_slice().as_flattened(),
            Rows::Six(rows) => rows.as_slice().as_flattened(),
            Rows::Eight(rows) => rows.as_slice().as_flattened(),
        }
    }
}

/// At most 64 values, that contracts see as their list. They stand in place, so that what shares
/// them has one allocation; behind them the last one fills the rows.
#[derive(Drop)]
pub struct Few<T> {
    rows: Rows<T>,
    count: usize,
}

impl<T> Model for Few<T> {
    ghost use Rattle.std.specs.Prelude.{◌≡◌, ◌≤◌, List, length, take};
    ghost use Rattle.std.specs.Coded.{coded_list};
    ghost use Rattle.name_tree.specs.inside.Few.{row_values, rows_of};

    ghost Value = { List T };

    ghost coded = { coded_list T.code };

    ghost view = { λ few. take few.count (row_values (rows_of few.rows)) };

    ghost invariant = { λ few. (length (rows_of few.rows) ≤ 8)
        × (few.count ≤ length (row_values (rows_of few.rows))) };
}

impl<T> Few<T> {
    /// The values.
    pub fn as_slice(&self) -> &[T]
        ensures { result.now ≡ self.now }
    {
        self.rows.as_slice().split_at(self.count).0
    }
}

impl<T: Owned> Few<T> {
    /// Second owners of so many of the values of three slices, from a number on.
    pub fn of(
        alloc: Global,
        front: &[T],
        new: &[T],
        back: &[T],
        from: usize,
        count: usize,
    ) -> Result<Shared<Few<T>>, NoMemory>
        requires some { 0 < count }
        requires few { count ≤ 64 }
        requires near { from ≤ 64 }
        requires within { from + count ≤ length (front.now ++ new.now ++ back.now) }
        ensures { IfOk result (λ few. few
            ≡ take count (drop from (front.now ++ new.now ++ back.now))) }
    {
        let rows = rows_from(front, new, back, from, count)?;
        Shared::of(alloc, Few { rows, count })
    }
}

/// Up to 8 values, that contracts see as their list, in place as those of a `Few`.
#[derive(Drop)]
pub struct Small<T> {
    row: [T; 8],
    count: usize,
}

impl<T> Model for Small<T> {
    ghost use Rattle.std.specs.Prelude.{◌≡◌, ◌≤◌, List, length, take};
    ghost use Rattle.std.specs.Coded.{coded_list};

    ghost Value = { List T };

    ghost coded = { coded_list T.code };

    ghost view = { λ small. take small.count small.row };

    ghost invariant = { λ small. (small.count ≤ 8) × (length small.row ≡ 8) };
}

impl<T> Small<T> {
    /// The values.
    pub fn as_slice(&self) -> &[T]
        ensures { result.now ≡ self.now }
    {
        self.row.as_slice().split_at(self.count).0
    }
}

impl<T: Owned> Small<T> {
    /// Second owners of the values of three slices.
    pub fn of(
        alloc: Global,
        front: &[T],
        new: &[T],
        back: &[T],
        count: usize,
    ) -> Result<Shared<Small<T>>, NoMemory>
        requires some { 0 < count }
        requires few { count ≤ 8 }
        requires whole { count ≡ length (front.now ++ new.now ++ back.now) }
        ensures { IfOk result (λ small. small ≡ front.now ++ new.now ++ back.now) }
    {
        let row = row(front, new, back, 0, count - 1)?;
        Shared::of(alloc, Small { row, count })
    }
}

/// The value of a number among those of three slices.
#[inline(always)]
fn item<'a, T>(front: &'a [T], new: &'a [T], back: &'a [T], at: usize) -> &'a T
    requires { at < length (front.now ++ new.now ++ back.now) }
    ensures { result.now ≡ get_or (front.now ++ new.now ++ back.now) at result.now }
{
    if at < front.len() {
        return &front[at];
    }
    let later = at - front.len();
    if later < new.len() {
        return &new[later];
    }
    &back[later - new.len()]
}

/// A second owner of the value of a number, or of the last one where that is lower.
#[inline(always)]
fn owner<T: Owned>(
    front: &[T],
    new: &[T],
    back: &[T],
    at: usize,
    last: usize,
) -> Result<T, NoMemory>
    requires { last < length (front.now ++ new.now ++ back.now) }
    ensures { IfOk result (λ x. at ≤ last → x ≡ get_or (front.now ++ new.now ++ back.now) at x) }
{
    item(front, new, back, at.min(last)).second()
}

/// Second owners of eight of the values, from a number on.
fn row<T: Owned>(
    front: &[T],
    new: &[T],
    back: &[T],
    at: usize,
    last: usize,
) -> Result<[T; 8], NoMemory>
    requires near { at ≤ 120 }
    requires within { last < length (front.now ++ new.now ++ back.now) }
    ensures { IfOk result (λ row. IsRow (front.now ++ new.now ++ back.now) at last row) }
{
    Ok([
        owner(front, new, back, at, last)?,
        owner(front, new, back, at + 1, last)?,
        owner(front, new, back, at + 2, last)?,
        owner(front, new, back, at + 3, last)?,
        owner(front, new, back, at + 4, last)?,
        owner(front, new, back, at + 5, last)?,
        owner(front, new, back, at + 6, last)?,
        owner(front, new, back, at + 7, last)?,
    ])
}

/// Rows of second owners of so many of the values, from a number on.
fn rows_from<T: Owned>(
    front: &[T],
    new: &[T],
    back: &[T],
    from: usize,
    count: usize,
) -> Result<Rows<T>, NoMemory>
    requires some { 0 < count }
    requires few { count ≤ 64 }
    requires near { from ≤ 64 }
    requires within { from + count ≤ length (front.now ++ new.now ++ back.now) }
    ensures { IfOk result (λ rows. HoldRows (front.now ++ new.now ++ back.now) from count rows) }
{
    let last = from + (count - 1);
    let first = row(front, new, back, from, last)?;
    if count <= 8 {
        return Ok(Rows::One([first]));
    }
    let second = row(front, new, back, from + 8, last)?;
    if count <= 16 {
        return Ok(Rows::Two([first, second]));
    }
    let third = row(front, new, back, from + 16, last)?;
    let fourth = row(front, new, back, from + 24, last)?;
    if count <= 32 {
        return Ok(Rows::Four([first, second, third, fourth]));
    }
    let fifth = row(front, new, back, from + 32, last)?;
    let sixth = row(front, new, back, from + 40, last)?;
    if count <= 48 {
        return Ok(Rows::Six([first, second, third, fourth, fifth, sixth]));
    }
    let seventh = row(front, new, back, from + 48, last)?;
    let eighth = row(front, new, back, from + 56, last)?;
    Ok(Rows::Eight([first, second, third, fourth, fifth, sixth, seventh, eighth]))
}

/// Appends second owners of the values.
pub fn append<T: Owned>(list: &mut Row<T>, more: &[T]) -> Result<(), NoMemory>
    ensures { OnOk result (list.new ≡ list.old ++ more.now) }
{
    for item in more {
        list.push(item.second()?)?;
    }
    Ok(())
}
