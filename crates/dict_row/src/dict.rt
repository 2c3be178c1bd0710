//! The list.

ghost use Rattle.std.specs.Prelude.{◌≡◌, ◌<◌, ◌^◌, Some, length, map, IfOk, OnOk};
ghost use Rattle.std.specs.List.{slice_get, range_with_len};
ghost use Rattle.dict_row.specs.Keys.{AreKeys, decoded};

use crate::rule::Rule;
use omos_base::{NoMemory, Row, Shared};
use std::alloc::Global;
use std::marker::Model;

/// A list that contracts see as its values, place by place.
#[derive(Debug, Drop)]
pub struct DictRow<T> {
    keys: Shared<Row<u32>>,
    values: Vec<T>,
}

/// The two parts of a list.
#[derive(Clone, Copy)]
pub struct DictParts<'a, T> {
    /// For each place of the list the place of its value, counted from 0.
    pub keys: &'a Shared<Row<u32>>,
    /// The values.
    pub values: &'a [T],
}

impl<T> Model for DictRow<T> {
    ghost use Rattle.std.specs.Prelude.{List, length};
    ghost use Rattle.std.specs.Coded.{coded_list};
    ghost use Rattle.dict_row.specs.Keys.{AreKeys, decoded};

    ghost Value = { List T };

    ghost coded = { coded_list T.code };

    ghost view = { λ row. decoded row.values.items row.keys };

    ghost invariant = { λ row. AreKeys row.keys (length row.values.items) };
}

/// The numbers from 0, as many.
fn counted(alloc: Global, count: u32) -> Result<Row<u32>, NoMemory>
    ensures { IfOk result (λ keys. keys ≡ range_with_len 0 count) }
{
    let mut keys = Row::from_vec(Vec::with_capacity(alloc, count as usize)?);
    for key in 0..count {
        keys.push(key)?;
    }
    Ok(keys)
}

impl<T: Drop> DictRow<T> {
    /// The list of these values, each at one place. They are at most 2^32 - 1.
    pub fn from_row(alloc: Global, values: Row<T>) -> Result<DictRow<T>, NoMemory>
        requires { length values < 2 ^ 32 }
        ensures { IfOk result (λ row. row ≡ values) }
    {
        let keys = counted(alloc, values.len() as u32)?;
        Ok(DictRow::of(Shared::of(alloc, keys)?, values))
    }
}

impl<T> DictRow<T> {
    /// The list of these values at the places of these keys. None is looked at.
    pub fn of(keys: Shared<Row<u32>>, values: Row<T>) -> DictRow<T>
        requires { AreKeys keys (length values) }
        ensures { result ≡ decoded values keys }
    {
        DictRow {
            keys,
            values: values.into_vec(),
        }
    }

    /// The keys and the values, of which another list at the same places can be made.
    pub fn parts(&self) -> DictParts<'_, T>
        ensures list { self.now ≡ decoded result.values.now result.keys.now }
        ensures keys { AreKeys result.keys.now (length result.values.now) }
    {
        DictParts {
            keys: &self.keys,
            values: self.values.as_slice(),
        }
    }

    /// How many places there are.
    pub fn len(&self) -> usize
        ensures { result ≡ length self.now }
    {
        self.keys.get().len()
    }

    /// The value at a place.
    pub fn get(&self, place: usize) -> &T
        requires { place < length self.now }
        ensures { slice_get self.now place ≡ Some result.now }
    {
        let key = self.keys.get().as_slice()[place];
        &self.values.as_slice()[key as usize]
    }
}

fn change_one<T: Drop, R: Rule<T>>(rule: &R, value: &mut T) -> Result<(), NoMemory>
    ensures { OnOk result (value.new ≡ R.gives rule.now value.old) }
{
    if let Some(changed) = rule.changed(value)? {
        *value = changed;
    }
    Ok(())
}

fn change_all<T: Drop, R: Rule<T>>(rule: &R, values: &mut [T]) -> Result<(), NoMemory>
    ensures { OnOk result (values.new ≡ map (R.gives rule.now) values.old) }
{
    for value in values.iter_mut() {
        change_one(rule, value)?;
    }
    Ok(())
}

impl<T: Drop> DictRow<T> {
    /// Makes of each value what the rule gives: the rule is asked once a value, and not once a
    /// place. Where it finds no memory, some values may have changed.
    pub fn change<R: Rule<T>>(&mut self, rule: &R) -> Result<(), NoMemory>
        ensures { OnOk result (self.new ≡ map (R.gives rule.now) self.old) }
    {
        change_all(rule, self.values.as_mut_slice())?;
        Ok(())
    }
}
