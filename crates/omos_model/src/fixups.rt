//! The references of an object: their fields one by one, what they aim at once a symbol.

ghost use Rattle.std.specs.Prelude.{◌≡◌, ◌<◌, ◌^◌, ◌++◌, length, map, IfOk, OnOk};
ghost use Rattle.omos_model.specs.FixupParts.{field_of, fixups_of};

use crate::fragment::{Aim, Fixup, Kind};
use dict_row::DictRow;
use omos_base::{NoMemory, Row};
use std::alloc::Global;
use std::marker::Model;

/// A field of a piece that waits for an address: all of a fixup but what it aims at.
#[derive(Clone, Copy, Debug, PartialEq, Eq)]
pub struct Field {
    /// The piece's number.
    pub piece: u32,
    /// The field's first byte in the piece.
    pub offset: u32,
    pub kind: Kind,
    pub addend: i64,
}

/// The references of an object, in order, seen as the list of them.
#[derive(Debug, Drop)]
pub struct Fixups {
    fields: Row<Field>,
    aims: DictRow<Aim>,
}

impl Model for Fixups {
    ghost use Rattle.std.specs.Prelude.{List, length, ◌≡◌};
    ghost use Rattle.omos_model.specs.declared.fragment.Fixup.{Fixup};
    ghost use Rattle.omos_model.specs.FixupParts.{fixups_of};

    ghost Value = { List Fixup };

    ghost view = { λ x. fixups_of x.fields x.aims };

    ghost invariant = { λ x. length x.aims ≡ length x.fields };
}

fn field_of(fixup: &Fixup) -> Field
    ensures { result ≡ field_of fixup.now }
{
    Field {
        piece: fixup.piece,
        offset: fixup.offset,
        kind: fixup.kind,
        addend: fixup.addend,
    }
}

/// Appends the fields and the aims of these.
fn part(fixups: Vec<Fixup>, fields: &mut Row<Field>, aims: &mut Row<Aim>) -> Result<(), NoMemory>
    ensures fields { OnOk result (fields.new ≡ fields.old ++ map field_of fixups.items) }
    ensures aims { OnOk result (aims.new ≡ aims.old ++ map (λ x. x.aim) fixups.items) }
{
    for fixup in fixups {
        fields.push(field_of(&fixup))?;
        aims.push(fixup.aim)?;
    }
    Ok(())
}

impl Fixups {
    /// Fields and what each aims at. It takes no memory.
    pub fn of(fields: Row<Field>, aims: DictRow<Aim>) -> Fixups
        requires { length aims ≡ length fields }
        ensures { result ≡ fixups_of fields aims }
    {
        Fixups { fields, aims }
    }

    /// References one by one, of which there are less than 2^32.
    #[tactic(auto, using(crate::proofs::FixupLaws::fixups_again))]
    pub fn from_row(alloc: Global, fixups: Row<Fixup>) -> Result<Fixups, NoMemory>
        requires { length fixups < 2 ^ 32 }
        ensures { IfOk result (λ made. made ≡ fixups) }
    {
        let mut fields = Row::from_vec(Vec::with_capacity(alloc, fixups.len())?);
        let mut aims = Row::from_vec(Vec::with_capacity(alloc, fixups.len())?);
        part(fixups.into_vec(), &mut fields, &mut aims)?;
        let aims = DictRow::from_row(alloc, aims)?;
        Ok(Fixups::of(fields, aims))
    }

    /// How many there are.
    pub fn len(&self) -> usize
        ensures { result ≡ length self.now }
    {
        self.fields.len()
    }

    /// Their fields, in order.
    pub fn fields(&self) -> &[Field]
        ensures { result.now ≡ map field_of self.now }
    {
        self.fields.as_slice()
    }

    /// What each aims at, in order.
    pub fn aims(&self) -> &DictRow<Aim>
        ensures { result.now ≡ map (λ x. x.aim) self.now }
    {
        &self.aims
    }
}
