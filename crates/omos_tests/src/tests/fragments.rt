//! Fragments of objects, lawful and not.

use omos_base::{Fault, Part, Row, SymName};
use omos_model::{Aim, Export, Field, Fixup, Fragment, FragmentFault, Group, Kind, Piece, Spot};
use std::alloc::Global;
use std::test::Fail;

/// Two exports of these names, each an address that no placing changes.
pub(super) fn exports(alloc: Global, first: &str, second: &str) -> Result<Row<Export>, Fail> {
    let spot = Spot::Fixed { value: 7 };
    let mut row = Row::new(alloc);
    for text in [first, second] {
        let name = SymName::read(alloc, text.as_bytes())?;
        row.push(Export { name, spot })?;
    }
    Ok(row)
}

#[test]
fn no_two_exports_share_a_name(rt: HostRuntime) -> Result<(), Fail> {
    let alloc = rt.alloc();
    let apart = exports(alloc, "malloc", "free")?;
    let lawful = Fragment::of(alloc, Row::new(alloc), apart, Row::new(alloc));
    assert!(rt; matches!(lawful, Ok(_)));
    let twice = exports(alloc, "malloc", "malloc")?;
    let refused = Fragment::of(alloc, Row::new(alloc), twice, Row::new(alloc));
    assert!(rt; matches!(refused, Err(Fault::Refused(FragmentFault::Shape))));
    Ok(())
}

#[test]
fn a_fragment_gives_back_its_references(rt: HostRuntime) -> Result<(), Fail> {
    let alloc = rt.alloc();
    let mut pieces = Row::new(alloc);
    pieces.push(Piece {
        group: Group::Code,
        align: 1,
        size: 8,
        bytes: Part::from_slice(alloc, &[0; 8])?,
    })?;
    let mut fixups = Row::new(alloc);
    fixups.push(Fixup {
        piece: 0,
        offset: 4,
        kind: Kind::Pc32,
        addend: -4,
        aim: Aim::At(Spot::Fixed { value: 7 }),
    })?;
    let fragment = Fragment::of(alloc, pieces, Row::new(alloc), fixups)?;
    let field = fragment.fixups().fields().first();
    assert!(rt;
        matches!(
            field,
            Some(Field {
                piece: 0,
                offset: 4,
                kind: Kind::Pc32,
                addend: -4
            })
        )
    );
    let aim = fragment.fixups().aims().parts().values.first();
    assert!(rt; matches!(aim, Some(Aim::At(Spot::Fixed { value: 7 }))));
    Ok(())
}
