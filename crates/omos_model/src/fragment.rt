//! What an object file says: its pieces, the names that it defines and its references.

ghost use Rattle.std.specs.Prelude.{◌≡◌, false, IfOk};
ghost use Rattle.std.specs.List.{list_all};
ghost use Rattle.omos_base.specs.Fault.{MatchFault};
ghost use Rattle.omos_model.specs.FragmentParts.{parts_of, is_fragment, IsFragment, is_in_bounds};
ghost use Rattle.omos_model.specs.FragmentParts.{are_distinct};
ghost use Rattle.omos_model.specs.FragmentParts.{is_piece, is_spot, is_fixup, is_zeros, width};

use crate::fixups::Fixups;
use omos_base::{Fault, NoMemory, Part, Row, SymName};
use std::alloc::Global;
use std::collections::BTreeSet;
use std::marker::Model;
use thiserror::Error;

/// Where a piece stands in an image, in this order.
#[derive(Clone, Copy, Debug, PartialEq, Eq)]
pub enum Group {
    /// Read and run.
    Code,
    /// Read.
    Consts,
    /// Read and written.
    Vars,
    /// Read and written, zeros at first, with no bytes in the image.
    Zeros,
}

/// A run of bytes that is laid out as one.
#[derive(Debug, Drop)]
pub struct Piece {
    pub group: Group,
    /// In bytes: 1, 2, 4 .. 4,096.
    pub align: u32,
    /// In bytes, at most 8,388,608.
    pub size: u32,
    /// As many as the size, or none where the group is Zeros.
    pub bytes: Part,
}

/// A place in a fragment, or a number.
#[derive(Clone, Copy, Debug, PartialEq, Eq)]
pub enum Spot {
    /// A byte of a piece, or the place behind its last byte. Pieces are counted from 0.
    Inside { piece: u32, offset: u32 },
    /// An address that no placing changes.
    Fixed { value: u64 },
}

/// A name that the fragment defines.
#[derive(Debug, Drop)]
pub struct Export {
    pub name: SymName,
    pub spot: Spot,
}

/// How a field is computed: the relocation types of the x86-64 psABI of these names.
#[derive(Clone, Copy, Debug, PartialEq, Eq)]
pub enum Kind {
    Abs64,
    Pc32,
    Plt32,
    GotPcRel,
    Abs32,
    Abs32S,
    Pc64,
    GotPcRelX,
    RexGotPcRelX,
}

/// What a fixup aims at.
#[derive(Debug, Drop)]
pub enum Aim {
    At(Spot),
    /// A name; where it is weak, it may stay undefined.
    Name { name: SymName, weak: bool },
}

/// A field of a piece that waits for an address.
#[derive(Debug, Drop)]
pub struct Fixup {
    /// The piece's number.
    pub piece: u32,
    /// The field's first byte in the piece.
    pub offset: u32,
    pub kind: Kind,
    pub addend: i64,
    pub aim: Aim,
}

/// Why three lists are no fragment.
#[derive(Clone, Copy, Debug, PartialEq, Eq, Error)]
pub enum FragmentFault {
    #[error("the pieces, exports and fixups are no fragment")]
    Shape,
}

/// What an object file says, seen as its three lists.
#[derive(Debug, Drop)]
pub struct Fragment {
    pieces: Row<Piece>,
    exports: Row<Export>,
    fixups: Fixups,
}

impl Model for Fragment {
    ghost use Rattle.omos_model.specs.FragmentParts.{FragmentParts, parts_of, IsFragment};

    ghost Value = { FragmentParts };

    ghost view = { λ f. parts_of f.pieces f.exports f.fixups };

    ghost invariant = { λ f. IsFragment (parts_of f.pieces f.exports f.fixups) };
}

impl Fragment {
    /// The fragment of three lists. It is refused exactly where they are none.
    pub fn of(
        alloc: Global,
        pieces: Row<Piece>,
        exports: Row<Export>,
        fixups: Row<Fixup>,
    ) -> Result<Fragment, Fault<FragmentFault>>
        ensures { let parts = parts_of pieces exports fixups in
            MatchFault result (λ f. (f ≡ parts) × IsFragment f) (λ _. is_fragment parts ≡ false) }
    {
        if !is_in_bounds(pieces.as_slice(), exports.as_slice(), fixups.as_slice()) {
            return Err(Fault::Refused(FragmentFault::Shape));
        }
        if !are_distinct(alloc, exports.as_slice())? {
            return Err(Fault::Refused(FragmentFault::Shape));
        }
        let fixups = Fixups::from_row(alloc, fixups)?;
        Ok(Fragment::from_parts(pieces, exports, fixups))
    }

    /// The fragment of three lists that are one. It takes no memory, and looks at none of them.
    pub fn from_parts(pieces: Row<Piece>, exports: Row<Export>, fixups: Fixups) -> Fragment
        requires { IsFragment (parts_of pieces exports fixups) }
        ensures { result ≡ parts_of pieces exports fixups }
    {
        Fragment {
            pieces,
            exports,
            fixups,
        }
    }

    /// The pieces, in order.
    pub fn pieces(&self) -> &[Piece]
        ensures pieces { result.now ≡ self.now.pieces }
        ensures formed { IsFragment self.now }
    {
        self.pieces.as_slice()
    }

    /// The names that are defined, in order, each once.
    pub fn exports(&self) -> &[Export]
        ensures exports { result.now ≡ self.now.exports }
        ensures formed { IsFragment self.now }
    {
        self.exports.as_slice()
    }

    /// The references, in order.
    pub fn fixups(&self) -> &Fixups
        ensures fixups { result.now ≡ self.now.fixups }
        ensures formed { IsFragment self.now }
    {
        &self.fixups
    }
}

const ALIGNMENTS: [u32; 13] = [1, 2, 4, 8, 16, 32, 64, 128, 256, 512, 1024, 2048, 4096];

fn is_zeros(group: Group) -> bool
    ensures { result ≡ is_zeros group }
{
    match group {
        Group::Zeros => true,
        _ => false,
    }
}

fn width(kind: Kind) -> u32
    ensures { result ≡ width kind }
{
    match kind {
        Kind::Abs64 | Kind::Pc64 => 8,
        _ => 4,
    }
}

fn is_piece(piece: &Piece) -> bool
    ensures { result ≡ is_piece piece.now }
{
    let held = if is_zeros(piece.group) {
        0
    } else {
        piece.size as usize
    };
    piece.size <= 8_388_608 && ALIGNMENTS.contains(&piece.align) && piece.bytes.len() == held
}

fn is_spot(pieces: &[Piece], spot: Spot) -> bool
    ensures { result ≡ is_spot pieces.now spot }
{
    match spot {
        Spot::Inside { piece, offset } => match pieces.get(piece as usize) {
            Some(piece) => offset <= piece.size,
            None => false,
        },
        Spot::Fixed { .. } => true,
    }
}

fn is_fixup(pieces: &[Piece], fixup: &Fixup) -> bool
    ensures { result ≡ is_fixup pieces.now fixup.now }
{
    let is_field = match pieces.get(fixup.piece as usize) {
        Some(piece) => {
            !is_zeros(piece.group)
                && u64::from(fixup.offset) + u64::from(width(fixup.kind)) <= u64::from(piece.size)
        }
        None => false,
    };
    let is_aim = match &fixup.aim {
        Aim::At(spot) => is_spot(pieces, *spot),
        Aim::Name { .. } => true,
    };
    is_field && is_aim
}

fn are_pieces(pieces: &[Piece]) -> bool
    ensures { result ≡ list_all is_piece pieces.now }
{
    pieces.iter().all(is_piece)
}

fn are_spots(pieces: &[Piece], exports: &[Export]) -> bool
    ensures { result ≡ list_all (λ x. is_spot pieces.now x.spot) exports.now }
{
    exports.iter().all(|x| is_spot(pieces, x.spot))
}

fn are_fixups(pieces: &[Piece], fixups: &[Fixup]) -> bool
    ensures { result ≡ list_all (is_fixup pieces.now) fixups.now }
{
    fixups.iter().all(|x| is_fixup(pieces, x))
}

fn is_in_bounds(pieces: &[Piece], exports: &[Export], fixups: &[Fixup]) -> bool
    ensures { result ≡ is_in_bounds (parts_of pieces.now exports.now fixups.now) }
{
    pieces.len() <= 69_631
        && exports.len() <= 65_535
        && fixups.len() <= 65_535
        && are_pieces(pieces)
        && are_spots(pieces, exports)
        && are_fixups(pieces, fixups)
}

/// Whether no two exports share a name, in a time that grows little faster than their number.
fn are_distinct(alloc: Global, exports: &[Export]) -> Result<bool, NoMemory>
    ensures { IfOk result (λ distinct. distinct ≡ are_distinct exports.now) }
{
    let mut names = BTreeSet::new(alloc);
    let mut at = exports.len();
    while at > 0 {
        at -= 1;
        if !names.insert(exports[at].name.copy()?)? {
            return Ok(false);
        }
    }
    Ok(true)
}
