//! A refusal, read from its code and its fields.

ghost use Rattle.std.specs.Prelude.{MatchOption};
ghost use Rattle.omos_base.specs.Fault.{MatchFault};
ghost use Rattle.refusal_lines.specs.Codes.{link_row, object_row, path_row, row_of, text_row};
ghost use Rattle.omos_wire.specs.inside.Reading.{FitsAny, FitsCode, link_forms, object_forms};
ghost use Rattle.omos_wire.specs.inside.Reading.{path_forms, text_forms};
ghost use Rattle.omos_wire.specs.inside.Taking.{IsCoded};

use crate::fields::{
    number_and_wides, numbers_and_name, only_name, only_number, only_numbers, only_site, only_wide,
    site_and_name, site_and_path,
};
use crate::owned_reply::NotReply;
use omos_base::{Fault, PathFault, Shared};
use omos_model::{BpFault, ObjectFault, Refusal};
use refusal_lines::Refused;
use std::alloc::Global;

/// A fault of a path.
fn path_fault(code: u8, bytes: &[u8]) -> Option<PathFault>
    ensures { MatchOption result (FitsAny (path_forms code) bytes.now → ⊥)
        (λ x. IsCoded (path_row x) code bytes.now) }
{
    match code {
        1 if bytes.is_empty() => Some(PathFault::Long),
        2 => match only_number(bytes) {
            Some(place) => Some(PathFault::Shape(place)),
            None => None,
        },
        _ => None,
    }
}

/// A fault of a text.
fn text_fault(code: u8, bytes: &[u8]) -> Option<BpFault>
    ensures { MatchOption result (FitsAny (text_forms code) bytes.now → ⊥)
        (λ x. IsCoded (text_row x) code bytes.now) }
{
    match code {
        31 if bytes.is_empty() => Some(BpFault::Long),
        32 => match only_number(bytes) {
            Some(place) => Some(BpFault::Byte(place)),
            None => None,
        },
        33 => match only_number(bytes) {
            Some(place) => Some(BpFault::Shape(place)),
            None => None,
        },
        34 => match only_number(bytes) {
            Some(place) => Some(BpFault::Deep(place)),
            None => None,
        },
        35 => match only_number(bytes) {
            Some(place) => Some(BpFault::Number(place)),
            None => None,
        },
        36 => match only_number(bytes) {
            Some(place) => Some(BpFault::Range(place)),
            None => None,
        },
        _ => None,
    }
}

/// A fault of an object.
fn object_fault(alloc: Global, code: u8, bytes: &[u8]) -> Result<ObjectFault, Fault<NotReply>>
    ensures { MatchFault result (λ x. IsCoded (object_row x) code bytes.now)
        (λ _. FitsAny (object_forms code) bytes.now → ⊥) }
{
    match code {
        11 if bytes.is_empty() => Ok(ObjectFault::Length),
        12 if bytes.is_empty() => Ok(ObjectFault::NotElf),
        13 if bytes.is_empty() => Ok(ObjectFault::Kind),
        14 if bytes.is_empty() => Ok(ObjectFault::Headers),
        15 => match only_number(bytes) {
            Some(number) => Ok(ObjectFault::Section(number)),
            None => Err(Fault::Refused(NotReply)),
        },
        16 => match only_number(bytes) {
            Some(number) => Ok(ObjectFault::Unsupported(number)),
            None => Err(Fault::Refused(NotReply)),
        },
        17 if bytes.is_empty() => Ok(ObjectFault::Symbols),
        18 => match only_number(bytes) {
            Some(number) => Ok(ObjectFault::Symbol(number)),
            None => Err(Fault::Refused(NotReply)),
        },
        19 => match only_name(alloc, bytes) {
            Ok(name) => Ok(ObjectFault::Twice(name)),
            Err(fault) => Err(fault),
        },
        20 => match only_number(bytes) {
            Some(number) => Ok(ObjectFault::Relas(number)),
            None => Err(Fault::Refused(NotReply)),
        },
        21 => match only_numbers(bytes) {
            Some((first, second)) => Ok(ObjectFault::Rela(first, second)),
            None => Err(Fault::Refused(NotReply)),
        },
        _ => Err(Fault::Refused(NotReply)),
    }
}

/// A refusal of a link.
fn link_refusal(alloc: Global, code: u8, bytes: &[u8]) -> Result<Refusal, Fault<NotReply>>
    ensures { MatchFault result (λ x. IsCoded (link_row x) code bytes.now)
        (λ _. FitsAny (link_forms code) bytes.now → ⊥) }
{
    match code {
        41 => match site_and_path(bytes) {
            Some((site, path)) => Ok(Refusal::NoEntry { site, path }),
            None => Err(Fault::Refused(NotReply)),
        },
        42 => match site_and_path(bytes) {
            Some((site, path)) => Ok(Refusal::Cycle { site, path }),
            None => Err(Fault::Refused(NotReply)),
        },
        43 => match site_and_path(bytes) {
            Some((site, path)) => Ok(Refusal::TooDeep { site, path }),
            None => Err(Fault::Refused(NotReply)),
        },
        44 => match only_site(bytes) {
            Some(site) => Ok(Refusal::TooLarge { site }),
            None => Err(Fault::Refused(NotReply)),
        },
        45 => match site_and_name(alloc, bytes) {
            Ok((site, name)) => Ok(Refusal::Conflict { site, name }),
            Err(fault) => Err(fault),
        },
        46 => match site_and_name(alloc, bytes) {
            Ok((site, name)) => Ok(Refusal::NoName { site, name }),
            Err(fault) => Err(fault),
        },
        47 => match site_and_name(alloc, bytes) {
            Ok((site, name)) => Ok(Refusal::NoDefinition { site, name }),
            Err(fault) => Err(fault),
        },
        48 => match site_and_name(alloc, bytes) {
            Ok((site, name)) => Ok(Refusal::Taken { site, name }),
            Err(fault) => Err(fault),
        },
        49 => match only_wide(bytes) {
            Some(pages) => Ok(Refusal::ImageTooLarge { pages }),
            None => Err(Fault::Refused(NotReply)),
        },
        50 => match only_name(alloc, bytes) {
            Ok(name) => Ok(Refusal::NoStart { name }),
            Err(fault) => Err(fault),
        },
        51 => match numbers_and_name(alloc, bytes) {
            Ok((leaf, fixup, name)) => Ok(Refusal::Unresolved { leaf, fixup, name }),
            Err(fault) => Err(fault),
        },
        52 => match number_and_wides(bytes) {
            Some((pages, lo, hi)) => Ok(Refusal::NoRoom { pages, lo, hi }),
            None => Err(Fault::Refused(NotReply)),
        },
        53 => match only_numbers(bytes) {
            Some((leaf, fixup)) => Ok(Refusal::Overflow { leaf, fixup }),
            None => Err(Fault::Refused(NotReply)),
        },
        _ => Err(Fault::Refused(NotReply)),
    }
}

fn link_refused(alloc: Global, code: u8, bytes: &[u8]) -> Result<Refused, Fault<NotReply>>
    ensures { MatchFault result (λ x. IsCoded (row_of x) code bytes.now)
        (λ _. FitsAny (link_forms code) bytes.now → ⊥) }
{
    match link_refusal(alloc, code, bytes) {
        Ok(refusal) => match Shared::of(alloc, refusal) {
            Ok(refusal) => Ok(Refused::Link(refusal)),
            Err(_) => Err(Fault::NoMemory),
        },
        Err(fault) => Err(fault),
    }
}

/// What is refused, of any kind.
pub(crate) fn read_refused(
    alloc: Global,
    code: u8,
    bytes: &[u8],
) -> Result<Refused, Fault<NotReply>>
    ensures { MatchFault result (λ x. IsCoded (row_of x) code bytes.now)
        (λ _. FitsCode code bytes.now → ⊥) }
{
    if let Some(fault) = path_fault(code, bytes) {
        return Ok(Refused::Path(fault));
    }
    if let Some(fault) = text_fault(code, bytes) {
        return Ok(Refused::Text(fault));
    }
    match object_fault(alloc, code, bytes) {
        Ok(fault) => Ok(Refused::Object(fault)),
        Err(Fault::NoMemory) => Err(Fault::NoMemory),
        Err(Fault::Refused(_)) => link_refused(alloc, code, bytes),
    }
}
