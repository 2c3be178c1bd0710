//! The fields of a reply, read one by one from the front of bytes.

ghost use Rattle.std.specs.Prelude.{◌<◌, ◌∷◌, [], length, MatchOption};
ghost use Rattle.omos_base.specs.Fault.{MatchFault};
ghost use Rattle.omos_wire.specs.inside.Reading.{FitsForms, Number, Path, Symbol, Wide};
ghost use Rattle.refusal_lines.specs.Codes.{sited};
ghost use Rattle.omos_wire.specs.inside.Taking.{NoSite, TookSite};
ghost use Rattle.omos_base.specs.Paths.{IsPath};
ghost use Rattle.omos_base.specs.SymNames.{IsSymName};
ghost use Rattle.omos_wire.specs.inside.Taking.{AreFields, NoText, NoTextOf, TookNumber, TookOf};
ghost use Rattle.omos_wire.specs.inside.Taking.{TookText};
ghost use Rattle.refusal_lines.specs.Codes as codes;

use crate::owned_reply::NotReply;
use omos_base::{Fault, PathName, SymName, u16_at, u32_at, u64_at};
use omos_model::Site;
use std::alloc::Global;

/// A number of 32 bits, and what follows it.
pub(crate) fn take_number(bytes: &[u8]) -> Option<(u32, &[u8])>
    ensures { MatchOption result (length bytes.now < 4)
        (λ r. TookNumber 4 bytes.now r.0 r.1.now) }
{
    if bytes.len() < 4 {
        return None;
    }
    let (_, rest) = bytes.split_at(4);
    Some((u32_at(bytes, 0), rest))
}

/// A number of 64 bits, and what follows it.
pub(crate) fn take_wide(bytes: &[u8]) -> Option<(u64, &[u8])>
    ensures { MatchOption result (length bytes.now < 8)
        (λ r. TookNumber 8 bytes.now r.0 r.1.now) }
{
    if bytes.len() < 8 {
        return None;
    }
    let (_, rest) = bytes.split_at(8);
    Some((u64_at(bytes, 0), rest))
}

/// A text behind its length, and what follows it.
fn take_text(bytes: &[u8]) -> Option<(&[u8], &[u8])>
    ensures { MatchOption result (NoText bytes.now) (λ r. TookText bytes.now r.0.now r.1.now) }
{
    if bytes.len() < 2 {
        return None;
    }
    let count = usize::from(u16_at(bytes, 0));
    let (_, behind) = bytes.split_at(2);
    if behind.len() < count {
        return None;
    }
    Some(behind.split_at(count))
}

/// A path, and what follows it.
pub(crate) fn take_path(bytes: &[u8]) -> Option<(PathName, &[u8])>
    ensures { MatchOption result (NoTextOf IsPath bytes.now)
        (λ r. TookOf IsPath bytes.now r.0 r.1.now) }
{
    let Some((text, rest)) = take_text(bytes) else {
        return None;
    };
    match PathName::read(text) {
        Ok(path) => Some((path, rest)),
        Err(_) => None,
    }
}

/// The name of a symbol, and what follows it.
pub(crate) fn take_name(alloc: Global, bytes: &[u8]) -> Result<(SymName, &[u8]), Fault<NotReply>>
    ensures { MatchFault result (λ r. TookOf IsSymName bytes.now r.0 r.1.now)
        (λ _. NoTextOf IsSymName bytes.now) }
{
    let Some((text, rest)) = take_text(bytes) else {
        return Err(Fault::Refused(NotReply));
    };
    match SymName::read(alloc, text) {
        Ok(name) => Ok((name, rest)),
        Err(Fault::Refused(_)) => Err(Fault::Refused(NotReply)),
        Err(Fault::NoMemory) => Err(Fault::NoMemory),
    }
}

/// One number, and nothing else.
pub(crate) fn only_number(bytes: &[u8]) -> Option<u32>
    ensures { MatchOption result (FitsForms (Number ∷ []) bytes.now → ⊥)
        (λ n. AreFields (codes.Number n ∷ []) bytes.now) }
{
    match take_number(bytes) {
        Some((number, rest)) if rest.is_empty() => Some(number),
        _ => None,
    }
}

/// Two numbers, and nothing else.
pub(crate) fn only_numbers(bytes: &[u8]) -> Option<(u32, u32)>
    ensures { MatchOption result (FitsForms (Number ∷ Number ∷ []) bytes.now → ⊥)
        (λ r. AreFields (codes.Number r.0 ∷ codes.Number r.1 ∷ []) bytes.now) }
{
    let Some((first, rest)) = take_number(bytes) else {
        return None;
    };
    match take_number(rest) {
        Some((second, rest)) if rest.is_empty() => Some((first, second)),
        _ => None,
    }
}

/// One number of 64 bits, and nothing else.
pub(crate) fn only_wide(bytes: &[u8]) -> Option<u64>
    ensures { MatchOption result (FitsForms (Wide ∷ []) bytes.now → ⊥)
        (λ n. AreFields (codes.Wide n ∷ []) bytes.now) }
{
    match take_wide(bytes) {
        Some((number, rest)) if rest.is_empty() => Some(number),
        _ => None,
    }
}

/// One name, and nothing else.
pub(crate) fn only_name(alloc: Global, bytes: &[u8]) -> Result<SymName, Fault<NotReply>>
    ensures { MatchFault result (λ name. AreFields (codes.Symbol name ∷ []) bytes.now)
        (λ _. FitsForms (Symbol ∷ []) bytes.now → ⊥) }
{
    match take_name(alloc, bytes) {
        Ok((name, rest)) if rest.is_empty() => Ok(name),
        Ok(_) => Err(Fault::Refused(NotReply)),
        Err(fault) => Err(fault),
    }
}

/// A site: a path and a number, and what follows it.
pub(crate) fn take_site(bytes: &[u8]) -> Option<(Site, &[u8])>
    ensures { MatchOption result (NoSite bytes.now) (λ r. TookSite bytes.now r.0 r.1.now) }
{
    let Some((path, rest)) = take_path(bytes) else {
        return None;
    };
    match take_number(rest) {
        Some((node, rest)) => Some((Site { path, node }, rest)),
        None => None,
    }
}

/// A site, and nothing else.
pub(crate) fn only_site(bytes: &[u8]) -> Option<Site>
    ensures { MatchOption result (FitsForms (Path ∷ Number ∷ []) bytes.now → ⊥)
        (λ site. AreFields (sited site []) bytes.now) }
{
    match take_site(bytes) {
        Some((site, rest)) if rest.is_empty() => Some(site),
        _ => None,
    }
}

/// A site and a path, and nothing else.
pub(crate) fn site_and_path(bytes: &[u8]) -> Option<(Site, PathName)>
    ensures { MatchOption result (FitsForms (Path ∷ Number ∷ Path ∷ []) bytes.now → ⊥)
        (λ r. AreFields (sited r.0 (codes.Path r.1 ∷ [])) bytes.now) }
{
    let Some((site, rest)) = take_site(bytes) else {
        return None;
    };
    match take_path(rest) {
        Some((path, rest)) if rest.is_empty() => Some((site, path)),
        _ => None,
    }
}

/// A site and a name, and nothing else.
pub(crate) fn site_and_name(alloc: Global, bytes: &[u8]) -> Result<(Site, SymName), Fault<NotReply>>
    ensures { MatchFault result (λ r. AreFields (sited r.0 (codes.Symbol r.1 ∷ [])) bytes.now)
        (λ _. FitsForms (Path ∷ Number ∷ Symbol ∷ []) bytes.now → ⊥) }
{
    let Some((site, rest)) = take_site(bytes) else {
        return Err(Fault::Refused(NotReply));
    };
    match only_name(alloc, rest) {
        Ok(name) => Ok((site, name)),
        Err(fault) => Err(fault),
    }
}

/// Two numbers and a name, and nothing else.
pub(crate) fn numbers_and_name(
    alloc: Global,
    bytes: &[u8],
) -> Result<(u32, u32, SymName), Fault<NotReply>>
    ensures { MatchFault result
        (λ r. AreFields (codes.Number r.0 ∷ codes.Number r.1 ∷ codes.Symbol r.2 ∷ []) bytes.now)
        (λ _. FitsForms (Number ∷ Number ∷ Symbol ∷ []) bytes.now → ⊥) }
{
    let Some((first, rest)) = take_number(bytes) else {
        return Err(Fault::Refused(NotReply));
    };
    let Some((second, rest)) = take_number(rest) else {
        return Err(Fault::Refused(NotReply));
    };
    match only_name(alloc, rest) {
        Ok(name) => Ok((first, second, name)),
        Err(fault) => Err(fault),
    }
}

/// A number and two of 64 bits, and nothing else.
pub(crate) fn number_and_wides(bytes: &[u8]) -> Option<(u32, u64, u64)>
    ensures { MatchOption result (FitsForms (Number ∷ Wide ∷ Wide ∷ []) bytes.now → ⊥)
        (λ r. AreFields (codes.Number r.0 ∷ codes.Wide r.1 ∷ codes.Wide r.2 ∷ []) bytes.now) }
{
    let Some((first, rest)) = take_number(bytes) else {
        return None;
    };
    let Some((second, rest)) = take_wide(rest) else {
        return None;
    };
    match take_wide(rest) {
        Some((third, rest)) if rest.is_empty() => Some((first, second, third)),
        _ => None,
    }
}
