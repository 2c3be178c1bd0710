//! Reading of the two numbers of a range.

ghost use Rattle.std.specs.Prelude.{◌≡◌, ◌∷◌, [], IsTrue};
ghost use Rattle.omos_base.specs.Fault.{MatchFault};
ghost use Rattle.omos_model.specs.ImageParts.{is_range, top};
ghost use Rattle.bp_tree.specs.inside.Header.{AreBounds, IsUpper};
ghost use Rattle.bp_tree.specs.inside.Pending.{pending};
ghost use Rattle.bp_tree.specs.inside.Symbols.{Low, High, AreRead, Fails};

use crate::leaves::close;
use crate::numbers::number;
use crate::stop::Stop;
use crate::token::{Reader, Token};
use omos_base::Fault;
use omos_model::BpFault;

/// Where user space ends, but for its last page.
const TOP: u64 = 0x7fff_ffff_f000;

/// Whether they are whole pages, from 0x10000 on, of user space.
fn are_bounds(lo: u64, hi: u64) -> bool
    ensures { result ≡ is_range lo hi }
{
    lo % 4096 == 0 && hi % 4096 == 0 && 0x1_0000 <= lo && lo < hi && hi <= TOP
}

/// The second number and the parenthesis, and what comes after it.
fn upper<'a>(lo: u64, from: Reader<'a>) -> Result<(u64, Reader<'a>), Fault<Stop>>
    requires { IsTrue (is_range lo top) }
    ensures { MatchFault result (λ r. AreRead (High lo ∷ []) (IsUpper lo r.0)
        (pending from.entry) (pending r.1)) (Fails (High lo ∷ []) (pending from.entry)) }
{
    match from.next() {
        None => Err(Fault::Refused(Stop::Early)),
        Some(next) => match next.token {
            Token::Word(word) => match number(word) {
                None => Err(Fault::Refused(Stop::At(BpFault::Number(next.place)))),
                Some(hi) => {
                    if are_bounds(lo, hi) {
                        match close(next.after) {
                            Ok(after) => Ok((hi, after)),
                            Err(fault) => Err(fault),
                        }
                    } else {
                        Err(Fault::Refused(Stop::At(BpFault::Range(next.place))))
                    }
                }
            },
            _ => Err(Fault::Refused(Stop::At(BpFault::Shape(next.place)))),
        },
    }
}

/// The two numbers and the parenthesis, and what comes after it.
pub(crate) fn bounds<'a>(from: Reader<'a>) -> Result<(u64, u64, Reader<'a>), Fault<Stop>>
    ensures { MatchFault result (λ r. AreRead (Low ∷ []) (AreBounds r.0 r.1)
        (pending from.entry) (pending r.2)) (Fails (Low ∷ []) (pending from.entry)) }
{
    match from.next() {
        None => Err(Fault::Refused(Stop::Early)),
        Some(next) => match next.token {
            Token::Word(word) => match number(word) {
                None => Err(Fault::Refused(Stop::At(BpFault::Number(next.place)))),
                Some(lo) => {
                    if are_bounds(lo, TOP) {
                        match upper(lo, next.after) {
                            Ok((hi, after)) => Ok((lo, hi, after)),
                            Err(fault) => Err(fault),
                        }
                    } else {
                        Err(Fault::Refused(Stop::At(BpFault::Range(next.place))))
                    }
                }
            },
            _ => Err(Fault::Refused(Stop::At(BpFault::Shape(next.place)))),
        },
    }
}
