//! Reading of expressions, by recursive descent. A merge's operands are a loop, so the descent is
//! as deep as parentheses may nest.

ghost use Rattle.std.specs.Prelude.{◌≡◌, ◌≤◌, ◌∷◌, [], map, ◌++◌, All};
ghost use Rattle.omos_base.specs.Fault.{MatchFault};
ghost use Rattle.omos_base.specs.Paths.{IsPath};
ghost use Rattle.omos_base.specs.SymNames.{IsSymName};
ghost use Rattle.bp_tree.specs.Tokens as token;
ghost use Rattle.bp_tree.specs.Grammar.{IsExpr, IsOpened};
ghost use Rattle.bp_tree.specs.inside.Pending.{pending};
ghost use Rattle.bp_tree.specs.inside.Symbols.{It, AName, Names, AnExpr, Inside, Exprs, AreRead};
ghost use Rattle.bp_tree.specs.inside.Symbols.{Fails};
ghost use Rattle.bp_tree.specs.inside.Symbols.{IsOperator, arguments, behind, keyword};
ghost use Rattle.bp_tree.specs.inside.Symbols.{kind_nesting};
ghost use Rattle.bp_tree.specs.inside.Symbols.{AreOperands, HasOneMore};

use crate::form::{Applied, Form};
use crate::leaves::{close, name, names, open};
use crate::operator::Operator;
use crate::stop::Stop;
use crate::token::{Reader, Token};
use omos_base::{Fault, PathName, SymName};
use omos_model::{BpFault, Expr};
use sqlite_items::{Boxed, Items};
use std::alloc::Global;

/// Two names, and what comes after them.
fn two_names<'a>(
    alloc: Global,
    from: Reader<'a>,
) -> Result<(SymName, SymName, Reader<'a>), Fault<Stop>>
    ensures { MatchFault result (λ r. AreRead (AName ∷ AName ∷ [])
        (λ ws. (ws ≡ token.Word r.0 ∷ token.Word r.1 ∷ []) × IsSymName r.0 × IsSymName r.1)
        (pending from.entry) (pending r.2)) (Fails (AName ∷ AName ∷ []) (pending from.entry)) }
{
    let (first, after) = name(alloc, from)?;
    let (second, after) = name(alloc, after)?;
    Ok((first, second, after))
}

/// A list of names in parentheses, and what comes after it.
fn listed<'a>(alloc: Global, from: Reader<'a>) -> Result<(Items<SymName>, Reader<'a>), Fault<Stop>>
    ensures { MatchFault result (λ r. AreRead (It token.Open ∷ Names ∷ [])
        (λ ws. (ws ≡ token.Open ∷ (map token.Word r.0 ++ token.Close ∷ [])) × All IsSymName r.0)
        (pending from.entry) (pending r.1))
        (Fails (It token.Open ∷ Names ∷ []) (pending from.entry)) }
{
    let after = open(from)?;
    names(alloc, after)
}

/// An operator's arguments, and what comes after them.
fn operator<'a>(
    alloc: Global,
    kind: Applied,
    from: Reader<'a>,
) -> Result<(Operator, Reader<'a>), Fault<Stop>>
    ensures { MatchFault result (λ r. AreRead (arguments kind) (IsOperator kind r.0)
        (pending from.entry) (pending r.1)) (Fails (arguments kind) (pending from.entry)) }
{
    match kind {
        Applied::Rename => {
            let (old, new, after) = two_names(alloc, from)?;
            Ok((Operator::Rename(old, new), after))
        }
        Applied::Restrict => {
            let (name, after) = name(alloc, from)?;
            Ok((Operator::Restrict(name), after))
        }
        Applied::Freeze => {
            let (name, after) = name(alloc, from)?;
            Ok((Operator::Freeze(name), after))
        }
        Applied::Hide => {
            let (name, after) = name(alloc, from)?;
            Ok((Operator::Hide(name), after))
        }
        Applied::Show => {
            let (names, after) = listed(alloc, from)?;
            Ok((Operator::Show(names), after))
        }
        Applied::CopyAs => {
            let (old, new, after) = two_names(alloc, from)?;
            Ok((Operator::CopyAs(old, new), after))
        }
    }
}

/// An operator's arguments and operand.
#[cycle(expression)]
fn applied<'a>(
    alloc: Global,
    kind: Applied,
    from: Reader<'a>,
    room: u32,
) -> Result<(Expr, Reader<'a>), Fault<Stop>>
    requires { kind_nesting kind ≤ room }
    ensures { MatchFault result (λ r. AreRead (behind room (Form.Apply kind))
        (λ ws. IsOpened room (IsExpr room)
        (token.Open ∷ token.Word (keyword (Form.Apply kind)) ∷ ws) r.0)
        (pending from.entry) (pending r.1))
        (Fails (behind room (Form.Apply kind)) (pending from.entry)) }
{
    let (operator, after) = operator(alloc, kind, from)?;
    let (operand, after) = expr(alloc, after, room)?;
    let after = close(after)?;
    Ok((operator.apply(alloc, operand)?, after))
}

/// The two operands of an override.
#[cycle(expression)]
fn overridden<'a>(
    alloc: Global,
    from: Reader<'a>,
    room: u32,
) -> Result<(Expr, Reader<'a>), Fault<Stop>>
    ensures { MatchFault result (λ r. AreRead (behind room Form.Override)
        (λ ws. IsOpened room (IsExpr room)
        (token.Open ∷ token.Word (keyword Form.Override) ∷ ws) r.0)
        (pending from.entry) (pending r.1))
        (Fails (behind room Form.Override) (pending from.entry)) }
{
    let (left, after) = expr(alloc, from, room)?;
    let (right, after) = expr(alloc, after, room)?;
    let after = close(after)?;
    let first = Boxed::new(alloc, left)?;
    let second = Boxed::new(alloc, right)?;
    Ok((Expr::Override(first, second), after))
}

/// Appends the path that a word is. Most operands are paths: none of them is handed up, nor is why
/// a word is no path. Inlined, it would set the room of a path to zero at each turn of the loop.
#[inline(never)]
#[tactic(auto, using(crate::proofs::Forms::no_path))]
fn push_path(operands: &mut Items<Expr>, word: &[u8]) -> Result<(), Fault<()>>
    ensures { MatchFault result (λ _. IsPath word.now
        × (operands.new ≡ operands.old ++ Expr.Path word.now ∷ [])) (λ _. ¬ IsPath word.now) }
{
    match PathName::read(word) {
        Ok(path) => match operands.push(Expr::Path(path)) {
            Ok(()) => Ok(()),
            Err(_) => Err(Fault::NoMemory),
        },
        Err(_) => Err(Fault::Refused(())),
    }
}

/// Appends the expression that comes next.
#[cycle(expression)]
#[inline(never)]
fn push_expr<'a>(
    alloc: Global,
    operands: &mut Items<Expr>,
    from: Reader<'a>,
    room: u32,
) -> Result<Reader<'a>, Fault<Stop>>
    ensures { MatchFault result (λ after. HasOneMore room operands.old operands.new
        (pending from.entry) (pending after)) (Fails (AnExpr room ∷ []) (pending from.entry)) }
{
    match expr(alloc, from, room) {
        Ok((operand, after)) => match operands.push(operand) {
            Ok(()) => Ok(after),
            Err(_) => Err(Fault::NoMemory),
        },
        Err(fault) => Err(fault),
    }
}

/// Appends one operand.
#[cycle(expression)]
fn push_one<'a>(
    alloc: Global,
    operands: &mut Items<Expr>,
    from: Reader<'a>,
    room: u32,
) -> Result<Reader<'a>, Fault<Stop>>
    ensures { MatchFault result (λ after. HasOneMore room operands.old operands.new
        (pending from.entry) (pending after)) (Fails (AnExpr room ∷ []) (pending from.entry)) }
{
    match from.next() {
        None => Err(Fault::Refused(Stop::Early)),
        Some(next) => match next.token {
            Token::Word(word) => match push_path(operands, word) {
                Ok(()) => Ok(next.after),
                Err(Fault::Refused(_)) => {
                    Err(Fault::Refused(Stop::At(BpFault::Shape(next.place))))
                }
                Err(Fault::NoMemory) => Err(Fault::NoMemory),
            },
            _ => push_expr(alloc, operands, from, room),
        },
    }
}

/// Further operands of a merge, behind those that are given.
#[cycle(expression)]
fn operands<'a>(
    alloc: Global,
    given: Items<Expr>,
    from: Reader<'a>,
    room: u32,
) -> Result<(Items<Expr>, Reader<'a>), Fault<Stop>>
    ensures { MatchFault result (λ r. AreRead (Exprs room ∷ []) (AreOperands room given r.0)
        (pending from.entry) (pending r.1)) (Fails (Exprs room ∷ []) (pending from.entry)) }
{
    let mut operands = given;
    let mut rest = from;
    'operands: loop {
        match rest.next() {
            None => return Err(Fault::Refused(Stop::Early)),
            Some(next) => match next.token {
                Token::Close => return Ok((operands, next.after)),
                Token::Word(word) => match push_path(&mut operands, word) {
                    Ok(()) => rest = next.after,
                    Err(Fault::Refused(_)) => {
                        return Err(Fault::Refused(Stop::At(BpFault::Shape(next.place))));
                    }
                    Err(Fault::NoMemory) => return Err(Fault::NoMemory),
                },
                _ => match push_expr(alloc, &mut operands, rest, room) {
                    Ok(after) => rest = after,
                    Err(fault) => return Err(fault),
                },
            },
        }
    }
}

/// The operands of a merge.
#[cycle(expression)]
fn merged<'a>(alloc: Global, from: Reader<'a>, room: u32) -> Result<(Expr, Reader<'a>), Fault<Stop>>
    ensures { MatchFault result (λ r. AreRead (behind room Form.Merge)
        (λ ws. IsOpened room (IsExpr room)
        (token.Open ∷ token.Word (keyword Form.Merge) ∷ ws) r.0)
        (pending from.entry) (pending r.1)) (Fails (behind room Form.Merge) (pending from.entry)) }
{
    let mut given = Items::new(alloc);
    let one = push_one(alloc, &mut given, from, room)?;
    let two = push_one(alloc, &mut given, one, room)?;
    let (all, after) = operands(alloc, given, two, room)?;
    Ok((Expr::Merge(all), after))
}

/// What stands behind the first parenthesis of an expression.
#[cycle(expression)]
fn inside<'a>(alloc: Global, from: Reader<'a>, room: u32) -> Result<(Expr, Reader<'a>), Fault<Stop>>
    ensures { MatchFault result (λ r. AreRead (Inside room ∷ [])
        (λ ws. IsOpened room (IsExpr room) (token.Open ∷ ws) r.0)
        (pending from.entry) (pending r.1))
        (Fails (Inside room ∷ []) (pending from.entry)) }
{
    match from.next() {
        None => Err(Fault::Refused(Stop::Early)),
        Some(next) => match next.token {
            Token::Word(word) => match Form::named(word) {
                None => Err(Fault::Refused(Stop::At(BpFault::Shape(next.place)))),
                Some(Form::Merge) => merged(alloc, next.after, room),
                Some(Form::Override) => overridden(alloc, next.after, room),
                Some(Form::Apply(kind)) => {
                    // The list of a show is in parentheses of its own.
                    if kind.nesting() <= room {
                        applied(alloc, kind, next.after, room)
                    } else {
                        Err(Fault::Refused(Stop::At(BpFault::Shape(next.place))))
                    }
                }
            },
            _ => Err(Fault::Refused(Stop::At(BpFault::Shape(next.place)))),
        },
    }
}

/// An expression in which parentheses nest at most `room` deep, and what comes after it.
#[cycle(expression)]
pub(crate) fn expr<'a>(
    alloc: Global,
    from: Reader<'a>,
    room: u32,
) -> Result<(Expr, Reader<'a>), Fault<Stop>>
    ensures { MatchFault result (λ r. AreRead (AnExpr room ∷ []) (λ ws. IsExpr room ws r.0)
        (pending from.entry) (pending r.1)) (Fails (AnExpr room ∷ []) (pending from.entry)) }
{
    match from.next() {
        None => Err(Fault::Refused(Stop::Early)),
        Some(next) => match next.token {
            Token::Word(word) => match PathName::read(word) {
                Ok(path) => Ok((Expr::Path(path), next.after)),
                Err(_) => Err(Fault::Refused(Stop::At(BpFault::Shape(next.place)))),
            },
            Token::Open => {
                if room == 0 {
                    Err(Fault::Refused(Stop::At(BpFault::Deep(next.place))))
                } else {
                    inside(alloc, next.after, room - 1)
                }
            }
            _ => Err(Fault::Refused(Stop::At(BpFault::Shape(next.place)))),
        },
    }
}
