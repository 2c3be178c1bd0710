//! Images as canonical text.
//!
//! `(image (entry main) (merge /a (freeze x /b)))`: one space between two tokens, but none after
//! `(` and none before `)`; a start or a range that is the default is left out.

ghost use Rattle.std.specs.Prelude.{◌≡◌, ◌++◌, ◌∷◌, [], codes, map, IfOk, OnOk, IsTrue, ◌↔◌};
ghost use Rattle.std.specs.Fmt.{digits};
ghost use Rattle.bp_tree.specs.Canonical.{spaced, each_spaced, expr_text, start_text, hex_text};
ghost use Rattle.bp_tree.specs.Canonical.{range_text, canonical_text};

use omos_base::{Bytes, NoMemory, SymName};
use omos_model::{Expr, Image, Start};
use std::alloc::Global;

/// Appends names, with one space between two.
fn push_names(text: &mut Bytes, names: &[SymName]) -> Result<(), NoMemory>
    ensures { OnOk result (text.new ≡ text.old ++ spaced names.now) }
{
    let Some((first, more)) = names.split_first() else {
        return Ok(());
    };
    text.push_slice(first.as_bytes())?;
    'names: for name in more {
        text.push_slice(b" ")?;
        text.push_slice(name.as_bytes())?;
    }
    Ok(())
}

/// Appends an operator's opening, a name and a space.
fn push_named(text: &mut Bytes, opening: &[u8], name: &SymName) -> Result<(), NoMemory>
    ensures { OnOk result (text.new ≡ text.old ++ (opening.now ++ name.now ++ codes " ")) }
{
    text.push_slice(opening)?;
    text.push_slice(name.as_bytes())?;
    text.push_slice(b" ")
}

/// Appends each operand, after a space.
#[cycle(expression)]
fn push_operands(text: &mut Bytes, operands: &[Expr]) -> Result<(), NoMemory>
    ensures { OnOk result (text.new ≡ text.old ++ each_spaced (map expr_text operands.now)) }
{
    'operands: for operand in operands {
        text.push_slice(b" ")?;
        push_expr(text, operand)?;
    }
    Ok(())
}

/// Appends an expression.
#[cycle(expression)]
#[tactic(auto, using(crate::proofs::Layers::texts))]
fn push_expr(text: &mut Bytes, expr: &Expr) -> Result<(), NoMemory>
    ensures { OnOk result (text.new ≡ text.old ++ expr_text expr.now) }
{
    match expr {
        Expr::Path(path) => text.push_slice(path.as_bytes()),
        Expr::Merge(operands) => {
            text.push_slice(b"(merge")?;
            push_operands(text, operands.as_slice())?;
            text.push_slice(b")")
        }
        Expr::Override(left, right) => {
            text.push_slice(b"(override ")?;
            push_expr(text, left.get())?;
            text.push_slice(b" ")?;
            push_expr(text, right.get())?;
            text.push_slice(b")")
        }
        Expr::Rename { from, to, body } => {
            push_named(text, b"(rename ", from)?;
            push_named(text, b"", to)?;
            push_expr(text, body.get())?;
            text.push_slice(b")")
        }
        Expr::Restrict { name, body } => {
            push_named(text, b"(restrict ", name)?;
            push_expr(text, body.get())?;
            text.push_slice(b")")
        }
        Expr::Freeze { name, body } => {
            push_named(text, b"(freeze ", name)?;
            push_expr(text, body.get())?;
            text.push_slice(b")")
        }
        Expr::Hide { name, body } => {
            push_named(text, b"(hide ", name)?;
            push_expr(text, body.get())?;
            text.push_slice(b")")
        }
        Expr::Show { names, body } => {
            text.push_slice(b"(show (")?;
            push_names(text, names.as_slice())?;
            text.push_slice(b") ")?;
            push_expr(text, body.get())?;
            text.push_slice(b")")
        }
        Expr::CopyAs { from, to, body } => {
            push_named(text, b"(copy_as ", from)?;
            push_named(text, b"", to)?;
            push_expr(text, body.get())?;
            text.push_slice(b")")
        }
    }
}

/// Appends a number, as `0x` and lower-case digits.
fn push_hex(alloc: Global, text: &mut Bytes, number: u64) -> Result<(), NoMemory>
    ensures { OnOk result (text.new ≡ text.old ++ hex_text number) }
{
    let digits = format!(in alloc; "{number:x}")?;
    text.push_slice(b"0x")?;
    text.push_slice(digits.as_bytes())
}

/// Appends the start and a space, where it isn't `_start`.
fn push_start(text: &mut Bytes, start: &Start) -> Result<(), NoMemory>
    ensures { OnOk result (text.new ≡ text.old ++ start_text start.now) }
{
    match start {
        Start::Named(name) if name.as_bytes() == b"_start".as_slice() => Ok(()),
        Start::Named(name) => {
            text.push_slice(b"(entry ")?;
            text.push_slice(name.as_bytes())?;
            text.push_slice(b") ")
        }
        Start::NoEntry => text.push_slice(b"(no_entry) "),
    }
}

/// Appends the range and a space, where it isn't the default.
fn push_range(alloc: Global, text: &mut Bytes, lo: u64, hi: u64) -> Result<(), NoMemory>
    ensures { OnOk result (text.new ≡ text.old ++ range_text lo hi) }
{
    if lo == 0x40_0000 && hi == 0x4000_0000 {
        return Ok(());
    }
    text.push_slice(b"(range ")?;
    push_hex(alloc, text, lo)?;
    text.push_slice(b" ")?;
    push_hex(alloc, text, hi)?;
    text.push_slice(b") ")
}

/// The canonical text of an image: the least that reads as it, on one line. Linear in the text.
pub fn print(alloc: Global, image: &Image) -> Result<Bytes, NoMemory>
    ensures text { IfOk result (λ bytes. bytes ≡ canonical_text image.now) }
{
    let mut text = Bytes::from_slice(alloc, b"(image ")?;
    push_start(&mut text, image.start())?;
    push_range(alloc, &mut text, image.lo(), image.hi())?;
    push_expr(&mut text, image.body())?;
    text.push_slice(b")")?;
    Ok(text)
}
