//! The names and paths of an image are names and paths, as a fact. Their types keep it, and a visit
//! of them says it: nothing is computed.

ghost use Rattle.std.specs.Prelude.{All};
ghost use Rattle.omos_base.specs.SymNames.{IsSymName};
ghost use Rattle.bp_tree.specs.Canonical.{canonical_text};
ghost use Rattle.bp_tree.specs.Named.{IsNamedExpr, IsNamed};
ghost use Rattle.bp_tree.specs.Texts.{IsText};

use crate::laws::canonical_texts_are_read_back;
use omos_base::SymName;
use omos_model::{Expr, Image, Start};

/// The names are names.
fn see_names(names: &[SymName])
    ensures { All IsSymName names.now }
{
    'names: for name in names {
        name.as_bytes();
    }
}

/// What the operands say are names and paths.
#[cycle(sight)]
fn see_operands(operands: &[Expr])
    ensures { All IsNamedExpr operands.now }
{
    'operands: for operand in operands {
        see_expr(operand);
    }
}

/// What the expression says are names and paths.
#[cycle(sight)]
fn see_expr(expr: &Expr)
    ensures { IsNamedExpr expr.now }
{
    match expr {
        Expr::Path(path) => {
            path.as_bytes();
        }
        Expr::Merge(operands) => see_operands(operands.as_slice()),
        Expr::Override(left, right) => {
            see_expr(left.get());
            see_expr(right.get());
        }
        Expr::Rename { from, to, body } => {
            from.as_bytes();
            to.as_bytes();
            see_expr(body.get());
        }
        Expr::Restrict { name, body } => {
            name.as_bytes();
            see_expr(body.get());
        }
        Expr::Freeze { name, body } => {
            name.as_bytes();
            see_expr(body.get());
        }
        Expr::Hide { name, body } => {
            name.as_bytes();
            see_expr(body.get());
        }
        Expr::Show { names, body } => {
            see_names(names.as_slice());
            see_expr(body.get());
        }
        Expr::CopyAs { from, to, body } => {
            from.as_bytes();
            to.as_bytes();
            see_expr(body.get());
        }
    }
}

/// The canonical text of an image says it. Linear in the image.
pub fn text_says(image: &Image)
    ensures named { IsNamed image.now }
    ensures said { IsText (canonical_text image.now) image.now }
{
    canonical_texts_are_read_back();
    see_expr(image.body());
    if let Start::Named(name) = image.start() {
        name.as_bytes();
    }
}
