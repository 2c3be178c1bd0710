//! A refusal, told once more.

ghost use Rattle.std.specs.Prelude.{◌≡◌, IfOk};

use omos_base::NoMemory;
use omos_model::{Refusal, Site};

fn site(site: &Site) -> Site
    ensures { result ≡ site.now }
{
    Site {
        path: site.path.copy(),
        node: site.node,
    }
}

/// The same refusal once more. Names are shared.
pub fn again(refusal: &Refusal) -> Result<Refusal, NoMemory>
    ensures { IfOk result (λ r. r ≡ refusal.now) }
{
    match refusal {
        Refusal::NoEntry { site: at, path } => Ok(Refusal::NoEntry {
            site: site(at),
            path: path.copy(),
        }),
        Refusal::Cycle { site: at, path } => Ok(Refusal::Cycle {
            site: site(at),
            path: path.copy(),
        }),
        Refusal::TooDeep { site: at, path } => Ok(Refusal::TooDeep {
            site: site(at),
            path: path.copy(),
        }),
        Refusal::TooLarge { site: at } => Ok(Refusal::TooLarge { site: site(at) }),
        Refusal::Conflict { site: at, name } => Ok(Refusal::Conflict {
            site: site(at),
            name: name.copy()?,
        }),
        Refusal::NoName { site: at, name } => Ok(Refusal::NoName {
            site: site(at),
            name: name.copy()?,
        }),
        Refusal::NoDefinition { site: at, name } => Ok(Refusal::NoDefinition {
            site: site(at),
            name: name.copy()?,
        }),
        Refusal::Taken { site: at, name } => Ok(Refusal::Taken {
            site: site(at),
            name: name.copy()?,
        }),
        Refusal::ImageTooLarge { pages } => Ok(Refusal::ImageTooLarge { pages: *pages }),
        Refusal::NoStart { name } => Ok(Refusal::NoStart { name: name.copy()? }),
        Refusal::Unresolved { leaf, fixup, name } => Ok(Refusal::Unresolved {
            leaf: *leaf,
            fixup: *fixup,
            name: name.copy()?,
        }),
        Refusal::NoRoom { pages, lo, hi } => Ok(Refusal::NoRoom {
            pages: *pages,
            lo: *lo,
            hi: *hi,
        }),
        Refusal::Overflow { leaf, fixup } => Ok(Refusal::Overflow {
            leaf: *leaf,
            fixup: *fixup,
        }),
    }
}
