//! Where the parts of a plain object lie in its file.

ghost use Rattle.std.specs.Prelude.{◌≡◌, ◌<◌, ◌^◌};
ghost use Rattle.workload.specs.Plan.{next_eight};
ghost use Rattle.workload.specs.Plan.{object_plan};

/// A section's bytes in the file.
#[derive(Clone, Copy, Debug, PartialEq, Eq)]
pub struct Part {
    /// Where they begin.
    pub offset: u64,
    /// How many there are.
    pub size: u64,
}

/// Where the parts of a plain object lie in its file, behind the ELF header.
#[derive(Clone, Copy, Debug, PartialEq, Eq)]
pub struct Plan {
    /// Section 1, the code.
    pub code: Part,
    /// Section 2, the relocations.
    pub relas: Part,
    /// Section 3, the symbols.
    pub symbols: Part,
    /// Section 4, the names of the symbols.
    pub strings: Part,
    /// Where the section headers begin.
    pub headers: u64,
}

/// The least multiple of 8 that is so much or more.
fn next_multiple(size: u64) -> u64
    requires { size < 2 ^ 40 }
    ensures { result ≡ next_eight size }
{
    (size + 7) / 8 * 8
}

/// The plan for parts of these sizes.
#[tactic(auto, unfolding(crate::specs::Plan::object_plan))]
pub(crate) fn plan_for(code: u64, relas: u64, symbols: u64, strings: u64) -> Plan
    requires code_small { code < 2 ^ 32 }
    requires relas_small { relas < 2 ^ 32 }
    requires symbols_small { symbols < 2 ^ 32 }
    requires strings_small { strings < 2 ^ 32 }
    ensures { result ≡ object_plan code relas symbols strings }
{
    let relas_at = next_multiple(64 + code);
    let symbols_at = next_multiple(relas_at + relas);
    let strings_at = next_multiple(symbols_at + symbols);
    Plan {
        code: Part {
            offset: 64,
            size: code,
        },
        relas: Part {
            offset: relas_at,
            size: relas,
        },
        symbols: Part {
            offset: symbols_at,
            size: symbols,
        },
        strings: Part {
            offset: strings_at,
            size: strings,
        },
        headers: next_multiple(strings_at + strings),
    }
}
