//! The groups of an image: a number of bytes for each, and where all of them stand.

use omos_model::Group;

/// A number of bytes for each group: where it ends so far, its size, or where it begins, counted
/// from the base.
#[derive(Clone, Copy, Debug)]
pub struct ByGroup {
    pub code: u64,
    pub consts: u64,
    pub vars: u64,
    pub zeros: u64,
}

impl ByGroup {
    ghost use Rattle.std.specs.Prelude.{◌≡◌, if◌then◌else◌};
    ghost use Rattle.omos_model.specs.declared.fragment.Group.{Group};
    ghost use Rattle.link_model.specs.Layout.{same_group};
    ghost use Rattle.link_model.specs.Groups.{bytes_of};

    /// Nothing in any group.
    pub const EMPTY: ByGroup = ByGroup {
        code: 0,
        consts: 0,
        vars: 0,
        zeros: 0,
    };

    /// The number of a group.
    pub fn get(&self, group: Group) -> u64
        ensures { result ≡ bytes_of self.now group }
    {
        match group {
            Group::Code => self.code,
            Group::Consts => self.consts,
            Group::Vars => self.vars,
            Group::Zeros => self.zeros,
        }
    }

    /// Gives a group another number.
    pub fn set(&mut self, group: Group, bytes: u64)
        ensures { (g : Group) → bytes_of self.new g
            ≡ (if same_group g group then bytes else bytes_of self.old g) }
    {
        match group {
            Group::Code => self.code = bytes,
            Group::Consts => self.consts = bytes,
            Group::Vars => self.vars = bytes,
            Group::Zeros => self.zeros = bytes,
        }
    }
}

/// Where the groups of a module stand, counted from its base.
#[derive(Clone, Copy, Debug)]
pub struct Groups {
    /// In bytes.
    pub sizes: ByGroup,
    /// Where each begins.
    pub begins: ByGroup,
    /// Where the slots begin.
    pub slots: u64,
}
