//! What stands for a value in a member of a behaviour.

ghost use Rattle.std.specs.Prelude.{◌≡◌, Some, option_map};
ghost use Rattle.std.specs.Option.{option_copied};
ghost use Rattle.sal_sorts.specs.Environments as spec;

use crate::identifier::Identifier;
use crate::sort::Sort;
use sal_ast::Ident;

/// A parameter, local, token or field. A token has the sort of the value that it waits for.
#[derive(Drop)]
pub struct Variable<'a> {
    pub name: Identifier<'a>,
    pub sort: Sort<'a>,
    pub is_token: bool,
}

/// In which kind of member of its behaviour a node stands.
#[derive(Clone, Copy, Debug, PartialEq, Eq)]
pub enum MemberKind {
    /// A field, with its initialiser.
    Initialiser,
    Constructor,
    Handler,
}

impl<'a> Variable<'a> {
    /// The name that a declaration brings into scope.
    pub fn new(name: &'a Ident, sort: Sort<'a>, is_token: bool) -> Variable<'a>
        ensures { Some result ≡ spec.new_variable name.now sort.entry is_token }
    {
        Variable {
            name: Identifier::new(&name.text),
            sort,
            is_token,
        }
    }

    pub fn copy(&self) -> Variable<'a>
        ensures { result ≡ self.now }
    {
        Variable {
            name: self.name.copy(),
            sort: self.sort.copy(),
            is_token: self.is_token,
        }
    }
}

impl MemberKind {
    pub fn is_handler(self) -> bool
        ensures { result ≡ spec.is_handler self }
    {
        match self {
            MemberKind::Initialiser => false,
            MemberKind::Constructor => false,
            MemberKind::Handler => true,
        }
    }

    pub fn is_constructor(self) -> bool
        ensures { result ≡ spec.is_constructor self }
    {
        match self {
            MemberKind::Initialiser => false,
            MemberKind::Constructor => true,
            MemberKind::Handler => false,
        }
    }
}
