use crate::expression::Expr;
use crate::statement::Stmt;
use sal_value::{List, Text};

/// An identifier, and its byte.
#[derive(Drop)]
pub struct Ident {
    pub text: Text,
    pub at: u32,
}

/// A type's name without brackets.
#[derive(Drop)]
pub enum BaseName {
    Int,
    Boolean,
    Str,
    /// A behaviour's name.
    Actor(Text),
}

/// A type, with so many pairs of brackets.
#[derive(Drop)]
pub struct TypeName {
    pub base: BaseName,
    pub dims: u32,
    pub at: u32,
}

/// A parameter.
#[derive(Drop)]
pub struct Param {
    pub sort: TypeName,
    pub name: Ident,
}

/// A program: its behaviours, in the order of the text.
#[derive(Drop)]
pub struct Program {
    pub behaviors: List<Behavior>,
}

#[derive(Drop)]
pub struct Behavior {
    pub name: Ident,
    pub members: List<Member>,
}

/// What stands in a behaviour.
#[derive(Drop)]
pub enum Member {
    Field {
        sort: TypeName,
        name: Ident,
        init: Option<Expr>,
    },
    Constructor {
        name: Ident,
        params: List<Param>,
        body: List<Stmt>,
    },
    /// A message handler. Without a result it is `void`.
    Handler {
        result: Option<TypeName>,
        name: Ident,
        params: List<Param>,
        body: List<Stmt>,
    },
}
