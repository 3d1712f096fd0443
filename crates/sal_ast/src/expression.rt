use crate::program::{Ident, TypeName};
use sal_value::{Boxed, List, Text};

/// An operator between two operands.
#[derive(Clone, Copy, Debug, PartialEq, Eq)]
pub enum Op {
    Or,
    And,
    Same,
    Other,
    Less,
    LessEq,
    Greater,
    GreaterEq,
    Add,
    Sub,
    Mul,
    Div,
    Rem,
}

/// An operator with the operand after it.
#[cycle(expr)]
#[derive(Drop)]
pub struct Operand {
    pub op: Op,
    pub at: u32,
    pub value: Expr,
}

/// An index or `.length`, with the byte of its `[` or `.`.
#[cycle(expr)]
#[derive(Drop)]
pub enum Suffix {
    Index(u32, Expr),
    Length(u32),
}

/// An expression.
#[cycle(expr)]
#[derive(Drop)]
pub enum Expr {
    Number(u32, u32),
    Str(Text, u32),
    Bool(bool, u32),
    Null(u32),
    /// `self`
    Me(u32),
    Name(Ident),
    /// `this.field`, with the byte of `this`
    Own(u32, Ident),
    Paren(u32, Boxed<Expr>),
    Neg(u32, Boxed<Expr>),
    Not(u32, Boxed<Expr>),
    /// Operands of one rank, joined by operators.
    Level {
        first: Boxed<Expr>,
        rest: List<Operand>,
    },
    Suffixed {
        first: Boxed<Expr>,
        rest: List<Suffix>,
    },
    /// `new B(args)`, perhaps with `at`
    New {
        at: u32,
        behavior: Ident,
        args: List<Expr>,
        place: Option<Boxed<At>>,
    },
    /// `new T[size]`, where `sort` is the whole array's type
    Make {
        at: u32,
        sort: TypeName,
        size: Boxed<Expr>,
    },
    /// `new T[] { items }`, where `sort` is the whole array's type
    ListOf {
        at: u32,
        sort: TypeName,
        items: List<Expr>,
    },
    /// `B.getReferenceByName(name)`
    ByName {
        at: u32,
        cast: Option<Ident>,
        behavior: Ident,
        name: Boxed<Expr>,
    },
}

/// The name, and perhaps the locator, that a new actor gets.
#[cycle(expr)]
#[derive(Drop)]
pub struct At {
    pub at: u32,
    pub uan: Expr,
    pub ual: Option<Expr>,
}
