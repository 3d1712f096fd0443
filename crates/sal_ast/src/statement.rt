use crate::expression::Expr;
use crate::program::{Ident, TypeName};
use sal_value::{Boxed, List};

/// The declaration of a local variable.
#[derive(Drop)]
pub struct Declare {
    pub sort: TypeName,
    pub name: Ident,
    pub init: Option<Expr>,
}

/// An assignment. `own` says that `this.` stands before the name.
#[derive(Drop)]
pub struct Assign {
    pub own: bool,
    pub name: Ident,
    pub indexes: List<Expr>,
    pub value: Expr,
}

/// What stands first in the parentheses of a `for`.
#[derive(Drop)]
pub enum ForInit {
    Nothing,
    Declare(Declare),
    Assign(Assign),
}

/// A statement.
#[cycle(stmt)]
#[derive(Drop)]
pub enum Stmt {
    Empty(u32),
    Block(u32, List<Stmt>),
    Declare(Declare),
    Assign(Assign),
    If {
        at: u32,
        test: Expr,
        yes: Boxed<Stmt>,
        no: Option<Boxed<Stmt>>,
    },
    While {
        at: u32,
        test: Expr,
        body: Boxed<Stmt>,
    },
    For {
        at: u32,
        init: ForInit,
        test: Option<Expr>,
        next: Option<Assign>,
        body: Boxed<Stmt>,
    },
    Return {
        at: u32,
        value: Option<Expr>,
    },
    /// `token name = chain;`
    Token {
        at: u32,
        name: Ident,
        chain: Chain,
    },
    /// A chain. `passed` is the byte of `currentContinuation`, where the chain ends in it.
    Chain {
        chain: Chain,
        passed: Option<u32>,
    },
}

/// Stages, each of which waits for the one before it.
#[cycle(stmt)]
#[derive(Drop)]
pub struct Chain {
    pub stages: List<Stage>,
}

#[cycle(stmt)]
#[derive(Drop)]
pub enum Stage {
    Message(Send),
    Join { at: u32, body: List<Stmt> },
}

/// The target of a message: the sender itself, `standardOutput`, or an actor.
#[derive(Drop)]
pub enum Aim {
    Own,
    Output(u32),
    Actor(Expr),
}

/// A message that is sent.
#[derive(Drop)]
pub struct Send {
    pub aim: Aim,
    pub handler: Ident,
    pub args: List<Arg>,
    pub properties: List<Property>,
}

/// An argument: `token`, which is the reply of the stage before, or an expression.
#[derive(Drop)]
pub enum Arg {
    Token(u32),
    Expr(Expr),
}

/// A property of a message, with the byte of its `:`.
#[derive(Drop)]
pub enum Property {
    Delay { at: u32, time: Expr },
    WaitFor { at: u32, names: List<Ident> },
}
