//! Small programs that name places, and small programs that do not. The builders leave out what finds
//! no memory, so that the answer is wrong then.

use crate::names_places;
use sal_ast::{
    Aim, Arg, At, Behavior, Chain, Expr, Ident, Member, Program, Property, Send, Stage, Stmt,
};
use sal_value::{Boxed, List, Text};
use std::alloc::Global;

fn id(alloc: Global) -> Ident {
    Ident {
        text: Text::new(alloc),
        at: 0,
    }
}

fn one<T: Drop>(alloc: Global, item: T) -> List<T> {
    let mut list = List::new(alloc);
    let _ = list.push(item);
    list
}

/// `at (null)`
fn at(alloc: Global) -> Option<Boxed<At>> {
    let uan = Expr::Null(0);
    Boxed::new(
        alloc,
        At {
            at: 0,
            uan,
            ual: None,
        },
    )
    .ok()
}

/// `new B()`, perhaps with `at`
fn new_actor(alloc: Global, place: Option<Boxed<At>>) -> Expr {
    let behavior = id(alloc);
    let args = List::new(alloc);
    Expr::New {
        at: 0,
        behavior,
        args,
        place,
    }
}

/// `B.getReferenceByName(null)`
fn by_name(alloc: Global) -> Expr {
    match Boxed::new(alloc, Expr::Null(0)) {
        Ok(name) => Expr::ByName {
            at: 0,
            cast: None,
            behavior: id(alloc),
            name,
        },
        Err(_) => Expr::Null(0),
    }
}

/// What stands for a statement that found no memory. Its parts are dropped here, and not in an arm
/// beside the statement's own, where each variant would be a goal.
fn empty<T: Drop>(_parts: T) -> Stmt {
    Stmt::Empty(0)
}

fn answer(value: Expr) -> Stmt {
    Stmt::Return {
        at: 0,
        value: Some(value),
    }
}

/// `if (null) ; else return value;`
fn second_arm(alloc: Global, value: Expr) -> Stmt {
    let no = Boxed::new(alloc, answer(value)).ok();
    match Boxed::new(alloc, Stmt::Empty(0)) {
        Ok(yes) => Stmt::If {
            at: 0,
            test: Expr::Null(0),
            yes,
            no,
        },
        Err(_) => empty(no),
    }
}

/// `m(value):delay(time);`
fn message(alloc: Global, value: Expr, time: Expr) -> Stmt {
    let send = Send {
        aim: Aim::Own,
        handler: id(alloc),
        args: one(alloc, Arg::Expr(value)),
        properties: one(alloc, Property::Delay { at: 0, time }),
    };
    let chain = Chain {
        stages: one(alloc, Stage::Message(send)),
    };
    Stmt::Chain {
        chain,
        passed: None,
    }
}

/// Whether the program whose one handler is this statement names places.
fn answers(alloc: Global, stmt: Stmt) -> bool {
    let handler = Member::Handler {
        result: None,
        name: id(alloc),
        params: List::new(alloc),
        body: one(alloc, stmt),
    };
    let behavior = Behavior {
        name: id(alloc),
        members: one(alloc, handler),
    };
    names_places(&Program {
        behaviors: one(alloc, behavior),
    })
}

#[test]
fn programs_that_name_places(rt: HostRuntime) {
    let alloc = rt.alloc();
    assert!(rt; answers(alloc, answer(new_actor(alloc, at(alloc)))));
    assert!(rt; answers(alloc, second_arm(alloc, by_name(alloc))));
    assert!(rt; answers(alloc, message(alloc, Expr::Null(0), by_name(alloc))));
}

#[test]
fn programs_that_name_none(rt: HostRuntime) {
    let alloc = rt.alloc();
    assert!(rt; !answers(alloc, answer(new_actor(alloc, None))));
    assert!(rt; !answers(alloc, second_arm(alloc, Expr::Me(0))));
    assert!(rt; !answers(alloc, message(alloc, Expr::Null(0), Expr::Null(0))));
}
