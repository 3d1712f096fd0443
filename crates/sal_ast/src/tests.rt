//! A program of every form of the grammar, and its tokens written out. The builders leave out what finds no memory, and then
//! the comparison fails: so they have no early ends, whose drops would take long to prove.

use crate::*;
use sal_value::{Boxed, List, NoMemory, Text};
use std::alloc::Global;
use std::test::Fail;

fn text(alloc: Global, text: &str) -> Text {
    match Text::from_text(alloc, text) {
        Ok(text) => text,
        Err(_) => Text::new(alloc),
    }
}

fn id(alloc: Global, name: &str) -> Ident {
    let text = text(alloc, name);
    Ident { text, at: 0 }
}

fn sort(base: BaseName, dims: u32) -> TypeName {
    TypeName { base, dims, at: 0 }
}

fn and<T: Drop>(mut list: List<T>, item: T) -> List<T> {
    let _ = list.push(item);
    list
}

fn one<T: Drop>(alloc: Global, item: T) -> List<T> {
    and(List::new(alloc), item)
}

fn number(value: u32) -> Expr {
    Expr::Number(value, 0)
}

fn name(alloc: Global, text: &str) -> Expr {
    Expr::Name(id(alloc, text))
}

fn string(alloc: Global, string: &str) -> Expr {
    Expr::Str(text(alloc, string), 0)
}

/// What stands for a form that found no memory. Its other parts are dropped here, and not in an arm beside the form's own,
/// where each variant would be a goal.
fn null<T: Drop>(_parts: T) -> Expr {
    Expr::Null(0)
}

/// The same of a statement.
fn empty<T: Drop>(_parts: T) -> Stmt {
    Stmt::Empty(0)
}

/// `!(inner)`
fn not(alloc: Global, inner: Expr) -> Expr {
    let paren = match Boxed::new(alloc, inner) {
        Ok(inner) => Expr::Paren(0, inner),
        Err(_) => Expr::Null(0),
    };
    match Boxed::new(alloc, paren) {
        Ok(paren) => Expr::Not(0, paren),
        Err(_) => Expr::Null(0),
    }
}

fn negative(alloc: Global, inner: Expr) -> Expr {
    match Boxed::new(alloc, inner) {
        Ok(inner) => Expr::Neg(0, inner),
        Err(_) => Expr::Null(0),
    }
}

/// `first op value`
fn level(alloc: Global, first: Expr, op: Op, value: Expr) -> Expr {
    let rest = one(alloc, Operand { op, at: 0, value });
    match Boxed::new(alloc, first) {
        Ok(first) => Expr::Level { first, rest },
        Err(_) => null(rest),
    }
}

/// `first[index].length`
fn suffixed(alloc: Global, first: Expr, index: Expr) -> Expr {
    let rest = and(one(alloc, Suffix::Index(0, index)), Suffix::Length(0));
    match Boxed::new(alloc, first) {
        Ok(first) => Expr::Suffixed { first, rest },
        Err(_) => null(rest),
    }
}

/// `new int[2][]`
fn make(alloc: Global) -> Expr {
    let sort = sort(BaseName::Int, 2);
    match Boxed::new(alloc, number(2)) {
        Ok(size) => Expr::Make { at: 0, sort, size },
        Err(_) => null(sort),
    }
}

/// `new B(args) at ("u", ual)`
fn new_actor(alloc: Global, args: List<Expr>, ual: Option<Expr>) -> Expr {
    let uan = string(alloc, "u");
    let place = Boxed::new(alloc, At { at: 0, uan, ual }).ok();
    let behavior = id(alloc, "B");
    Expr::New {
        at: 0,
        behavior,
        args,
        place,
    }
}

/// `B.getReferenceByName("u")`, perhaps with a cast
fn by_name(alloc: Global, cast: Option<Ident>) -> Expr {
    let behavior = id(alloc, "B");
    match Boxed::new(alloc, string(alloc, "u")) {
        Ok(name) => Expr::ByName {
            at: 0,
            cast,
            behavior,
            name,
        },
        Err(_) => null((cast, behavior)),
    }
}

fn assign(alloc: Global, own: bool, text: &str, indexes: List<Expr>, value: Expr) -> Assign {
    let name = id(alloc, text);
    Assign {
        own,
        name,
        indexes,
        value,
    }
}

/// `text = value`
fn set(alloc: Global, text: &str, value: Expr) -> Assign {
    assign(alloc, false, text, List::new(alloc), value)
}

fn declare(alloc: Global, sort: TypeName, text: &str, init: Option<Expr>) -> Declare {
    let name = id(alloc, text);
    Declare { sort, name, init }
}

fn when(alloc: Global, test: Expr, yes: Stmt, no: Option<Boxed<Stmt>>) -> Stmt {
    match Boxed::new(alloc, yes) {
        Ok(yes) => Stmt::If {
            at: 0,
            test,
            yes,
            no,
        },
        Err(_) => empty((test, no)),
    }
}

fn looped(alloc: Global, test: Expr, body: Stmt) -> Stmt {
    match Boxed::new(alloc, body) {
        Ok(body) => Stmt::While { at: 0, test, body },
        Err(_) => empty(test),
    }
}

fn counted(
    alloc: Global,
    init: ForInit,
    test: Option<Expr>,
    next: Option<Assign>,
    body: Stmt,
) -> Stmt {
    match Boxed::new(alloc, body) {
        Ok(body) => Stmt::For {
            at: 0,
            init,
            test,
            next,
            body,
        },
        Err(_) => empty((init, test, next)),
    }
}

fn result_type(value: Option<Expr>) -> Stmt {
    Stmt::Return { at: 0, value }
}

/// `aim<-m(args)`
fn send(alloc: Global, aim: Aim, args: List<Arg>, properties: List<Property>) -> Stage {
    let handler = id(alloc, "m");
    Stage::Message(Send {
        aim,
        handler,
        args,
        properties,
    })
}

fn chain(stages: List<Stage>, passed: Option<u32>) -> Stmt {
    let chain = Chain { stages };
    Stmt::Chain { chain, passed }
}

/// `aim<-m(value);`
fn sent(alloc: Global, aim: Expr, value: Expr) -> Stmt {
    let args = one(alloc, Arg::Expr(value));
    let stage = send(alloc, Aim::Actor(aim), args, List::new(alloc));
    chain(one(alloc, stage), None)
}

/// `{ B x; }`, `if` with and without `else`, and `while`
fn branches(alloc: Global) -> List<Stmt> {
    let actor = sort(BaseName::Actor(text(alloc, "B")), 0);
    let inner = one(alloc, Stmt::Declare(declare(alloc, actor, "x", None)));
    let list = one(alloc, Stmt::Block(0, inner));
    let test = level(alloc, name(alloc, "a"), Op::Same, string(alloc, "s"));
    let body = Stmt::Assign(set(alloc, "y", Expr::Null(0)));
    let no = Boxed::new(alloc, looped(alloc, Expr::Bool(false, 0), body)).ok();
    let list = and(list, when(alloc, test, result_type(None), no));
    let test = suffixed(alloc, name(alloc, "n"), number(1));
    and(list, when(alloc, test, Stmt::Empty(0), None))
}

/// `for` with all its parts, with an assignment, and with none
fn loops(alloc: Global, list: List<Stmt>) -> List<Stmt> {
    let first = declare(alloc, sort(BaseName::Int, 0), "i", Some(number(0)));
    let test = level(alloc, name(alloc, "i"), Op::Less, number(3));
    let sum = level(alloc, name(alloc, "i"), Op::Add, number(1));
    let next = Some(set(alloc, "i", sum));
    let full = counted(
        alloc,
        ForInit::Declare(first),
        Some(test),
        next,
        Stmt::Empty(0),
    );
    let first = ForInit::Assign(set(alloc, "i", number(0)));
    let assigned = counted(alloc, first, None, None, result_type(Some(Expr::Me(0))));
    let body = result_type(Some(Expr::Me(0)));
    let bare = counted(alloc, ForInit::Nothing, None, None, body);
    and(and(and(list, full), assigned), bare)
}

/// `token t = self<-m(token, 1):delay(5):waitfor(a, b);`
fn token(alloc: Global) -> Stmt {
    let args = and(one(alloc, Arg::Token(0)), Arg::Expr(number(1)));
    let names = and(one(alloc, id(alloc, "a")), id(alloc, "b"));
    let time = number(5);
    let delay = one(alloc, Property::Delay { at: 0, time });
    let properties = and(delay, Property::WaitFor { at: 0, names });
    let stages = one(
        alloc,
        send(alloc, Aim::Actor(Expr::Me(0)), args, properties),
    );
    let name = id(alloc, "t");
    let chain = Chain { stages };
    Stmt::Token { at: 0, name, chain }
}

/// `standardOutput<-m("x") @ join { m(); } @ currentContinuation;`
fn passing(alloc: Global) -> Stmt {
    let args = one(alloc, Arg::Expr(string(alloc, "x")));
    let print = send(alloc, Aim::Output(0), args, List::new(alloc));
    let own = send(alloc, Aim::Own, List::new(alloc), List::new(alloc));
    let body = one(alloc, chain(one(alloc, own), None));
    let stages = and(one(alloc, print), Stage::Join { at: 0, body });
    chain(stages, Some(0))
}

/// `m(1 || 2, 1 && 2, ..);`
fn operators(alloc: Global) -> Stmt {
    let mut args = List::new(alloc);
    for op in [
        Op::Or,
        Op::And,
        Op::Same,
        Op::Other,
        Op::Less,
        Op::LessEq,
        Op::Greater,
        Op::GreaterEq,
        Op::Add,
        Op::Sub,
        Op::Mul,
        Op::Div,
        Op::Rem,
    ] {
        args = and(args, Arg::Expr(level(alloc, number(1), op, number(2))));
    }
    let stage = send(alloc, Aim::Own, args, List::new(alloc));
    chain(one(alloc, stage), None)
}

/// New actors, new arrays and references by name
fn actors(alloc: Global, list: List<Stmt>) -> List<Stmt> {
    let args = and(one(alloc, number(1)), string(alloc, "u"));
    let placed = new_actor(alloc, args, Some(string(alloc, "l")));
    let named = new_actor(alloc, List::new(alloc), None);
    let items = and(one(alloc, Expr::Bool(false, 0)), Expr::Null(0));
    let sort = sort(BaseName::Boolean, 1);
    let values = Expr::ListOf { at: 0, sort, items };
    let cast = by_name(alloc, Some(id(alloc, "B")));
    let list = and(list, sent(alloc, placed, make(alloc)));
    let list = and(list, sent(alloc, named, values));
    and(list, sent(alloc, cast, by_name(alloc, None)))
}

fn handler(alloc: Global, answer: Option<TypeName>, text: &str, body: List<Stmt>) -> Member {
    let name = id(alloc, text);
    let params = List::new(alloc);
    Member::Handler {
        result: answer,
        name,
        params,
        body,
    }
}

fn param(alloc: Global, sort: TypeName, text: &str) -> Param {
    let name = id(alloc, text);
    Param { sort, name }
}

/// `B(int a, String[] b) { this.n[0] = -this.k; ; }`
fn constructor(alloc: Global) -> Member {
    let first = one(alloc, param(alloc, sort(BaseName::Int, 0), "a"));
    let params = and(first, param(alloc, sort(BaseName::Str, 1), "b"));
    let value = negative(alloc, Expr::Own(0, id(alloc, "k")));
    let stmt = assign(alloc, true, "n", one(alloc, number(0)), value);
    let body = and(one(alloc, Stmt::Assign(stmt)), Stmt::Empty(0));
    let name = id(alloc, "B");
    Member::Constructor { name, params, body }
}

/// A field, the constructor, and handlers `m` with a result, `p` and `q`
fn members(alloc: Global) -> List<Member> {
    let field = Member::Field {
        sort: sort(BaseName::Int, 2),
        name: id(alloc, "n"),
        init: Some(make(alloc)),
    };
    let value = Some(not(alloc, Expr::Bool(true, 0)));
    let answer = one(alloc, result_type(value));
    let truth = Some(sort(BaseName::Boolean, 0));
    let statements = loops(alloc, branches(alloc));
    let chains = and(one(alloc, token(alloc)), passing(alloc));
    let messages = actors(alloc, and(chains, operators(alloc)));
    let list = and(one(alloc, field), constructor(alloc));
    let list = and(list, handler(alloc, truth, "m", answer));
    let list = and(list, handler(alloc, None, "p", statements));
    and(list, handler(alloc, None, "q", messages))
}

fn behavior(alloc: Global, text: &str, members: List<Member>) -> Behavior {
    let name = id(alloc, text);
    Behavior { name, members }
}

fn program(alloc: Global) -> Program {
    let first = behavior(alloc, "B", members(alloc));
    let last = behavior(alloc, "C", List::new(alloc));
    let behaviors = and(one(alloc, first), last);
    Program { behaviors }
}

fn letter(kind: Kind) -> &'static str {
    match kind {
        Kind::Word => "w",
        Kind::Id => "i",
        Kind::Number => "n",
        Kind::Str => "t",
        Kind::Sign => ".",
    }
}

/// The texts with a blank after each, and a letter for each kind.
fn shown(alloc: Global, tokens: &[Lexeme]) -> Result<(Text, Text), NoMemory> {
    let mut texts = Text::new(alloc);
    let mut kinds = Text::new(alloc);
    for token in tokens {
        texts.push_str(token.text.as_str())?;
        texts.push_str(" ")?;
        kinds.push_str(letter(token.kind))?;
    }
    Ok((texts, kinds))
}

fn spelled(alloc: Global, program: &Program) -> Result<(Text, Text), NoMemory> {
    let tokens = program.spell(alloc)?;
    shown(alloc, tokens.as_slice())
}

fn wanted(alloc: Global) -> Result<(Text, Text), NoMemory> {
    let mut texts = Text::new(alloc);
    let mut kinds = Text::new(alloc);
    for (line, letters) in SPELLED.iter() {
        texts.push_str(line)?;
        texts.push_str(" ")?;
        kinds.push_str(letters)?;
    }
    Ok((texts, kinds))
}

#[test]
fn a_program_of_every_form_is_spelled(rt: HostRuntime) -> Result<(), Fail> {
    let program = program(rt.alloc());
    assert_eq!(rt; program.depth(), 2);
    let (texts, kinds) = spelled(rt.alloc(), &program)?;
    let (want, letters) = wanted(rt.alloc())?;
    assert_eq!(rt; texts.as_str(), want.as_str());
    assert_eq!(rt; kinds.as_str(), letters.as_str());
    Ok(())
}

/// A letter for each kind: word, identifier, number, text, and a dot for a sign.
const SPELLED: [(&str, &str); 25] = [
    ("behavior B {", "wi."),
    ("int [ ] [ ] n = new int [ 2 ] [ ] ;", "w....i.ww.n...."),
    ("B ( int a , String [ ] b ) {", "i.wi.w..i.."),
    ("this . n [ 0 ] = - this . k ; ; }", "w.i.n...w.i..."),
    ("boolean m ( ) { return ! ( true ) ; }", "wi...w..w..."),
    ("void p ( ) {", "wi..."),
    ("{ B x ; }", ".ii.."),
    (
        "if ( a == s ) return ; else while ( false ) y = null ;",
        "w.i.t.w.ww.w.i.w.",
    ),
    ("if ( n [ 1 ] . length ) ;", "w.i.n..i.."),
    (
        "for ( int i = 0 ; i < 3 ; i = i + 1 ) ;",
        "w.wi.n.i.n.i.i.n..",
    ),
    ("for ( i = 0 ; ; ) return self ;", "w.i.n...ww."),
    ("for ( ; ; ) return self ; }", "w....ww.."),
    ("void q ( ) {", "wi..."),
    ("token t = self <- m ( token , 1 )", "wi.w.i.w.n."),
    (": delay ( 5 ) : waitfor ( a , b ) ;", ".i.n..i.i.i.."),
    (
        "standardOutput <- m ( x ) @ join { m ( ) ; } @ currentContinuation ;",
        "w.i.t..w.i.....w.",
    ),
    (
        "m ( 1 || 2 , 1 && 2 , 1 == 2 , 1 != 2 , 1 < 2 , 1 <= 2 , 1 > 2 ,",
        "i.n.n.n.n.n.n.n.n.n.n.n.n.n.n.",
    ),
    (
        "1 >= 2 , 1 + 2 , 1 - 2 , 1 * 2 , 1 / 2 , 1 % 2 ) ;",
        "n.n.n.n.n.n.n.n.n.n.n.n..",
    ),
    (
        "new B ( 1 , u ) at ( u , l ) <- m ( new int [ 2 ] [ ] ) ;",
        "wi.n.t.i.t.t..i.ww.n.....",
    ),
    (
        "new B ( ) at ( u ) <- m ( new boolean [ ] { false , null } ) ;",
        "wi..i.t..i.ww...w.w...",
    ),
    (
        "( B ) B . getReferenceByName ( u ) <- m ( B . getReferenceByName ( u ) ) ; }",
        ".i.i.i.t..i.i.i.t....",
    ),
    ("}", "."),
    ("behavior C", "wi"),
    ("{", "."),
    ("}", "."),
];
