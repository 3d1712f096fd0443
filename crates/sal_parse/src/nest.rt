//! Statements of one depth. The parser of those one construct deeper is a parameter, so that each rule is proved by
//! itself.

ghost use Rattle.std.specs.Prelude.{◌≡◌, ◌+◌, length};
ghost use Rattle.sal_grammar.specs.Expressions as expressions;
ghost use Rattle.sal_grammar.specs.Statements as spec;
ghost use Rattle.sal_parse.specs.code.Nests.{Opens, inner};
ghost use Rattle.sal_parse.specs.code.Parts as parts;
ghost use Rattle.sal_reader.specs.Reads.{Reads};

use crate::for_parts::{for_init, for_next};
use crate::messages::{message, name_stage, output, send_to};
use crate::turn::Turn;
use crate::variables::{all_indexes, assigned, declare, one_less, until_semicolon};
use sal_ast::{Aim, Chain, Expr, Ident, Stage, Stmt, Suffix, TypeName};
use sal_expressions::{
    add, after_dot, closed_postfix, expr, name, other_postfix, pairs, suffixed, suffixes, type_of,
    unless_sees,
};
use sal_grammar::Reason;
use sal_reader::{Cursor, Set, Stop, Symbol};
use sal_value::{Boxed, List};
use std::alloc::Global;

#[derive(Clone, Copy)]
pub struct Nest<F> {
    pub alloc: Global,
    /// How many constructs may still be opened inside one another.
    pub depth: usize,
    pub stmt: F,
}

/// How many turns a loop can take that takes a token in each but the last.
fn turns(cursor: &Cursor<'_>) -> usize
    ensures { result ≡ length cursor.now + 1 }
{
    cursor.rest().len() + 1
}

fn is_own(at: Option<u32>) -> bool
    ensures { result ≡ spec.is_own at }
{
    at.is_some()
}

fn variable(at: Option<u32>, name: Ident) -> Expr
    ensures { result ≡ spec.variable at name }
{
    match at {
        None => Expr::Name(name),
        Some(at) => Expr::Own(at, name),
    }
}

impl<F: Fn(Global, &mut Cursor<'_>, usize) -> Result<Stmt, Stop>> Nest<F> {
    /// A statement one construct deeper.
    fn inner(&self, cursor: &mut Cursor<'_>) -> Result<Stmt, Stop>
        requires { Opens self.now.depth (F.pre self.now.stmt) (F.post self.now.stmt) }
        ensures { Reads (inner self.now.depth cursor.old) result cursor.new }
    {
        if self.depth == 0 {
            return Err(Stop::Refused(Reason::Depth));
        }
        (self.stmt)(self.alloc, cursor, one_less(self.depth))
    }

    #[tactic(auto, unfolding(crate::specs::code::Parts::inner_list))]
    fn inner_list(&self, cursor: &mut Cursor<'_>) -> Result<List<Stmt>, Stop>
        requires { Opens self.now.depth (F.pre self.now.stmt) (F.post self.now.stmt) }
        ensures { Reads (parts.inner_list self.now.depth cursor.old) result cursor.new }
    {
        let mut found = List::new(self.alloc);
        for _turn in 0..cursor.len() {
            if !cursor.sees(Set::FirstStmt) {
                return Ok(found);
            }
            let item = self.inner(cursor)?;
            add(self.alloc, &mut found, item)?;
        }
        Ok(found)
    }

    /// Statements up to the closing brace.
    #[tactic(auto, unfolding(sal_grammar::specs::Statements::body_of, crate::specs::code::Parts::inner_list))]
    fn body(&self, cursor: &mut Cursor<'_>) -> Result<List<Stmt>, Stop>
        requires { Opens self.now.depth (F.pre self.now.stmt) (F.post self.now.stmt) }
        ensures { Reads (spec.body_of (inner self.now.depth) cursor.old) result cursor.new }
    {
        let list = self.inner_list(cursor)?;
        cursor.take(Set::CloseBrace)?;
        Ok(list)
    }

    #[tactic(auto, unfolding(sal_grammar::specs::Statements::join))]
    fn join(&self, cursor: &mut Cursor<'_>) -> Result<Stage, Stop>
        requires { Opens self.now.depth (F.pre self.now.stmt) (F.post self.now.stmt) }
        ensures { Reads (spec.join (inner self.now.depth) cursor.old) result cursor.new }
    {
        let join = cursor.take(Set::Join)?;
        cursor.take(Set::OpenBrace)?;
        let body = self.body(cursor)?;
        unless_sees(
            cursor,
            Set::Colon,
            Stage::Join {
                at: join.at(),
                body,
            },
        )
    }

    /// A message or a join.
    #[tactic(auto, unfolding(sal_grammar::specs::Statements::stage_by))]
    fn stage(&self, cursor: &mut Cursor<'_>) -> Result<Stage, Stop>
        requires { Opens self.now.depth (F.pre self.now.stmt) (F.post self.now.stmt) }
        ensures { Reads (spec.stage_by self.now.depth (inner self.now.depth) cursor.old) result cursor.new }
    {
        if cursor.sees(Set::Join) {
            cursor.enter(self.depth)?;
            self.join(cursor)
        } else if cursor.sees(Set::Output) {
            output(self.alloc, cursor, self.depth)
        } else if cursor.sees(Set::Id) {
            let name = name(self.alloc, cursor)?;
            name_stage(self.alloc, cursor, self.depth, name)
        } else {
            let target = other_postfix(self.alloc, cursor, self.depth)?;
            send_to(self.alloc, cursor, self.depth, Aim::Actor(target))
        }
    }

    #[tactic(auto, unfolding(crate::specs::code::Parts::next_stage))]
    fn next_stage(&self, cursor: &mut Cursor<'_>) -> Result<Stage, Stop>
        requires { Opens self.now.depth (F.pre self.now.stmt) (F.post self.now.stmt) }
        ensures { Reads (parts.next_stage self.now.depth cursor.old) result cursor.new }
    {
        cursor.take(Set::ThenSign)?;
        self.stage(cursor)
    }

    #[tactic(auto, unfolding(crate::specs::code::Parts::next_stages))]
    fn next_stages(&self, cursor: &mut Cursor<'_>) -> Result<List<Stage>, Stop>
        requires { Opens self.now.depth (F.pre self.now.stmt) (F.post self.now.stmt) }
        ensures { Reads (parts.next_stages self.now.depth cursor.old) result cursor.new }
    {
        let mut found = List::new(self.alloc);
        for _turn in 0..cursor.len() {
            if !cursor.sees(Set::ThenSign) {
                return Ok(found);
            }
            let item = self.next_stage(cursor)?;
            add(self.alloc, &mut found, item)?;
        }
        Ok(found)
    }

    /// What stands behind a stage of a chain: the next one, or the end.
    #[tactic(auto, unfolding(crate::specs::code::Parts::tail_turn))]
    fn tail_turn(&self, cursor: &mut Cursor<'_>) -> Result<Turn, Stop>
        requires { Opens self.now.depth (F.pre self.now.stmt) (F.post self.now.stmt) }
        ensures { Reads (parts.tail_turn (spec.stage_by self.now.depth (inner self.now.depth)) cursor.old) result cursor.new }
    {
        if !cursor.sees(Set::ThenSign) {
            cursor.take(Set::Semicolon)?;
            return Ok(Turn::End(None));
        }
        cursor.take(Set::ThenSign)?;
        if !cursor.sees(Set::Current) {
            let stage = self.stage(cursor)?;
            return Ok(Turn::Next(stage));
        }
        let current = cursor.take(Set::Current)?;
        cursor.take(Set::Semicolon)?;
        Ok(Turn::End(Some(current.at())))
    }

    /// The rest of a chain, after its first stage.
    #[tactic(auto, unfolding(sal_grammar::specs::Statements::chain_stmt))]
    fn chain_stmt(&self, cursor: &mut Cursor<'_>, first: Stage) -> Result<Stmt, Stop>
        requires { Opens self.now.depth (F.pre self.now.stmt) (F.post self.now.stmt) }
        ensures { Reads (spec.chain_stmt self.now.depth (inner self.now.depth) first cursor.old) result cursor.new }
    {
        let mut stages = List::new(self.alloc);
        add(self.alloc, &mut stages, first)?;
        for _turn in 0..turns(cursor) {
            match self.tail_turn(cursor)? {
                Turn::Next(stage) => add(self.alloc, &mut stages, stage)?,
                Turn::End(passed) => {
                    let chain = Chain { stages };
                    return Ok(Stmt::Chain { chain, passed });
                }
            }
        }
        Err(Stop::Refused(Reason::Form))
    }

    #[tactic(auto, unfolding(sal_grammar::specs::Statements::token_stmt, crate::specs::code::Parts::next_stages, crate::specs::code::Parts::next_stage))]
    fn token_stmt(&self, cursor: &mut Cursor<'_>) -> Result<Stmt, Stop>
        requires { Opens self.now.depth (F.pre self.now.stmt) (F.post self.now.stmt) }
        ensures { Reads (spec.token_stmt self.now.depth (inner self.now.depth) cursor.old) result cursor.new }
    {
        let token = cursor.take(Set::Token)?;
        let name = name(self.alloc, cursor)?;
        cursor.take(Set::Assign)?;
        let mut stages = List::new(self.alloc);
        let item = self.stage(cursor)?;
        add(self.alloc, &mut stages, item)?;
        let others = self.next_stages(cursor)?;
        cursor.take(Set::Semicolon)?;
        stages.append(others)?;
        let chain = Chain { stages };
        Ok(Stmt::Token {
            at: token.at(),
            name,
            chain,
        })
    }

    /// A chain, after its first target.
    #[tactic(auto, unfolding(sal_grammar::specs::Statements::sent_stmt))]
    fn sent_stmt(&self, cursor: &mut Cursor<'_>, target: Expr) -> Result<Stmt, Stop>
        requires { Opens self.now.depth (F.pre self.now.stmt) (F.post self.now.stmt) }
        ensures { Reads (spec.sent_stmt self.now.depth (inner self.now.depth) target cursor.old) result cursor.new }
    {
        let first = send_to(self.alloc, cursor, self.depth, Aim::Actor(target))?;
        self.chain_stmt(cursor, first)
    }

    #[tactic(auto, unfolding(sal_grammar::specs::Statements::assigned_stmt))]
    fn assigned_stmt(
        &self,
        cursor: &mut Cursor<'_>,
        own: bool,
        name: Ident,
        found: List<Suffix>,
    ) -> Result<Stmt, Stop>
        requires { Opens self.now.depth (F.pre self.now.stmt) (F.post self.now.stmt) }
        ensures { Reads (spec.assigned_stmt self.now.depth own name found cursor.old) result cursor.new }
    {
        let assign = assigned(self.alloc, cursor, self.depth, own, name, found)?;
        cursor.take(Set::Semicolon)?;
        Ok(Stmt::Assign(assign))
    }

    fn sent_variable(
        &self,
        cursor: &mut Cursor<'_>,
        at: Option<u32>,
        name: Ident,
        found: List<Suffix>,
    ) -> Result<Stmt, Stop>
        requires { Opens self.now.depth (F.pre self.now.stmt) (F.post self.now.stmt) }
        ensures { Reads (spec.sent_stmt self.now.depth (inner self.now.depth) (expressions.suffixed (spec.variable at name) found) cursor.old) result cursor.new }
    {
        let target = suffixed(self.alloc, variable(at, name), found)?;
        self.sent_stmt(cursor, target)
    }

    /// An assignment where all suffixes are indexes, or else a chain.
    fn assign_or_send(
        &self,
        cursor: &mut Cursor<'_>,
        at: Option<u32>,
        name: Ident,
        found: List<Suffix>,
        indexed: bool,
    ) -> Result<Stmt, Stop>
        requires { Opens self.now.depth (F.pre self.now.stmt) (F.post self.now.stmt) }
        ensures { Reads (spec.assign_or_send self.now.depth (inner self.now.depth) at name found indexed cursor.old) result cursor.new }
    {
        if !indexed {
            return self.sent_variable(cursor, at, name, found);
        }
        if cursor.sees(Set::Assign) {
            self.assigned_stmt(cursor, is_own(at), name, found)
        } else {
            self.sent_variable(cursor, at, name, found)
        }
    }

    /// A statement, after a variable and these suffixes.
    #[tactic(auto, unfolding(sal_grammar::specs::Statements::after_variable))]
    fn after_variable(
        &self,
        cursor: &mut Cursor<'_>,
        at: Option<u32>,
        name: Ident,
        mut found: List<Suffix>,
    ) -> Result<Stmt, Stop>
        requires { Opens self.now.depth (F.pre self.now.stmt) (F.post self.now.stmt) }
        ensures { Reads (spec.after_variable self.now.depth (inner self.now.depth) at name found cursor.old) result cursor.new }
    {
        let more = suffixes(self.alloc, cursor, self.depth)?;
        found.append(more)?;
        let indexed = all_indexes(found.as_slice());
        self.assign_or_send(cursor, at, name, found, indexed)
    }

    #[tactic(auto, unfolding(sal_grammar::specs::Statements::this_stmt))]
    fn this_stmt(&self, cursor: &mut Cursor<'_>) -> Result<Stmt, Stop>
        requires { Opens self.now.depth (F.pre self.now.stmt) (F.post self.now.stmt) }
        ensures { Reads (spec.this_stmt self.now.depth (inner self.now.depth) cursor.old) result cursor.new }
    {
        let this = cursor.take(Set::This)?;
        cursor.take(Set::Dot)?;
        let name = name(self.alloc, cursor)?;
        self.after_variable(cursor, Some(this.at()), name, List::new(self.alloc))
    }

    #[tactic(auto, unfolding(sal_grammar::specs::Statements::indexed_stmt))]
    fn indexed_stmt(&self, cursor: &mut Cursor<'_>, name: Ident, at: u32) -> Result<Stmt, Stop>
        requires { Opens self.now.depth (F.pre self.now.stmt) (F.post self.now.stmt) }
        ensures { Reads (spec.indexed_stmt self.now.depth (inner self.now.depth) name at cursor.old) result cursor.new }
    {
        let index = expr(self.alloc, cursor, one_less(self.depth))?;
        cursor.take(Set::CloseBracket)?;
        let mut found = List::new(self.alloc);
        add(self.alloc, &mut found, Suffix::Index(at, index))?;
        self.after_variable(cursor, None, name, found)
    }

    #[tactic(auto, unfolding(sal_grammar::specs::Statements::typed_stmt))]
    fn typed_stmt(&self, cursor: &mut Cursor<'_>, sort: TypeName) -> Result<Stmt, Stop>
        requires { Opens self.now.depth (F.pre self.now.stmt) (F.post self.now.stmt) }
        ensures { Reads (spec.typed_stmt self.now.depth sort cursor.old) result cursor.new }
    {
        let declare = declare(self.alloc, cursor, self.depth, sort)?;
        Ok(Stmt::Declare(declare))
    }

    #[tactic(auto, unfolding(crate::specs::code::Parts::array_stmt))]
    fn array_stmt(&self, cursor: &mut Cursor<'_>, token: &Symbol<'_>) -> Result<Stmt, Stop>
        requires { Opens self.now.depth (F.pre self.now.stmt) (F.post self.now.stmt) }
        ensures { Reads (parts.array_stmt self.now.depth token.now cursor.old) result cursor.new }
    {
        cursor.take(Set::CloseBracket)?;
        let dims = pairs(cursor)?;
        let sort = type_of(self.alloc, token, dims + 1)?;
        self.typed_stmt(cursor, sort)
    }

    /// A type with brackets or an index, after a name and `[`.
    #[tactic(auto, unfolding(sal_grammar::specs::Statements::bracket_stmt, crate::specs::code::Parts::array_stmt))]
    fn bracket_stmt(
        &self,
        cursor: &mut Cursor<'_>,
        token: &Symbol<'_>,
        at: u32,
    ) -> Result<Stmt, Stop>
        requires { Opens self.now.depth (F.pre self.now.stmt) (F.post self.now.stmt) }
        ensures { Reads (spec.bracket_stmt self.now.depth (inner self.now.depth) token.now at cursor.old) result cursor.new }
    {
        if cursor.sees(Set::CloseBracket) {
            self.array_stmt(cursor, token)
        } else if cursor.sees(Set::FirstExpr) {
            cursor.enter(self.depth)?;
            let name = token.ident(self.alloc)?;
            self.indexed_stmt(cursor, name, at)
        } else {
            Err(Stop::Refused(Reason::Form))
        }
    }

    /// A target, after its first name, where no index follows.
    #[tactic(auto, unfolding(sal_grammar::specs::Statements::dotted_name))]
    fn dotted_name(&self, cursor: &mut Cursor<'_>, name: Ident) -> Result<Expr, Stop>
        requires { Opens self.now.depth (F.pre self.now.stmt) (F.post self.now.stmt) }
        ensures { Reads (spec.dotted_name self.now.depth name cursor.old) result cursor.new }
    {
        if cursor.sees(Set::Dot) {
            let dot = cursor.take(Set::Dot)?;
            after_dot(self.alloc, cursor, self.depth, name, dot.at())
        } else {
            unless_sees(cursor, Set::AfterUnary, Expr::Name(name))
        }
    }

    #[tactic(auto, unfolding(crate::specs::code::Parts::own_stmt))]
    fn own_stmt(&self, cursor: &mut Cursor<'_>, name: Ident) -> Result<Stmt, Stop>
        requires { Opens self.now.depth (F.pre self.now.stmt) (F.post self.now.stmt) }
        ensures { Reads (parts.own_stmt self.now.depth name cursor.old) result cursor.new }
    {
        let first = message(self.alloc, cursor, self.depth, Aim::Own, name)?;
        self.chain_stmt(cursor, first)
    }

    #[tactic(auto, unfolding(crate::specs::code::Parts::dotted_stmt))]
    fn dotted_stmt(&self, cursor: &mut Cursor<'_>, name: Ident) -> Result<Stmt, Stop>
        requires { Opens self.now.depth (F.pre self.now.stmt) (F.post self.now.stmt) }
        ensures { Reads (parts.dotted_stmt self.now.depth name cursor.old) result cursor.new }
    {
        let target = self.dotted_name(cursor, name)?;
        self.sent_stmt(cursor, target)
    }

    /// A statement, after its first token, which is an identifier.
    #[tactic(auto, unfolding(sal_grammar::specs::Statements::name_stmt, crate::specs::code::Parts::own_stmt, crate::specs::code::Parts::dotted_stmt))]
    fn name_stmt(&self, cursor: &mut Cursor<'_>, token: &Symbol<'_>) -> Result<Stmt, Stop>
        requires { Opens self.now.depth (F.pre self.now.stmt) (F.post self.now.stmt) }
        ensures { Reads (spec.name_stmt self.now.depth (inner self.now.depth) token.now cursor.old) result cursor.new }
    {
        if cursor.sees(Set::Id) {
            let sort = type_of(self.alloc, token, 0)?;
            self.typed_stmt(cursor, sort)
        } else if cursor.sees(Set::OpenBracket) {
            let open = cursor.take(Set::OpenBracket)?;
            self.bracket_stmt(cursor, token, open.at())
        } else if cursor.sees(Set::Assign) {
            let name = token.ident(self.alloc)?;
            self.assigned_stmt(cursor, false, name, List::new(self.alloc))
        } else if cursor.sees(Set::OpenParen) {
            let name = token.ident(self.alloc)?;
            self.own_stmt(cursor, name)
        } else {
            let name = token.ident(self.alloc)?;
            self.dotted_stmt(cursor, name)
        }
    }

    #[tactic(auto, unfolding(sal_grammar::specs::Statements::block))]
    fn block(&self, cursor: &mut Cursor<'_>) -> Result<Stmt, Stop>
        requires { Opens self.now.depth (F.pre self.now.stmt) (F.post self.now.stmt) }
        ensures { Reads (spec.block (inner self.now.depth) cursor.old) result cursor.new }
    {
        let open = cursor.take(Set::OpenBrace)?;
        let list = self.body(cursor)?;
        Ok(Stmt::Block(open.at(), list))
    }

    /// A test in parentheses, inside a construct that counts.
    fn test(&self, cursor: &mut Cursor<'_>) -> Result<Expr, Stop>
        requires { Opens self.now.depth (F.pre self.now.stmt) (F.post self.now.stmt) }
        ensures { Reads (spec.test (spec.one_less self.now.depth) cursor.old) result cursor.new }
    {
        cursor.take(Set::OpenParen)?;
        let test = expr(self.alloc, cursor, one_less(self.depth))?;
        cursor.take(Set::CloseParen)?;
        Ok(test)
    }

    #[tactic(auto, unfolding(sal_grammar::specs::Statements::or_else))]
    fn or_else(
        &self,
        cursor: &mut Cursor<'_>,
        at: u32,
        test: Expr,
        first: Stmt,
    ) -> Result<Stmt, Stop>
        requires { Opens self.now.depth (F.pre self.now.stmt) (F.post self.now.stmt) }
        ensures { Reads (spec.or_else (inner self.now.depth) at test first cursor.old) result cursor.new }
    {
        let yes = Boxed::new(self.alloc, first)?;
        if !cursor.sees(Set::ElseWord) {
            let no = None;
            return Ok(Stmt::If { at, test, yes, no });
        }
        cursor.take(Set::ElseWord)?;
        let other = self.inner(cursor)?;
        let no = Some(Boxed::new(self.alloc, other)?);
        Ok(Stmt::If { at, test, yes, no })
    }

    #[tactic(auto, unfolding(sal_grammar::specs::Statements::if_stmt))]
    fn if_stmt(&self, cursor: &mut Cursor<'_>) -> Result<Stmt, Stop>
        requires { Opens self.now.depth (F.pre self.now.stmt) (F.post self.now.stmt) }
        ensures { Reads (spec.if_stmt (spec.one_less self.now.depth) (inner self.now.depth) cursor.old) result cursor.new }
    {
        let word = cursor.take(Set::IfWord)?;
        let test = self.test(cursor)?;
        let first = self.inner(cursor)?;
        self.or_else(cursor, word.at(), test, first)
    }

    #[tactic(auto, unfolding(sal_grammar::specs::Statements::while_stmt))]
    fn while_stmt(&self, cursor: &mut Cursor<'_>) -> Result<Stmt, Stop>
        requires { Opens self.now.depth (F.pre self.now.stmt) (F.post self.now.stmt) }
        ensures { Reads (spec.while_stmt (spec.one_less self.now.depth) (inner self.now.depth) cursor.old) result cursor.new }
    {
        let word = cursor.take(Set::WhileWord)?;
        let test = self.test(cursor)?;
        let body = self.inner(cursor)?;
        let body = Boxed::new(self.alloc, body)?;
        Ok(Stmt::While {
            at: word.at(),
            test,
            body,
        })
    }

    #[tactic(auto, unfolding(sal_grammar::specs::Statements::for_stmt))]
    fn for_stmt(&self, cursor: &mut Cursor<'_>) -> Result<Stmt, Stop>
        requires { Opens self.now.depth (F.pre self.now.stmt) (F.post self.now.stmt) }
        ensures { Reads (spec.for_stmt (spec.one_less self.now.depth) (inner self.now.depth) cursor.old) result cursor.new }
    {
        let depth = one_less(self.depth);
        let word = cursor.take(Set::ForWord)?;
        cursor.take(Set::OpenParen)?;
        let init = for_init(self.alloc, cursor, depth)?;
        let test = until_semicolon(self.alloc, cursor, depth)?;
        let next = for_next(self.alloc, cursor, depth)?;
        let body = self.inner(cursor)?;
        let body = Boxed::new(self.alloc, body)?;
        Ok(Stmt::For {
            at: word.at(),
            init,
            test,
            next,
            body,
        })
    }

    /// A statement that counts.
    #[tactic(auto, unfolding(sal_grammar::specs::Statements::nested))]
    fn nested(&self, cursor: &mut Cursor<'_>) -> Result<Stmt, Stop>
        requires { Opens self.now.depth (F.pre self.now.stmt) (F.post self.now.stmt) }
        ensures { Reads (spec.nested (spec.one_less self.now.depth) (inner self.now.depth) cursor.old) result cursor.new }
    {
        if cursor.sees(Set::OpenBrace) {
            self.block(cursor)
        } else if cursor.sees(Set::IfWord) {
            self.if_stmt(cursor)
        } else if cursor.sees(Set::WhileWord) {
            self.while_stmt(cursor)
        } else {
            self.for_stmt(cursor)
        }
    }

    #[tactic(auto, unfolding(crate::specs::code::Parts::join_stmt))]
    fn join_stmt(&self, cursor: &mut Cursor<'_>) -> Result<Stmt, Stop>
        requires { Opens self.now.depth (F.pre self.now.stmt) (F.post self.now.stmt) }
        ensures { Reads (parts.join_stmt self.now.depth cursor.old) result cursor.new }
    {
        let first = self.join(cursor)?;
        self.chain_stmt(cursor, first)
    }

    #[tactic(auto, unfolding(crate::specs::code::Parts::output_stmt))]
    fn output_stmt(&self, cursor: &mut Cursor<'_>) -> Result<Stmt, Stop>
        requires { Opens self.now.depth (F.pre self.now.stmt) (F.post self.now.stmt) }
        ensures { Reads (parts.output_stmt self.now.depth cursor.old) result cursor.new }
    {
        let first = output(self.alloc, cursor, self.depth)?;
        self.chain_stmt(cursor, first)
    }

    #[tactic(auto, unfolding(sal_grammar::specs::Statements::other_chain, crate::specs::code::Parts::join_stmt, crate::specs::code::Parts::output_stmt))]
    fn other_chain(&self, cursor: &mut Cursor<'_>) -> Result<Stmt, Stop>
        requires { Opens self.now.depth (F.pre self.now.stmt) (F.post self.now.stmt) }
        ensures { Reads (spec.other_chain self.now.depth (inner self.now.depth) cursor.old) result cursor.new }
    {
        if cursor.sees(Set::Join) {
            cursor.enter(self.depth)?;
            self.join_stmt(cursor)
        } else if cursor.sees(Set::Output) {
            self.output_stmt(cursor)
        } else {
            let target = closed_postfix(self.alloc, cursor, self.depth)?;
            self.sent_stmt(cursor, target)
        }
    }

    fn return_stmt(&self, cursor: &mut Cursor<'_>) -> Result<Stmt, Stop>
        requires { Opens self.now.depth (F.pre self.now.stmt) (F.post self.now.stmt) }
        ensures { Reads (spec.return_stmt self.now.depth cursor.old) result cursor.new }
    {
        let word = cursor.take(Set::ReturnWord)?;
        let value = until_semicolon(self.alloc, cursor, self.depth)?;
        Ok(Stmt::Return {
            at: word.at(),
            value,
        })
    }

    #[tactic(auto, unfolding(crate::specs::code::Parts::sort_stmt))]
    fn sort_stmt(&self, cursor: &mut Cursor<'_>) -> Result<Stmt, Stop>
        requires { Opens self.now.depth (F.pre self.now.stmt) (F.post self.now.stmt) }
        ensures { Reads (parts.sort_stmt self.now.depth cursor.old) result cursor.new }
    {
        let token = cursor.take(Set::SortWord)?;
        let dims = pairs(cursor)?;
        let sort = type_of(self.alloc, token, dims)?;
        self.typed_stmt(cursor, sort)
    }

    #[tactic(auto, unfolding(crate::specs::code::Parts::word_stmt))]
    fn word_stmt(&self, cursor: &mut Cursor<'_>) -> Result<Stmt, Stop>
        requires { Opens self.now.depth (F.pre self.now.stmt) (F.post self.now.stmt) }
        ensures { Reads (parts.word_stmt self.now.depth cursor.old) result cursor.new }
    {
        if cursor.sees(Set::Semicolon) {
            let token = cursor.take(Set::Semicolon)?;
            Ok(Stmt::Empty(token.at()))
        } else if cursor.sees(Set::ReturnWord) {
            self.return_stmt(cursor)
        } else if cursor.sees(Set::Token) {
            self.token_stmt(cursor)
        } else if cursor.sees(Set::This) {
            self.this_stmt(cursor)
        } else {
            self.other_chain(cursor)
        }
    }

    /// A statement.
    #[tactic(auto, unfolding(sal_grammar::specs::Statements::stmt_by, crate::specs::code::Parts::sort_stmt, crate::specs::code::Parts::word_stmt))]
    pub fn whole(&self, cursor: &mut Cursor<'_>) -> Result<Stmt, Stop>
        requires { Opens self.now.depth (F.pre self.now.stmt) (F.post self.now.stmt) }
        ensures { Reads (spec.stmt_by self.now.depth (inner self.now.depth) cursor.old) result cursor.new }
    {
        if cursor.sees(Set::Id) {
            let token = cursor.take(Set::Id)?;
            self.name_stmt(cursor, token)
        } else if cursor.sees(Set::Nest) {
            cursor.enter(self.depth)?;
            self.nested(cursor)
        } else if cursor.sees(Set::SortWord) {
            self.sort_stmt(cursor)
        } else {
            self.word_stmt(cursor)
        }
    }
}
