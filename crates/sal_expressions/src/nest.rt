//! What is made of unary expressions of one depth. Their parser is a parameter, so that each rule
//! is proved by itself.

ghost use Rattle.sal_expressions.specs.code.Items.{next_expr, next_exprs, exprs_until, expr_list};
ghost use Rattle.sal_expressions.specs.code.Nests.{Nests};
ghost use Rattle.sal_expressions.specs.code.Ranks.{after_at, after_tighter_at, level_at, operand_at, operands_at, tighter_at};
ghost use Rattle.sal_grammar.specs.Expressions as spec;
ghost use Rattle.sal_reader.specs.Reads.{Reads, set_of};

use crate::parts::{add, level, unless_sees, with_sign};
use crate::rank::{Rank, binds, op_of, operators, tighter_rank};
use crate::sorts::{pairs, type_of};
use sal_ast::{At, Expr, Ident, Operand, Suffix};
use sal_reader::{Cursor, Set, Stop, Symbol};
use sal_value::{Boxed, List};
use std::alloc::Global;

/// The rules over the unary expressions of one depth.
#[derive(Clone, Copy)]
pub struct Nest<F> {
    pub alloc: Global,
    /// How many constructs may still be opened inside one another.
    pub depth: usize,
    pub unary: F,
}

impl<F: Fn(Global, &mut Cursor<'_>, usize) -> Result<Expr, Stop>> Nest<F> {
    fn unary(&self, cursor: &mut Cursor<'_>) -> Result<Expr, Stop>
        requires { Nests self.now.depth (F.pre self.now.unary) (F.post self.now.unary) }
        ensures { Reads (spec.unary self.now.depth cursor.old) result cursor.new }
    {
        (self.unary)(self.alloc, cursor, self.depth)
    }

    /// What stands between the operators of a rank.
    #[cycle(level)]
    #[tactic(auto, using(crate::proofs::Ranks::tighter_some, crate::proofs::Ranks::tighter_none))]
    fn tighter(&self, cursor: &mut Cursor<'_>, rank: Rank) -> Result<Expr, Stop>
        requires { Nests self.now.depth (F.pre self.now.unary) (F.post self.now.unary) }
        ensures { Reads (tighter_at rank (spec.unary self.now.depth) cursor.old) result cursor.new }
    {
        match tighter_rank(rank) {
            Some(tighter) => self.level(cursor, tighter),
            None => self.unary(cursor),
        }
    }

    #[cycle(level)]
    #[tactic(auto, unfolding(crate::specs::code::Ranks::operand_at))]
    fn operand(&self, cursor: &mut Cursor<'_>, rank: Rank) -> Result<Operand, Stop>
        requires { Nests self.now.depth (F.pre self.now.unary) (F.post self.now.unary) }
        ensures { Reads (operand_at rank (spec.unary self.now.depth) cursor.old) result cursor.new }
    {
        let sign = cursor.take(operators(rank))?;
        let value = self.tighter(cursor, rank)?;
        Ok(Operand {
            op: op_of(sign.class()),
            at: sign.at(),
            value,
        })
    }

    #[cycle(level)]
    #[tactic(auto, unfolding(crate::specs::code::Ranks::operands_at))]
    fn operands(&self, cursor: &mut Cursor<'_>, rank: Rank) -> Result<List<Operand>, Stop>
        requires { Nests self.now.depth (F.pre self.now.unary) (F.post self.now.unary) }
        ensures { Reads (operands_at rank (spec.unary self.now.depth) cursor.old)
            result cursor.new }
    {
        let mut found = List::new(self.alloc);
        for _turn in 0..cursor.len() {
            if !cursor.sees(operators(rank)) {
                return Ok(found);
            }
            let item = self.operand(cursor, rank)?;
            add(self.alloc, &mut found, item)?;
        }
        Ok(found)
    }

    /// What comes after an operand, up to the operators that bind tighter than this rank's.
    #[cycle(level)]
    #[tactic(auto, using(crate::proofs::Ranks::after_tighter_some, crate::proofs::Ranks::after_tighter_none))]
    fn after_tighter(&self, cursor: &mut Cursor<'_>, rank: Rank, first: Expr) -> Result<Expr, Stop>
        requires { Nests self.now.depth (F.pre self.now.unary) (F.post self.now.unary) }
        ensures { Reads (after_tighter_at rank (spec.unary self.now.depth) first cursor.old)
            result cursor.new }
    {
        match tighter_rank(rank) {
            Some(tighter) => self.after(cursor, tighter, first),
            None => Ok(first),
        }
    }

    /// What comes after an operand, up to the operators of this rank. Where no such operator comes,
    /// all these ranks end at once.
    #[cycle(level)]
    #[tactic(auto, using(crate::proofs::Ranks::after_none), unfolding(crate::specs::code::Ranks::after_at, crate::specs::code::Ranks::operands_at))]
    fn after(&self, cursor: &mut Cursor<'_>, rank: Rank, first: Expr) -> Result<Expr, Stop>
        requires { Nests self.now.depth (F.pre self.now.unary) (F.post self.now.unary) }
        ensures { Reads (after_at rank (spec.unary self.now.depth) first cursor.old)
            result cursor.new }
    {
        if !binds(rank, cursor.next()) {
            return Ok(first);
        }
        let first = self.after_tighter(cursor, rank, first)?;
        let rest = self.operands(cursor, rank)?;
        Ok(level(self.alloc, first, rest)?)
    }

    /// Operands of one rank, joined by operators.
    #[cycle(level)]
    #[tactic(auto, using(crate::proofs::Ranks::level_is))]
    fn level(&self, cursor: &mut Cursor<'_>, rank: Rank) -> Result<Expr, Stop>
        requires { Nests self.now.depth (F.pre self.now.unary) (F.post self.now.unary) }
        ensures { Reads (level_at rank (spec.unary self.now.depth) cursor.old) result cursor.new }
    {
        let first = self.unary(cursor)?;
        self.after(cursor, rank, first)
    }

    /// An expression, inside which all stands at this depth.
    #[tactic(auto, using(crate::proofs::Ranks::expr_is))]
    pub fn expr(&self, cursor: &mut Cursor<'_>) -> Result<Expr, Stop>
        requires { Nests self.now.depth (F.pre self.now.unary) (F.post self.now.unary) }
        ensures { Reads (spec.expr_of (spec.unary self.now.depth) cursor.old) result cursor.new }
    {
        self.level(cursor, Rank::Or)
    }

    /// A prefix operator with its operand.
    #[tactic(auto, unfolding(sal_grammar::specs::Expressions::prefix))]
    pub fn prefix(&self, cursor: &mut Cursor<'_>) -> Result<Expr, Stop>
        requires { Nests self.now.depth (F.pre self.now.unary) (F.post self.now.unary) }
        ensures { Reads (spec.prefix (spec.unary self.now.depth) cursor.old) result cursor.new }
    {
        let sign = cursor.take(Set::Prefix)?;
        let value = self.unary(cursor)?;
        Ok(with_sign(self.alloc, sign.class(), sign.at(), value)?)
    }

    /// `getReferenceByName` with its argument, after a name.
    #[tactic(auto, unfolding(sal_grammar::specs::Expressions::getter))]
    pub fn getter(
        &self,
        cursor: &mut Cursor<'_>,
        at: u32,
        cast: Option<Ident>,
        behavior: Ident,
    ) -> Result<Expr, Stop>
        requires { Nests self.now.depth (F.pre self.now.unary) (F.post self.now.unary) }
        ensures { Reads (spec.getter (spec.unary self.now.depth) at cast behavior cursor.old)
            result cursor.new }
    {
        cursor.take(Set::Getter)?;
        cursor.take(Set::OpenParen)?;
        let name = self.expr(cursor)?;
        cursor.take(Set::CloseParen)?;
        let name = Boxed::new(self.alloc, name)?;
        Ok(Expr::ByName {
            at,
            cast,
            behavior,
            name,
        })
    }

    /// `getReferenceByName` after a cast.
    #[tactic(auto, unfolding(sal_grammar::specs::Expressions::getter_cast))]
    pub fn getter_cast(&self, cursor: &mut Cursor<'_>, at: u32, cast: Ident) -> Result<Expr, Stop>
        requires { Nests self.now.depth (F.pre self.now.unary) (F.post self.now.unary) }
        ensures { Reads (spec.getter_cast (spec.unary self.now.depth) at cast cursor.old)
            result cursor.new }
    {
        let token = cursor.take(Set::Id)?;
        cursor.take(Set::Dot)?;
        let behavior = token.ident(self.alloc)?;
        self.getter(cursor, at, Some(cast), behavior)
    }

    /// An index with its brackets.
    #[tactic(auto, unfolding(sal_grammar::specs::Expressions::index))]
    pub fn index(&self, cursor: &mut Cursor<'_>) -> Result<Suffix, Stop>
        requires { Nests self.now.depth (F.pre self.now.unary) (F.post self.now.unary) }
        ensures { Reads (spec.index (spec.unary self.now.depth) cursor.old) result cursor.new }
    {
        let open = cursor.take(Set::OpenBracket)?;
        let inner = self.expr(cursor)?;
        cursor.take(Set::CloseBracket)?;
        Ok(Suffix::Index(open.at(), inner))
    }

    /// A comma and an expression.
    #[tactic(auto, unfolding(crate::specs::code::Items::next_expr))]
    fn next_expr(&self, cursor: &mut Cursor<'_>) -> Result<Expr, Stop>
        requires { Nests self.now.depth (F.pre self.now.unary) (F.post self.now.unary) }
        ensures { Reads (next_expr (spec.unary self.now.depth) cursor.old) result cursor.new }
    {
        cursor.take(Set::Comma)?;
        self.expr(cursor)
    }

    #[tactic(auto, unfolding(crate::specs::code::Items::next_exprs))]
    fn next_exprs(&self, cursor: &mut Cursor<'_>) -> Result<List<Expr>, Stop>
        requires { Nests self.now.depth (F.pre self.now.unary) (F.post self.now.unary) }
        ensures { Reads (next_exprs (spec.unary self.now.depth) cursor.old) result cursor.new }
    {
        let mut found = List::new(self.alloc);
        for _turn in 0..cursor.len() {
            if !cursor.sees(Set::Comma) {
                return Ok(found);
            }
            let item = self.next_expr(cursor)?;
            add(self.alloc, &mut found, item)?;
        }
        Ok(found)
    }

    /// Expressions with commas between them, and the token that closes them.
    #[tactic(auto, unfolding(crate::specs::code::Items::exprs_until, crate::specs::code::Items::next_exprs, crate::specs::code::Items::next_expr))]
    fn exprs_until(&self, cursor: &mut Cursor<'_>, close: Set) -> Result<List<Expr>, Stop>
        requires { Nests self.now.depth (F.pre self.now.unary) (F.post self.now.unary) }
        ensures { Reads (exprs_until (set_of close) (spec.unary self.now.depth) cursor.old)
            result cursor.new }
    {
        let mut found = List::new(self.alloc);
        let item = self.expr(cursor)?;
        add(self.alloc, &mut found, item)?;
        found.append(self.next_exprs(cursor)?)?;
        cursor.take(close)?;
        Ok(found)
    }

    /// The same, where no expression need stand.
    #[tactic(auto, unfolding(crate::specs::code::Items::expr_list, crate::specs::code::Items::exprs_until))]
    pub fn expr_list(&self, cursor: &mut Cursor<'_>, close: Set) -> Result<List<Expr>, Stop>
        requires { Nests self.now.depth (F.pre self.now.unary) (F.post self.now.unary) }
        ensures { Reads (expr_list (set_of close) (spec.unary self.now.depth) cursor.old)
            result cursor.new }
    {
        if cursor.sees(close) {
            cursor.take(close)?;
            return Ok(List::new(self.alloc));
        }
        self.exprs_until(cursor, close)
    }

    /// The locator of a new actor, where there is one, and what closes its place.
    #[tactic(auto, unfolding(sal_grammar::specs::Expressions::second))]
    fn second(&self, cursor: &mut Cursor<'_>) -> Result<Option<Expr>, Stop>
        requires { Nests self.now.depth (F.pre self.now.unary) (F.post self.now.unary) }
        ensures { Reads (spec.second (spec.unary self.now.depth) cursor.old) result cursor.new }
    {
        if cursor.sees(Set::Comma) {
            cursor.take(Set::Comma)?;
            let locator = self.expr(cursor)?;
            cursor.take(Set::CloseParen)?;
            Ok(Some(locator))
        } else {
            cursor.take(Set::CloseParen)?;
            Ok(None)
        }
    }

    /// Where a new actor is made.
    #[tactic(auto, unfolding(sal_grammar::specs::Expressions::place))]
    pub fn place(&self, cursor: &mut Cursor<'_>) -> Result<At, Stop>
        requires { Nests self.now.depth (F.pre self.now.unary) (F.post self.now.unary) }
        ensures { Reads (spec.place (spec.unary self.now.depth) cursor.old) result cursor.new }
    {
        let word = cursor.take(Set::At)?;
        cursor.take(Set::OpenParen)?;
        let uan = self.expr(cursor)?;
        let ual = self.second(cursor)?;
        Ok(At {
            at: word.at(),
            uan,
            ual,
        })
    }

    /// A new array of a size.
    #[tactic(auto, unfolding(sal_grammar::specs::Expressions::new_sized))]
    fn new_sized(&self, cursor: &mut Cursor<'_>, at: u32, sort: &Symbol<'_>) -> Result<Expr, Stop>
        requires { Nests self.now.depth (F.pre self.now.unary) (F.post self.now.unary) }
        ensures { Reads (spec.new_sized (spec.unary self.now.depth) at sort.now cursor.old)
            result cursor.new }
    {
        let size = self.expr(cursor)?;
        cursor.take(Set::CloseBracket)?;
        let dims = pairs(cursor)? + 1;
        let made = Expr::Make {
            at,
            sort: type_of(self.alloc, sort, dims)?,
            size: Boxed::new(self.alloc, size)?,
        };
        unless_sees(cursor, Set::AfterUnary, made)
    }

    /// A new array of items.
    #[tactic(auto, unfolding(sal_grammar::specs::Expressions::new_list, crate::specs::code::Items::expr_list))]
    fn new_list(&self, cursor: &mut Cursor<'_>, at: u32, sort: &Symbol<'_>) -> Result<Expr, Stop>
        requires { Nests self.now.depth (F.pre self.now.unary) (F.post self.now.unary) }
        ensures { Reads (spec.new_list (spec.unary self.now.depth) at sort.now cursor.old)
            result cursor.new }
    {
        cursor.take(Set::CloseBracket)?;
        let dims = pairs(cursor)? + 1;
        cursor.take(Set::OpenBrace)?;
        let items = self.expr_list(cursor, Set::CloseBrace)?;
        let sort = type_of(self.alloc, sort, dims)?;
        unless_sees(cursor, Set::AfterUnary, Expr::ListOf { at, sort, items })
    }

    /// A new array, after its base.
    #[tactic(auto, unfolding(sal_grammar::specs::Expressions::new_array))]
    pub fn new_array(
        &self,
        cursor: &mut Cursor<'_>,
        at: u32,
        sort: &Symbol<'_>,
    ) -> Result<Expr, Stop>
        requires { Nests self.now.depth (F.pre self.now.unary) (F.post self.now.unary) }
        ensures { Reads (spec.new_array (spec.unary self.now.depth) at sort.now cursor.old)
            result cursor.new }
    {
        cursor.take(Set::OpenBracket)?;
        if cursor.sees(Set::CloseBracket) {
            self.new_list(cursor, at, sort)
        } else {
            self.new_sized(cursor, at, sort)
        }
    }
}
