//! What stands at a depth: a construct that counts is opened only where the depth allows one more.

ghost use Rattle.std.specs.Prelude.{◌≡◌, ◌<◌, [], OnOk};
ghost use Rattle.sal_ast.specs.declared.expression.Expr.TheVariants as e;
ghost use Rattle.sal_expressions.specs.code.Nests.{Nests, Opens};
ghost use Rattle.sal_grammar.specs.Expressions as spec;
ghost use Rattle.sal_grammar.specs.Parsers.{allowed, opened};
ghost use Rattle.sal_grammar.specs.Statements.{below, one_less};
ghost use Rattle.sal_reader.specs.Reads.{Reads};

use crate::nest::Nest;
use crate::parts::{add, into_name, new_of, own, plain, size, suffixed, unless_sees};
use sal_ast::{Expr, Ident, Suffix};
use sal_grammar::Reason;
use sal_reader::{Cursor, Set, Stop};
use sal_value::{Boxed, List};
use std::alloc::Global;

/// The rules at a depth, over the parser of unary expressions.
#[derive(Clone, Copy)]
pub struct Grammar<F> {
    pub alloc: Global,
    /// How many constructs may still be opened inside one another.
    pub depth: usize,
    pub unary: F,
}

impl<F: Copy + Fn(Global, &mut Cursor<'_>, usize) -> Result<Expr, Stop>> Grammar<F> {
    /// Whether one more construct that counts may be opened.
    fn enter(&self, cursor: &Cursor<'_>) -> Result<(), Stop>
        ensures reads { Reads (allowed self.now.depth cursor.now) result cursor.now }
        ensures open { OnOk result (0 < self.now.depth) }
    {
        if self.depth == 0 {
            return Err(Stop::Refused(Reason::Depth));
        }
        Ok(())
    }

    /// The rules one construct deeper.
    fn inside(&self) -> Nest<F>
        ensures depth { result.depth ≡ one_less self.now.depth }
        ensures unary { result.unary ≡ self.now.unary }
    {
        Nest {
            alloc: self.alloc,
            depth: self.depth.saturating_sub(1),
            unary: self.unary,
        }
    }

    /// An index with its brackets, which counts.
    pub fn index(&self, cursor: &mut Cursor<'_>) -> Result<Suffix, Stop>
        requires { Opens self.now.depth (F.pre self.now.unary) (F.post self.now.unary) }
        ensures { Reads (opened self.now.depth (spec.index (below self.now.depth)) cursor.old)
            result cursor.new }
    {
        self.enter(cursor)?;
        self.inside().index(cursor)
    }

    /// An index or `.length`.
    #[tactic(auto, unfolding(sal_grammar::specs::Expressions::suffix))]
    fn suffix(&self, cursor: &mut Cursor<'_>) -> Result<Suffix, Stop>
        requires { Opens self.now.depth (F.pre self.now.unary) (F.post self.now.unary) }
        ensures { Reads (spec.suffix self.now.depth (below self.now.depth) cursor.old)
            result cursor.new }
    {
        if cursor.sees(Set::OpenBracket) {
            self.index(cursor)
        } else {
            size(cursor)
        }
    }

    #[tactic(auto, unfolding(sal_grammar::specs::Expressions::suffixes))]
    pub fn suffixes(&self, cursor: &mut Cursor<'_>) -> Result<List<Suffix>, Stop>
        requires { Opens self.now.depth (F.pre self.now.unary) (F.post self.now.unary) }
        ensures { Reads (spec.suffixes self.now.depth (below self.now.depth) cursor.old)
            result cursor.new }
    {
        let mut found = List::new(self.alloc);
        for _turn in 0..cursor.len() {
            if !cursor.sees(Set::Suffix) {
                return Ok(found);
            }
            let item = self.suffix(cursor)?;
            add(self.alloc, &mut found, item)?;
        }
        Ok(found)
    }

    /// What comes after a primary and the suffixes that were found.
    #[tactic(auto, unfolding(sal_grammar::specs::Expressions::with_suffixes))]
    fn with_suffixes(
        &self,
        cursor: &mut Cursor<'_>,
        first: Expr,
        mut found: List<Suffix>,
    ) -> Result<Expr, Stop>
        requires { Opens self.now.depth (F.pre self.now.unary) (F.post self.now.unary) }
        ensures { Reads (spec.with_suffixes self.now.depth (below self.now.depth) first found cursor.old)
            result cursor.new }
    {
        let more = self.suffixes(cursor)?;
        found.append(more)?;
        let whole = suffixed(self.alloc, first, found)?;
        unless_sees(cursor, Set::AfterUnary, whole)
    }

    /// What comes after a primary.
    fn after_primary(&self, cursor: &mut Cursor<'_>, first: Expr) -> Result<Expr, Stop>
        requires { Opens self.now.depth (F.pre self.now.unary) (F.post self.now.unary) }
        ensures { Reads (spec.with_suffixes self.now.depth (below self.now.depth) first [] cursor.old)
            result cursor.new }
    {
        self.with_suffixes(cursor, first, List::new(self.alloc))
    }

    /// What comes after an expression in parentheses.
    fn after_value_in_parens(
        &self,
        cursor: &mut Cursor<'_>,
        at: u32,
        inner: Expr,
    ) -> Result<Expr, Stop>
        requires { Opens self.now.depth (F.pre self.now.unary) (F.post self.now.unary) }
        ensures { Reads (spec.with_suffixes self.now.depth (below self.now.depth)
            (e.Paren at inner) [] cursor.old) result cursor.new }
    {
        let inner = Boxed::new(self.alloc, inner)?;
        self.after_primary(cursor, Expr::Paren(at, inner))
    }

    /// What comes after a name in parentheses: where it is an identifier, they are a cast.
    fn after_name_in_parens(
        &self,
        cursor: &mut Cursor<'_>,
        at: u32,
        name: Ident,
    ) -> Result<Expr, Stop>
        requires opens { Opens self.now.depth (F.pre self.now.unary) (F.post self.now.unary) }
        requires open { 0 < self.now.depth }
        ensures { Reads (spec.after_paren self.now.depth (below self.now.depth)
            at (e.Name name) (Some name) cursor.old) result cursor.new }
    {
        if cursor.sees(Set::Id) {
            let found = self.inside().getter_cast(cursor, at, name)?;
            self.after_primary(cursor, found)
        } else {
            self.after_value_in_parens(cursor, at, Expr::Name(name))
        }
    }

    fn after_paren(&self, cursor: &mut Cursor<'_>, at: u32, inner: Expr) -> Result<Expr, Stop>
        requires opens { Opens self.now.depth (F.pre self.now.unary) (F.post self.now.unary) }
        requires open { 0 < self.now.depth }
        ensures { Reads (spec.after_paren self.now.depth (below self.now.depth)
            at inner (spec.name_of inner) cursor.old) result cursor.new }
    {
        match into_name(inner) {
            Ok(name) => self.after_name_in_parens(cursor, at, name),
            Err(inner) => self.after_value_in_parens(cursor, at, inner),
        }
    }

    /// An expression in parentheses, or a cast with what it is of, and suffixes.
    #[tactic(auto, unfolding(sal_grammar::specs::Expressions::paren))]
    fn paren(&self, cursor: &mut Cursor<'_>) -> Result<Expr, Stop>
        requires opens { Opens self.now.depth (F.pre self.now.unary) (F.post self.now.unary) }
        requires open { 0 < self.now.depth }
        ensures { Reads (spec.paren self.now.depth (below self.now.depth) cursor.old)
            result cursor.new }
    {
        let open = cursor.take(Set::OpenParen)?;
        let inner = self.inside().expr(cursor)?;
        cursor.take(Set::CloseParen)?;
        self.after_paren(cursor, open.at(), inner)
    }

    /// A new actor, after its name, and suffixes.
    #[tactic(auto, unfolding(sal_grammar::specs::Expressions::new_actor, crate::specs::code::Items::expr_list))]
    fn new_actor(&self, cursor: &mut Cursor<'_>, at: u32, behavior: Ident) -> Result<Expr, Stop>
        requires opens { Opens self.now.depth (F.pre self.now.unary) (F.post self.now.unary) }
        requires open { 0 < self.now.depth }
        ensures { Reads (spec.new_actor self.now.depth (below self.now.depth) at behavior cursor.old)
            result cursor.new }
    {
        cursor.take(Set::OpenParen)?;
        let args = self.inside().expr_list(cursor, Set::CloseParen)?;
        if cursor.sees(Set::At) {
            let place = self.inside().place(cursor)?;
            let place = Some(Boxed::new(self.alloc, place)?);
            self.after_primary(cursor, new_of(at, behavior, args, place))
        } else {
            self.after_primary(cursor, new_of(at, behavior, args, None))
        }
    }

    /// What comes after `new`.
    #[tactic(auto, unfolding(sal_grammar::specs::Expressions::after_new))]
    fn after_new(&self, cursor: &mut Cursor<'_>, at: u32) -> Result<Expr, Stop>
        requires opens { Opens self.now.depth (F.pre self.now.unary) (F.post self.now.unary) }
        requires open { 0 < self.now.depth }
        ensures { Reads (spec.after_new self.now.depth (below self.now.depth) at cursor.old)
            result cursor.new }
    {
        if cursor.sees(Set::Id) {
            let token = cursor.take(Set::Id)?;
            if cursor.sees(Set::OpenParen) {
                let behavior = token.ident(self.alloc)?;
                self.new_actor(cursor, at, behavior)
            } else {
                self.inside().new_array(cursor, at, token)
            }
        } else {
            let token = cursor.take(Set::SortWord)?;
            self.inside().new_array(cursor, at, token)
        }
    }

    /// What comes after a name and a dot.
    #[tactic(auto, unfolding(sal_grammar::specs::Expressions::after_dot))]
    pub fn after_dot(&self, cursor: &mut Cursor<'_>, name: Ident, at: u32) -> Result<Expr, Stop>
        requires { Opens self.now.depth (F.pre self.now.unary) (F.post self.now.unary) }
        ensures { Reads (spec.after_dot self.now.depth (below self.now.depth) name at cursor.old)
            result cursor.new }
    {
        if cursor.sees(Set::Getter) {
            self.enter(cursor)?;
            let at_name = name.at;
            let found = self.inside().getter(cursor, at_name, None, name)?;
            self.after_primary(cursor, found)
        } else {
            cursor.take(Set::Length)?;
            let mut found = List::new(self.alloc);
            add(self.alloc, &mut found, Suffix::Length(at))?;
            self.with_suffixes(cursor, Expr::Name(name), found)
        }
    }

    /// What comes after a name.
    #[tactic(auto, unfolding(sal_grammar::specs::Expressions::after_name))]
    pub fn after_name(&self, cursor: &mut Cursor<'_>, name: Ident) -> Result<Expr, Stop>
        requires { Opens self.now.depth (F.pre self.now.unary) (F.post self.now.unary) }
        ensures { Reads (spec.after_name self.now.depth (below self.now.depth) name cursor.old)
            result cursor.new }
    {
        if cursor.sees(Set::Dot) {
            let dot = cursor.take(Set::Dot)?;
            self.after_dot(cursor, name, dot.at())
        } else {
            self.after_primary(cursor, Expr::Name(name))
        }
    }

    /// A postfix that begins neither with an identifier nor with `this`.
    #[tactic(auto, unfolding(sal_grammar::specs::Expressions::closed_postfix))]
    pub fn closed_postfix(&self, cursor: &mut Cursor<'_>) -> Result<Expr, Stop>
        requires { Opens self.now.depth (F.pre self.now.unary) (F.post self.now.unary) }
        ensures { Reads (spec.closed_postfix self.now.depth (below self.now.depth) cursor.old)
            result cursor.new }
    {
        if cursor.sees(Set::OpenParen) {
            self.enter(cursor)?;
            self.paren(cursor)
        } else if cursor.sees(Set::New) {
            self.enter(cursor)?;
            let word = cursor.take(Set::New)?;
            self.after_new(cursor, word.at())
        } else {
            let found = plain(self.alloc, cursor)?;
            self.after_primary(cursor, found)
        }
    }

    /// A postfix that begins with no identifier.
    #[tactic(auto, unfolding(sal_grammar::specs::Expressions::other_postfix))]
    pub fn other_postfix(&self, cursor: &mut Cursor<'_>) -> Result<Expr, Stop>
        requires { Opens self.now.depth (F.pre self.now.unary) (F.post self.now.unary) }
        ensures { Reads (spec.other_postfix self.now.depth (below self.now.depth) cursor.old)
            result cursor.new }
    {
        if cursor.sees(Set::This) {
            let found = own(self.alloc, cursor)?;
            self.after_primary(cursor, found)
        } else {
            self.closed_postfix(cursor)
        }
    }

    /// A primary with its suffixes, or a new array.
    #[tactic(auto, unfolding(sal_grammar::specs::Expressions::postfix))]
    fn postfix(&self, cursor: &mut Cursor<'_>) -> Result<Expr, Stop>
        requires { Opens self.now.depth (F.pre self.now.unary) (F.post self.now.unary) }
        ensures { Reads (spec.postfix self.now.depth (below self.now.depth) cursor.old)
            result cursor.new }
    {
        if cursor.sees(Set::Id) {
            let token = cursor.take(Set::Id)?;
            let name = token.ident(self.alloc)?;
            self.after_name(cursor, name)
        } else {
            self.other_postfix(cursor)
        }
    }

    /// An operand: a postfix, or a prefix operator with its operand.
    #[tactic(auto, unfolding(sal_grammar::specs::Expressions::unary_by))]
    pub fn unary(&self, cursor: &mut Cursor<'_>) -> Result<Expr, Stop>
        requires { Opens self.now.depth (F.pre self.now.unary) (F.post self.now.unary) }
        ensures { Reads (spec.unary_by self.now.depth (below self.now.depth) cursor.old)
            result cursor.new }
    {
        if cursor.sees(Set::Prefix) {
            self.enter(cursor)?;
            self.inside().prefix(cursor)
        } else {
            self.postfix(cursor)
        }
    }
}
