//! How tightly operators bind.

ghost use Rattle.std.specs.Prelude.{◌≡◌, ◌<◌, IfSome};
ghost use Rattle.sal_expressions.specs.code.Ranks.{and_binds, binds, equal_binds, or_binds, relation_binds, sum_binds, height, operators_of, tighter_rank};
ghost use Rattle.sal_grammar.specs.Expressions as spec;
ghost use Rattle.sal_reader.specs.Reads.{set_of};

use sal_ast::Op;
use sal_grammar::Class;
use sal_reader::Set;

/// A level of operators, the tighter ones later.
#[derive(Clone, Copy, Debug, PartialEq, Eq)]
pub enum Rank {
    Or,
    And,
    Equal,
    Relation,
    Sum,
    Product,
}

/// The rank of what stands between the operators of this rank, if it isn't a unary expression.
pub fn tighter_rank(rank: Rank) -> Option<Rank>
    ensures rank { result ≡ tighter_rank rank }
    ensures lower { IfSome result (λ other. height other < height rank) }
{
    match rank {
        Rank::Or => Some(Rank::And),
        Rank::And => Some(Rank::Equal),
        Rank::Equal => Some(Rank::Relation),
        Rank::Relation => Some(Rank::Sum),
        Rank::Sum => Some(Rank::Product),
        Rank::Product => None,
    }
}

pub fn operators(rank: Rank) -> Set
    ensures { set_of result ≡ operators_of rank }
{
    match rank {
        Rank::Or => Set::Or,
        Rank::And => Set::And,
        Rank::Equal => Set::Equal,
        Rank::Relation => Set::Relation,
        Rank::Sum => Set::Sum,
        Rank::Product => Set::Product,
    }
}

fn sum_binds(class: Class) -> bool
    ensures { result ≡ sum_binds class }
{
    Set::Sum.has(class) || Set::Product.has(class)
}

fn relation_binds(class: Class) -> bool
    ensures { result ≡ relation_binds class }
{
    Set::Relation.has(class) || sum_binds(class)
}

fn equal_binds(class: Class) -> bool
    ensures { result ≡ equal_binds class }
{
    Set::Equal.has(class) || relation_binds(class)
}

fn and_binds(class: Class) -> bool
    ensures { result ≡ and_binds class }
{
    Set::And.has(class) || equal_binds(class)
}

fn or_binds(class: Class) -> bool
    ensures { result ≡ or_binds class }
{
    Set::Or.has(class) || and_binds(class)
}

/// Whether a class is an operator of this rank or a tighter one.
pub fn binds(rank: Rank, class: Class) -> bool
    ensures { result ≡ binds rank class }
{
    match rank {
        Rank::Or => or_binds(class),
        Rank::And => and_binds(class),
        Rank::Equal => equal_binds(class),
        Rank::Relation => relation_binds(class),
        Rank::Sum => sum_binds(class),
        Rank::Product => Set::Product.has(class),
    }
}

pub fn op_of(class: Class) -> Op
    ensures { result ≡ spec.op_of class }
{
    match class {
        Class::Or => Op::Or,
        Class::And => Op::And,
        Class::Same => Op::Same,
        Class::Other => Op::Other,
        Class::Less => Op::Less,
        Class::LessEq => Op::LessEq,
        Class::Greater => Op::Greater,
        Class::GreaterEq => Op::GreaterEq,
        Class::Plus => Op::Add,
        Class::Minus => Op::Sub,
        Class::Star => Op::Mul,
        Class::Slash => Op::Div,
        _ => Op::Rem,
    }
}
