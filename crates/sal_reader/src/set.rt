//! Sets of classes of tokens.

ghost use Rattle.std.specs.Prelude.{◌≡◌};
ghost use Rattle.sal_grammar.specs.Sets as is;
ghost use Rattle.sal_reader.specs.Reads.{set_of};

use sal_grammar::Class;

/// A set of classes, by which the parser decides.
#[derive(Clone, Copy, Debug)]
pub enum Set {
    OpenBrace,
    CloseBrace,
    OpenParen,
    CloseParen,
    OpenBracket,
    CloseBracket,
    Semicolon,
    Comma,
    Dot,
    Assign,
    ThenSign,
    Colon,
    Arrow,
    Getter,
    At,
    Delay,
    WaitFor,
    Length,
    Behavior,
    New,
    Void,
    Token,
    Join,
    IfWord,
    ElseWord,
    WhileWord,
    ForWord,
    ReturnWord,
    This,
    Current,
    Output,
    End,
    Id,
    SortWord,
    Or,
    And,
    Equal,
    Relation,
    Sum,
    Product,
    Prefix,
    Suffix,
    AfterUnary,
    Plain,
    FirstExpr,
    AfterExpr,
    Sort,
    Nest,
    FirstStmt,
    FirstMember,
}

impl Set {
    /// Whether a class is in the set.
    pub fn has(self, class: Class) -> bool
        ensures { result ≡ set_of self class }
    {
        match self {
            Set::OpenBrace => open_brace(class),
            Set::CloseBrace => close_brace(class),
            Set::OpenParen => open_paren(class),
            Set::CloseParen => close_paren(class),
            Set::OpenBracket => open_bracket(class),
            Set::CloseBracket => close_bracket(class),
            Set::Semicolon => semicolon(class),
            Set::Comma => comma(class),
            Set::Dot => dot(class),
            Set::Assign => assign(class),
            Set::ThenSign => then_sign(class),
            Set::Colon => colon(class),
            Set::Arrow => arrow(class),
            Set::Getter => getter(class),
            Set::At => at(class),
            Set::Delay => delay(class),
            Set::WaitFor => wait_for(class),
            Set::Length => length(class),
            Set::Behavior => behavior(class),
            Set::New => new(class),
            Set::Void => void(class),
            Set::Token => token(class),
            Set::Join => join(class),
            Set::IfWord => if_word(class),
            Set::ElseWord => else_word(class),
            Set::WhileWord => while_word(class),
            Set::ForWord => for_word(class),
            Set::ReturnWord => return_word(class),
            Set::This => this(class),
            Set::Current => current(class),
            Set::Output => output(class),
            Set::End => end(class),
            Set::Id => id(class),
            Set::SortWord => sort_word(class),
            Set::Or => or(class),
            Set::And => and(class),
            Set::Equal => equal(class),
            Set::Relation => relation(class),
            Set::Sum => sum(class),
            Set::Product => product(class),
            Set::Prefix => prefix(class),
            Set::Suffix => suffix(class),
            Set::AfterUnary => after_unary(class),
            Set::Plain => plain(class),
            Set::FirstExpr => first_expr(class),
            Set::AfterExpr => after_expr(class),
            Set::Sort => sort(class),
            Set::Nest => nest(class),
            Set::FirstStmt => first_stmt(class),
            Set::FirstMember => first_member(class),
        }
    }
}

fn open_brace(class: Class) -> bool
    ensures { result ≡ is.open_brace class }
{
    matches!(class, Class::OpenBrace)
}

fn close_brace(class: Class) -> bool
    ensures { result ≡ is.close_brace class }
{
    matches!(class, Class::CloseBrace)
}

fn open_paren(class: Class) -> bool
    ensures { result ≡ is.open_paren class }
{
    matches!(class, Class::OpenParen)
}

fn close_paren(class: Class) -> bool
    ensures { result ≡ is.close_paren class }
{
    matches!(class, Class::CloseParen)
}

fn open_bracket(class: Class) -> bool
    ensures { result ≡ is.open_bracket class }
{
    matches!(class, Class::OpenBracket)
}

fn close_bracket(class: Class) -> bool
    ensures { result ≡ is.close_bracket class }
{
    matches!(class, Class::CloseBracket)
}

fn semicolon(class: Class) -> bool
    ensures { result ≡ is.semicolon class }
{
    matches!(class, Class::Semicolon)
}

fn comma(class: Class) -> bool
    ensures { result ≡ is.comma class }
{
    matches!(class, Class::Comma)
}

fn dot(class: Class) -> bool
    ensures { result ≡ is.dot class }
{
    matches!(class, Class::Dot)
}

fn assign(class: Class) -> bool
    ensures { result ≡ is.assign class }
{
    matches!(class, Class::Assign)
}

fn then_sign(class: Class) -> bool
    ensures { result ≡ is.then_sign class }
{
    matches!(class, Class::Then)
}

fn colon(class: Class) -> bool
    ensures { result ≡ is.colon class }
{
    matches!(class, Class::Colon)
}

fn arrow(class: Class) -> bool
    ensures { result ≡ is.arrow class }
{
    matches!(class, Class::Arrow)
}

fn getter(class: Class) -> bool
    ensures { result ≡ is.getter class }
{
    matches!(class, Class::Getter)
}

fn at(class: Class) -> bool
    ensures { result ≡ is.at class }
{
    matches!(class, Class::At)
}

fn delay(class: Class) -> bool
    ensures { result ≡ is.delay class }
{
    matches!(class, Class::Delay)
}

fn wait_for(class: Class) -> bool
    ensures { result ≡ is.wait_for class }
{
    matches!(class, Class::WaitFor)
}

fn length(class: Class) -> bool
    ensures { result ≡ is.length class }
{
    matches!(class, Class::Length)
}

fn behavior(class: Class) -> bool
    ensures { result ≡ is.behavior class }
{
    matches!(class, Class::Behavior)
}

fn new(class: Class) -> bool
    ensures { result ≡ is.new class }
{
    matches!(class, Class::New)
}

fn void(class: Class) -> bool
    ensures { result ≡ is.void class }
{
    matches!(class, Class::Void)
}

fn token(class: Class) -> bool
    ensures { result ≡ is.token class }
{
    matches!(class, Class::Token)
}

fn join(class: Class) -> bool
    ensures { result ≡ is.join class }
{
    matches!(class, Class::Join)
}

fn if_word(class: Class) -> bool
    ensures { result ≡ is.if_word class }
{
    matches!(class, Class::If)
}

fn else_word(class: Class) -> bool
    ensures { result ≡ is.else_word class }
{
    matches!(class, Class::Else)
}

fn while_word(class: Class) -> bool
    ensures { result ≡ is.while_word class }
{
    matches!(class, Class::While)
}

fn for_word(class: Class) -> bool
    ensures { result ≡ is.for_word class }
{
    matches!(class, Class::For)
}

fn return_word(class: Class) -> bool
    ensures { result ≡ is.return_word class }
{
    matches!(class, Class::Return)
}

fn this(class: Class) -> bool
    ensures { result ≡ is.this class }
{
    matches!(class, Class::This)
}

fn current(class: Class) -> bool
    ensures { result ≡ is.current class }
{
    matches!(class, Class::Current)
}

fn output(class: Class) -> bool
    ensures { result ≡ is.output class }
{
    matches!(class, Class::Output)
}

fn end(class: Class) -> bool
    ensures { result ≡ is.end class }
{
    matches!(class, Class::End)
}

fn id(class: Class) -> bool
    ensures { result ≡ is.id class }
{
    matches!(
        class,
        Class::Id | Class::At | Class::Delay | Class::WaitFor | Class::Length | Class::Getter
    )
}

fn sort_word(class: Class) -> bool
    ensures { result ≡ is.sort_word class }
{
    matches!(class, Class::Int | Class::Boolean | Class::Text)
}

fn or(class: Class) -> bool
    ensures { result ≡ is.or class }
{
    matches!(class, Class::Or)
}

fn and(class: Class) -> bool
    ensures { result ≡ is.and class }
{
    matches!(class, Class::And)
}

fn equal(class: Class) -> bool
    ensures { result ≡ is.equal class }
{
    matches!(class, Class::Same | Class::Other)
}

fn relation(class: Class) -> bool
    ensures { result ≡ is.relation class }
{
    matches!(
        class,
        Class::Less | Class::LessEq | Class::Greater | Class::GreaterEq
    )
}

fn sum(class: Class) -> bool
    ensures { result ≡ is.sum class }
{
    matches!(class, Class::Plus | Class::Minus)
}

fn product(class: Class) -> bool
    ensures { result ≡ is.product class }
{
    matches!(class, Class::Star | Class::Slash | Class::Percent)
}

fn prefix(class: Class) -> bool
    ensures { result ≡ is.prefix class }
{
    matches!(class, Class::Minus | Class::Not)
}

fn suffix(class: Class) -> bool
    ensures { result ≡ is.suffix class }
{
    matches!(class, Class::OpenBracket | Class::Dot)
}

fn after_unary(class: Class) -> bool
    ensures { result ≡ is.after_unary class }
{
    suffix(class) || id(class)
}

fn plain(class: Class) -> bool
    ensures { result ≡ is.plain class }
{
    matches!(
        class,
        Class::Number | Class::Str | Class::True | Class::False | Class::Null | Class::Me
    )
}

fn first_closed(class: Class) -> bool
    ensures { result ≡ is.first_closed class }
{
    matches!(class, Class::OpenParen | Class::New) || plain(class)
}

fn first_other(class: Class) -> bool
    ensures { result ≡ is.first_other class }
{
    this(class) || first_closed(class)
}

fn first_postfix(class: Class) -> bool
    ensures { result ≡ is.first_postfix class }
{
    id(class) || first_other(class)
}

fn first_expr(class: Class) -> bool
    ensures { result ≡ is.first_expr class }
{
    prefix(class) || first_postfix(class)
}

fn after_expr(class: Class) -> bool
    ensures { result ≡ is.after_expr class }
{
    after_unary(class)
        || product(class)
        || sum(class)
        || relation(class)
        || equal(class)
        || and(class)
        || or(class)
}

fn sort(class: Class) -> bool
    ensures { result ≡ is.sort class }
{
    sort_word(class) || id(class)
}

fn first_stage(class: Class) -> bool
    ensures { result ≡ is.first_stage class }
{
    join(class) || output(class) || first_postfix(class)
}

fn nest(class: Class) -> bool
    ensures { result ≡ is.nest class }
{
    matches!(
        class,
        Class::OpenBrace | Class::If | Class::While | Class::For
    )
}

fn first_stmt(class: Class) -> bool
    ensures { result ≡ is.first_stmt class }
{
    nest(class)
        || semicolon(class)
        || return_word(class)
        || token(class)
        || sort_word(class)
        || first_stage(class)
}

fn first_member(class: Class) -> bool
    ensures { result ≡ is.first_member class }
{
    void(class) || sort(class)
}
