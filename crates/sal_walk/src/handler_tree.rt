use sal_ast::{Param, Stmt, TypeName};
use sal_value::Text;

/// A handler in its tree; or a constructor, which has no result.
#[derive(Drop)]
pub struct HandlerTree<'a> {
    pub name: &'a Text,
    pub result: Option<&'a TypeName>,
    pub params: &'a [Param],
    pub body: &'a [Stmt],
}
