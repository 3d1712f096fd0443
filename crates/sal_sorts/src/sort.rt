//! Sorts: the types of expressions.

ghost use Rattle.std.specs.Prelude.{◌≡◌, ◌+◌, ◌<◌, ◌^◌};
ghost use Rattle.sal_sorts.specs.Sorts as spec;

use crate::identifier::Identifier;
use sal_ast::{BaseName, TypeName};

/// What an array holds innermost, or what a value is that is no array.
#[derive(Drop)]
pub enum Base<'a> {
    Int,
    Boolean,
    Str,
    /// The behaviour of this name.
    Actor(Identifier<'a>),
    Void,
    Null,
}

/// A base with so many pairs of brackets.
#[derive(Drop)]
pub struct Sort<'a> {
    pub base: Base<'a>,
    pub dims: u32,
}

impl<'a> Base<'a> {
    pub fn copy(&self) -> Base<'a>
        ensures { result ≡ self.now }
    {
        match self {
            Base::Int => Base::Int,
            Base::Boolean => Base::Boolean,
            Base::Str => Base::Str,
            Base::Actor(name) => Base::Actor(name.copy()),
            Base::Void => Base::Void,
            Base::Null => Base::Null,
        }
    }

    fn is_same(&self, other: &Base<'_>) -> bool
        ensures { result ≡ spec.is_same_base self.now other.now }
    {
        match (self, other) {
            (Base::Int, Base::Int) => true,
            (Base::Boolean, Base::Boolean) => true,
            (Base::Str, Base::Str) => true,
            (Base::Actor(a), Base::Actor(b)) => a.is_same(b),
            (Base::Void, Base::Void) => true,
            (Base::Null, Base::Null) => true,
            _ => false,
        }
    }

    fn of(name: &'a BaseName) -> Base<'a>
        ensures { result ≡ spec.base_of name.now }
    {
        match name {
            BaseName::Int => Base::Int,
            BaseName::Boolean => Base::Boolean,
            BaseName::Str => Base::Str,
            BaseName::Actor(name) => Base::Actor(Identifier::new(name)),
        }
    }
}

impl<'a> Sort<'a> {
    /// Without brackets.
    pub fn plain(base: Base<'a>) -> Sort<'a>
        ensures { result ≡ spec.plain base.entry }
    {
        Sort { base, dims: 0 }
    }

    /// What the type's name means.
    #[tactic(auto, unfolding(crate::specs::Sorts::sort_of_type))]
    pub fn of_type(name: &'a TypeName) -> Sort<'a>
        ensures { result ≡ spec.sort_of_type name.now }
    {
        Sort {
            base: Base::of(&name.base),
            dims: name.dims,
        }
    }

    /// The result of a handler, which is void where none is written.
    pub fn of_result(name: &'a Option<TypeName>) -> Sort<'a>
        ensures { result ≡ spec.sort_of_result name.now }
    {
        match name {
            None => Sort::plain(Base::Void),
            Some(name) => Sort::of_type(name),
        }
    }

    pub fn copy(&self) -> Sort<'a>
        ensures { result ≡ self.now }
    {
        Sort {
            base: self.base.copy(),
            dims: self.dims,
        }
    }

    #[tactic(auto, unfolding(crate::specs::Sorts::is_same_sort))]
    pub fn is_same(&self, other: &Sort<'_>) -> bool
        ensures { result ≡ spec.is_same_sort self.now other.now }
    {
        self.base.is_same(&other.base) && self.dims == other.dims
    }

    #[tactic(auto, unfolding(crate::specs::Sorts::is_int_sort))]
    pub fn is_int(&self) -> bool
        ensures { result ≡ spec.is_int_sort self.now }
    {
        self.is_same(&Sort::plain(Base::Int))
    }

    #[tactic(auto, unfolding(crate::specs::Sorts::is_boolean_sort))]
    pub fn is_boolean(&self) -> bool
        ensures { result ≡ spec.is_boolean_sort self.now }
    {
        self.is_same(&Sort::plain(Base::Boolean))
    }

    #[tactic(auto, unfolding(crate::specs::Sorts::is_text_sort))]
    pub fn is_text(&self) -> bool
        ensures { result ≡ spec.is_text_sort self.now }
    {
        self.is_same(&Sort::plain(Base::Str))
    }

    #[tactic(auto, unfolding(crate::specs::Sorts::is_null_sort))]
    pub fn is_null(&self) -> bool
        ensures { result ≡ spec.is_null_sort self.now }
    {
        self.is_same(&Sort::plain(Base::Null))
    }

    #[tactic(auto, unfolding(crate::specs::Sorts::is_void_sort))]
    pub fn is_void(&self) -> bool
        ensures { result ≡ spec.is_void_sort self.now }
    {
        self.is_same(&Sort::plain(Base::Void))
    }

    /// What can be printed, or joined to a text.
    #[tactic(auto, unfolding(crate::specs::Sorts::is_printable_sort))]
    pub fn is_printable(&self) -> bool
        ensures { result ≡ spec.is_printable_sort self.now }
    {
        self.is_text() || self.is_int() || self.is_boolean()
    }

    #[tactic(auto, unfolding(crate::specs::Sorts::is_array_sort))]
    pub fn is_array(&self) -> bool
        ensures { result ≡ spec.is_array_sort self.now }
    {
        self.dims > 0
    }

    /// What an array holds, so many levels below.
    #[tactic(auto, unfolding(crate::specs::Sorts::sort_below))]
    pub fn below(&self, levels: u32) -> Sort<'a>
        ensures { result ≡ spec.sort_below self.now levels }
    {
        Sort {
            base: self.base.copy(),
            dims: self.dims.saturating_sub(levels),
        }
    }

    /// An array's items.
    #[tactic(auto, unfolding(crate::specs::Sorts::item_sort))]
    pub fn item(&self) -> Sort<'a>
        ensures { result ≡ spec.item_sort self.now }
    {
        Sort {
            base: self.base.copy(),
            dims: self.dims.saturating_sub(1),
        }
    }

    /// An array of these.
    #[tactic(auto, unfolding(crate::specs::Sorts::array_sort))]
    pub fn array(&self) -> Sort<'a>
        requires { self.now.dims + 1 < 2 ^ 32 }
        ensures { result ≡ spec.array_sort self.now }
    {
        Sort {
            base: self.base.copy(),
            dims: self.dims + 1,
        }
    }
}
