ghost use Rattle.sal_book.specs.Laws.{BooksKeepTheirMaker, JoinsResolve, JoinsResolveOnce, ReleasesAreLegal};

/// Replies that a book releases have legal values.
pub fn releases_are_legal()
    ensures { ReleasesAreLegal }
{}

/// What enters a book and what waits in it are of one actor, whatever is given.
pub fn books_keep_their_maker()
    ensures { BooksKeepTheirMaker }
{}

/// No join gives on its array twice.
pub fn joins_resolve_once()
    ensures { JoinsResolveOnce }
{}

/// An open join has resolved once legal values came to all its slots, in any order.
pub fn joins_resolve()
    ensures { JoinsResolve }
{}
