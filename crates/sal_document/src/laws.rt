//! Laws of the definitions: functions without work, whose contracts are the laws.

ghost use Rattle.sal_document.specs.Laws.{PrintedDocumentsAreRead, TextsAreReadOneWay};

/// What is printed of a document is read as what is kept of it.
pub fn printed_documents_are_read()
    ensures { PrintedDocumentsAreRead }
{}

/// A text is read in one way.
pub fn texts_are_read_one_way()
    ensures { TextsAreReadOneWay }
{}
