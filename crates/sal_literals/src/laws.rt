//! Laws of the definitions: functions without work, whose contracts are the laws.

ghost use Rattle.sal_literals.specs.Laws.{PrintedValuesAreRead, ReadValuesArePrinted, ValuesHaveOwnTexts};

/// What is printed is read.
pub fn printed_values_are_read()
    ensures { PrintedValuesAreRead }
{}

/// What is read is what was printed.
pub fn read_values_are_printed()
    ensures { ReadValuesArePrinted }
{}

/// Texts of different values differ.
pub fn values_have_own_texts()
    ensures { ValuesHaveOwnTexts }
{}
