//! Laws of the definitions: functions without work, whose contracts are the laws.

ghost use Rattle.sal_value.specs.Coding.{NamesAreDecoded, ValuesAreDecoded};
ghost use Rattle.sal_value.specs.Names.{LocatorsAreRead, NamesAreDecided, NamesAreGiven, NamesAreRead, NamesAreRefusedOnce};
ghost use Rattle.sal_value.specs.Order.{KeysAreInjective};

/// A map by keys is a map from names.
pub fn keys_are_injective()
    ensures { KeysAreInjective }
{}

/// Good names are those that reading gives, and each is read again from its text.
pub fn names_are_read()
    ensures { NamesAreRead }
{}

/// The same of locators.
pub fn locators_are_read()
    ensures { LocatorsAreRead }
{}

/// The functions of texts give the names and locators that reading gives, and nothing where it refuses.
pub fn names_are_given()
    ensures { NamesAreGiven }
{}

/// What these functions give is read, and where they give nothing the text is refused for a reason.
pub fn names_are_decided()
    ensures { NamesAreDecided }
{}

/// A text is refused as a name for one reason, and as a locator for one.
pub fn names_are_refused_once()
    ensures { NamesAreRefusedOnce }
{}

/// What is decoded is spelled by the bytes that were read, and what is spelled is decoded.
pub fn values_are_decoded()
    ensures { ValuesAreDecoded }
{}

/// The same of names.
pub fn names_are_decoded()
    ensures { NamesAreDecoded }
{}
