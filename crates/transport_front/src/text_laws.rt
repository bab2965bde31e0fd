// The laws of the text of a table. Each function does nothing: its contract is the law.
ghost use Rattle.transport_front.specs.TableTextLaws.{OneTableLaw, SpelledOrBadLaw, OneFaultLaw};

/// A text spells at most one table.
pub fn one_table()
    ensures { OneTableLaw }
{}

/// A text that spells a table has no first fault.
pub fn spelled_or_bad()
    ensures { SpelledOrBadLaw }
{}

/// A text has at most one first fault.
pub fn one_fault()
    ensures { OneFaultLaw }
{}
