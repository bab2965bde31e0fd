// Laws of the changes text.
ghost use Rattle.warm_solve.specs.ChangesTextLaws.{OneListLaw, SpelledOrBadLaw, OneFaultLaw, DecidedLaw, SpelledFitsLaw};

/// A text spells at most one list of changes of a model.
pub fn one_list()
    ensures { OneListLaw }
{}

/// A text that spells changes of a model has no first fault.
pub fn spelled_or_bad()
    ensures { SpelledOrBadLaw }
{}

/// A text has at most one first fault.
pub fn one_fault()
    ensures { OneFaultLaw }
{}

/// Every text spells changes of a model or has a first fault.
pub fn decided()
    ensures { DecidedLaw }
{}

/// Each change that a text spells is of an arc that is there, by a curve within the limits, and they aren't too many.
pub fn spelled_fits()
    ensures { SpelledFitsLaw }
{}
