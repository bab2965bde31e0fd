// Laws of the model text.
ghost use Rattle.model_text.specs.ModelTextLaws.{OneModelLaw, SpelledOrBadLaw, OneFaultLaw, DecidedLaw, SpelledIsFormedLaw, PrintedLaw, ReadBackLaw, RescaledBackLaw};

/// A text spells at most one model.
pub fn one_model()
    ensures { OneModelLaw }
{}

/// A text that spells a model has no first fault.
pub fn spelled_or_bad()
    ensures { SpelledOrBadLaw }
{}

/// A text has at most one first fault.
pub fn one_fault()
    ensures { OneFaultLaw }
{}

/// Every text spells a model or has a first fault.
pub fn decided()
    ensures { DecidedLaw }
{}

/// What a text spells is well-formed: its names, its limits, its curve lists and the ends of its arcs.
pub fn spelled_is_formed()
    ensures { SpelledIsFormedLaw }
{}

/// The printed form of a model spells it.
pub fn printed()
    ensures { PrintedLaw }
{}

/// What the printed form of a model spells is that model.
pub fn read_back()
    ensures { ReadBackLaw }
{}

/// A model that is exact at another scale is the same again back at its own.
pub fn rescaled_back()
    ensures { RescaledBackLaw }
{}
