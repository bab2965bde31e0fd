// Laws of the trial models, and the first node of the model of 1, which was found by hand.
ghost use Rattle.std.specs.Prelude.{◌≡◌, ◌∷◌, [], negsuc, codes};
ghost use Rattle.theory.specs.declared.ext.Ext.{Ext as Item};
ghost use Rattle.model_text.specs.Model.{node_at};
ghost use Rattle.trial_model.specs.Generator.{advance};
ghost use Rattle.trial_model.specs.Trial.{listed, trial_entries};
ghost use Rattle.trial_model.specs.TrialLaws.{CountsLaw};

/// Each has 200 nodes and 1,000 arcs.
pub fn counts()
    ensures { CountsLaw }
{}

/// The first state is 7806831264735756412. Over 2^33 that is 908834774, of which 8 remains modulo 21, and 8 - 10 is -2.
pub fn first_node_of_one()
    ensures state { advance 1 ≡ 7806831264735756412 }
    ensures name { (node_at (trial_entries 1) 0).name ≡ codes "n1" }
    ensures supply { (node_at (trial_entries 1) 0).supply ≡ listed (Item.At (negsuc 1) ∷ []) }
{}
