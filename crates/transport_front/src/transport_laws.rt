// What a valid certificate of a compiled table says of the table. The function does nothing: its contract is the law.
ghost use Rattle.transport_front.specs.Plan.{TransportLaw};

/// An optimal pair gives a plan that no plan over any denominator undercuts, and a cut gives sets of plants and shops that
/// fall short. There is no circuit.
pub fn certificate_says_of_table()
    ensures { TransportLaw }
{}
