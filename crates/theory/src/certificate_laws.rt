// The laws of certificates and of grounded networks. Each function does nothing: its contract is the law.

ghost use Rattle.theory.specs.CertificateLaws.{CertificateLaw, OneKindLaw, GroundedLaw};

/// A valid certificate proves an optimum, that there is no feasible flow, or that no plan is bounded.
pub fn certificate_says()
    ensures { CertificateLaw }
{}

/// Certificates of two kinds are never valid for one network.
pub fn one_kind()
    ensures { OneKindLaw }
{}

/// The grounded network of a model is a network.
pub fn grounded_is_network()
    ensures { GroundedLaw }
{}
