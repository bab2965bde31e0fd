// The kind of a certificate.
ghost use Rattle.std.specs.Prelude.{◌≡◌};
ghost use Rattle.cert_text.specs.Shown.{shown};
ghost use Rattle.warm_solve.specs.Kinds.{kind_of};

use cert_text::Certificate;

/// What a certificate shows: an optimal pair, that no flow is feasible, or that no plan is bounded.
#[derive(Clone, Copy, PartialEq, Eq, Debug)]
pub enum Kind {
    Optimal,
    Cut,
    Circuit,
}

impl Kind {
    pub fn of(certificate: &Certificate) -> Kind
        ensures { result ≡ kind_of (shown certificate.now) }
    {
        match certificate {
            Certificate::Optimal { .. } => Kind::Optimal,
            Certificate::Cut { .. } => Kind::Cut,
            Certificate::Circuit { .. } => Kind::Circuit,
        }
    }
}
