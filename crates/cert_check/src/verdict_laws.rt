// The laws of verdicts. Each function does nothing: its contract is the law.
ghost use Rattle.cert_check.specs.VerdictLaws.{OneVerdictLaw};

/// A certificate has at most one verdict.
pub fn one_verdict()
    ensures { OneVerdictLaw }
{}
