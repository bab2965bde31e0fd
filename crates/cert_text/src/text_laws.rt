// The laws of the texts of certificates. Each function does nothing: its contract is the law.
ghost use Rattle.cert_text.specs.TextLaws.{OneCertificateLaw, NoCertificateLaw, OneBadLineLaw};

/// A text has at most one certificate of a model.
pub fn one_certificate()
    ensures { OneCertificateLaw }
{}

/// A text with a bad line has no certificate.
pub fn bad_line_has_none()
    ensures { NoCertificateLaw }
{}

/// A text has at most one first bad line.
pub fn one_bad_line()
    ensures { OneBadLineLaw }
{}
