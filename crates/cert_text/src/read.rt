// Reading a certificate. Its text says all but the names and the order of its lines, which are known: so a certificate
// is read from the ends of the lines, as if the text were right, and then its own text is compared with it.
ghost use Rattle.std.specs.Prelude.{◌≡◌, ◌^◌, ◌≤◌, length, IfOk, IfErr};
ghost use Rattle.cert_text.specs.BadLine.{IsTextOf, IsFaultOf};
ghost use Rattle.cert_text.specs.Shown.{shown};

use crate::candidate::candidate;
use crate::certificate::Certificate;
use crate::lines::first_difference;
use crate::print::print_cert;
use model_text::Model;
use std::alloc::{AllocError, Global};
use thiserror::Error;

/// Why bytes gave no certificate.
#[derive(Clone, Copy, PartialEq, Eq, Debug, Error)]
pub enum CertFault {
    /// The first bad line, from 1; the one behind the last where the text ends too early.
    #[error("line {line} is not that of a certificate of the model")]
    BadText { line: u32 },
    #[error("out of memory")]
    NoMemory,
}

impl From<AllocError> for CertFault {
    ghost use Rattle.cert_text.specs.declared.read.CertFault.{CertFault as Fault};

    ghost from_gives = { λ _ fault. fault ≡ Fault.NoMemory };

    fn from(_: AllocError) -> Self {
        CertFault::NoMemory
    }
}

/// The certificate of the model that has this text. It takes the memory of a second text.
pub fn read_cert(alloc: Global, m: &Model, text: &[u8]) -> Result<Certificate, CertFault>
    requires { length text.now ≤ 2 ^ 26 }
    ensures read { IfOk result (λ c. IsTextOf m.now.scale m.now.entries text.now (shown c)) }
    ensures refused { IfErr result (IsFaultOf m.now.scale m.now.entries text.now) }
{
    let certificate = candidate(alloc, m, text)?;
    let printed = print_cert(alloc, m, &certificate)?;
    match first_difference(text, printed.as_slice()) {
        None => Ok(certificate),
        Some(line) => Err(CertFault::BadText { line }),
    }
}
