// Names of nodes and arcs.
ghost use Rattle.std.specs.Prelude.{◌≡◌, ◌↔◌, Bool, false, IfOk};
ghost use Rattle.std.specs.List.{list_all};
ghost use Rattle.model_text.specs.Names.{IsName, is_name, is_name_byte};

use std::alloc::{AllocError, Global};
use std::marker::Model;

/// The greatest number of bytes of a name.
pub const NAME_MOST: usize = 64;

/// Why bytes gave no name.
#[derive(Clone, Copy, PartialEq, Eq, Debug)]
pub enum NameFault {
    /// The bytes aren't a name.
    Form,
    NoMemory,
}

/// A name of a node or an arc. Contracts see its bytes and that they are a name.
#[derive(Drop)]
pub struct Name {
    bytes: Vec<u8>,
    ghost named: { IsName bytes.items },
}

impl Model for Name {
    ghost use Rattle.model_text.specs.Names.{Named};

    ghost Value = { Named };

    ghost view = { λ name. record { bytes = name.bytes.items; named = name.named } };
}

impl Name {
    pub fn of(alloc: Global, bytes: &[u8]) -> Result<Name, NameFault>
        ensures name { IfOk result (λ name. name.bytes ≡ bytes.now) }
        ensures form { (result ≡ Err NameFault.Form) ↔ (is_name bytes.now ≡ false) }
    {
        if !is_name(bytes) {
            return Err(NameFault::Form);
        }
        Name::of_tested(alloc, bytes).map_err(|_| NameFault::NoMemory)
    }

    /// The name of bytes that were tested before.
    pub(crate) fn of_tested(alloc: Global, bytes: &[u8]) -> Result<Name, AllocError>
        requires { IsName bytes.now }
        ensures name { IfOk result (λ name. name.bytes ≡ bytes.now) }
    {
        let bytes = Vec::from_slice(alloc, bytes)?;
        Ok(Name { bytes })
    }

    pub fn as_slice(&self) -> &[u8]
        ensures { result.now ≡ self.now.bytes }
    {
        self.bytes.as_slice()
    }

    pub fn into_vec(self) -> Vec<u8>
        ensures { result.items ≡ self.bytes }
    {
        let Name { bytes } = self;
        bytes
    }
}

/// Whether the bytes are a name: 1 to `NAME_MOST` of them, each an ASCII letter, an ASCII digit, `_`, `-`, `.` or `:`.
pub fn is_name(bytes: &[u8]) -> bool
    ensures { result ≡ is_name bytes.now }
{
    !bytes.is_empty() && bytes.len() <= NAME_MOST && are_name_bytes(bytes)
}

fn are_name_bytes(bytes: &[u8]) -> bool
    ensures { result ≡ list_all is_name_byte bytes.now }
{
    bytes.iter().all(|byte| is_name_byte(*byte))
}

fn is_name_byte(byte: u8) -> bool
    ensures { result ≡ is_name_byte byte }
{
    byte.is_ascii_alphanumeric() || matches!(byte, b'_' | b'-' | b'.' | b':')
}
