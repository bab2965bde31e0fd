// Which calls of a memory form are to fail.
ghost use Rattle.std.specs.Prelude.{◌≡◌, [], IfOk};
ghost use Rattle.outside_io.specs.Counts.{raised, is_listed};

use std::alloc::{AllocError, Global};

/// The numbers of the calls that are to fail, counted from 0, and the number of the next call.
#[derive(Drop)]
pub(crate) struct Failing {
    pub(crate) listed: Vec<u64>,
    pub(crate) calls: u64,
}

impl Failing {
    pub(crate) fn of(alloc: Global, fails: &[u64]) -> Result<Self, AllocError>
        ensures listed { IfOk result (λ failing. failing.listed.items ≡ fails.now) }
        ensures calls { IfOk result (λ failing. failing.calls ≡ 0) }
    {
        let listed = Vec::from_slice(alloc, fails)?;
        Ok(Failing { listed, calls: 0 })
    }

    /// No call is to fail.
    pub(crate) fn none(alloc: Global) -> Self
        ensures listed { result.listed.items ≡ [] }
        ensures calls { result.calls ≡ 0 }
    {
        Failing {
            listed: Vec::new(alloc),
            calls: 0,
        }
    }

    /// Counts one call, and says whether it is to fail.
    pub(crate) fn next_fails(&mut self) -> bool
        ensures fails { result ≡ is_listed self.old.listed.items self.old.calls }
        ensures listed { self.new.listed ≡ self.old.listed }
        ensures calls { self.new.calls ≡ raised self.old.calls }
    {
        let call = self.calls;
        self.calls = call.saturating_add(1);
        self.listed.as_slice().contains(&call)
    }
}
