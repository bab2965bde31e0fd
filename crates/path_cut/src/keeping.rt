// What was found in a room, copied out of it.
ghost use Rattle.std.specs.Prelude.{◌≡◌, IfOk};

use net_incidence::{Flows, Marks, Walk};
use painted_search::Work;
use std::alloc::{AllocError, Global};

pub(crate) fn keep_numbers(alloc: Global, numbers: &[i64]) -> Result<Flows, AllocError>
    ensures { IfOk result (λ kept. kept ≡ numbers.now) }
{
    Ok(Flows::of_vec(numbers.to_vec(alloc)?))
}

pub(crate) fn keep_marks(alloc: Global, work: &Work) -> Result<Marks, AllocError>
    ensures { IfOk result (λ kept. kept ≡ work.now.reached) }
{
    let mut marks = Vec::with_capacity(alloc, work.nodes())?;
    work.put_marks(&mut marks);
    Ok(Marks::of_vec(marks))
}

pub(crate) fn keep_walk(alloc: Global, work: &Work) -> Result<Walk, AllocError>
    ensures { IfOk result (λ kept. kept ≡ work.now.walk) }
{
    let mut walk = Vec::with_capacity(alloc, work.walk_len())?;
    work.put_walk(&mut walk);
    Ok(Walk::of_vec(walk))
}
