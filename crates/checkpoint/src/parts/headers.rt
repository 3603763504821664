//! Reading the own headers with the votes on them out of a validator's tables, one by one.

ghost use Rattle.std.specs.Prelude.{◌≡◌, All, IfOk};
ghost use Rattle.admission.specs.Kept.{AreVotedBy, table_of};
ghost use Rattle.checkpoint.specs.Kept.{AreOfOthers};

use crate::parts::assembled::voted_header;
use admission::{Assemblies, VotedHeader};
use std::alloc::{AllocError, Global};

/// The own headers with the votes on them. From this list an equal table can be restored.
pub fn headers_of(alloc: Global, headers: &Assemblies) -> Result<Vec<VotedHeader>, AllocError>
    ensures voted { IfOk result (λ found. AreVotedBy headers.now.charter headers.now.own found.items) }
    ensures others { IfOk result (λ found. All (AreOfOthers headers.now.own) found.items) }
    ensures table { IfOk result (λ found. table_of headers.now.charter headers.now.own found.items ≡ headers.now) }
{
    headers.limits_hold();
    let mut found = Vec::new(alloc);
    for place in 0..usize::MAX {
        let Some(assembly) = headers.nth(place) else {
            return Ok(found);
        };
        assembly.limits_hold();
        let own = assembly.header().body.author;
        found.push(voted_header(alloc, own, assembly)?)?;
    }
    // This is never reached: no memory holds so many headers.
    unreachable!()
}
