//! Writes the result of loading records as text.

ghost use Rattle.std.specs.Prelude.{◌≡◌, IfOk, string_bytes};
ghost use Rattle.spec_checkpoint.specs.Loading.{load_fault};
ghost use Rattle.spec_model.specs.Nodes.{node_view};
ghost use Rattle.ref_checkpoint.specs.Faults.{answer_text};
ghost use Rattle.ref_checkpoint.specs.Lists.{contents};

use crate::fault::LoadFault;
use crate::loading::load_fault;
use header::Node;
use sigface::Sign;
use std::alloc::{AllocError, Global};

/// The result of loading records, as files of test cases have it: `Ok`, or number and name of the fault, with the place of the record at
/// fault.
///
/// # Errors
/// An allocation failed.
pub fn load_answer<S: Sign>(
    alloc: Global,
    node: &Node<S>,
    records: &[Vec<u8>],
) -> Result<String, AllocError>
    ensures { IfOk result (λ text. string_bytes text ≡ answer_text (load_fault (node_view S.scheme node.now) (contents records.now))) }
{
    match load_fault(alloc, node, records)? {
        None => String::from_str(alloc, "Ok"),
        Some(LoadFault::AtRecord(place)) => format!(in alloc; "2 Unsound {place}"),
        Some(LoadFault::OfWhole) => String::from_str(alloc, "3 UnsoundWhole"),
    }
}
