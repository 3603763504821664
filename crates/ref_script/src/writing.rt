//! Writes the text of a script.

ghost use Rattle.std.specs.Prelude.{◌≡◌, IfOk, map};
ghost use Rattle.spec_machine.specs.After.{after_all};
ghost use Rattle.spec_machine.specs.Machine.{fresh};
ghost use Rattle.spec_model.specs.Nodes.{node_view};
ghost use Rattle.ref_script.specs.Desks.{said};
ghost use Rattle.spec_world.specs.Text as script;

use crate::command::Command;
use crate::frames::{put_due, without_due};
use crate::stepping::{after, after_all, desk_on};
use header::{Event, Node};
use ref_machine::fresh;
use sigface::Sign;
use std::alloc::{AllocError, Global};

/// What a node writes for these commands, if its run begins with the state after the events of `history`: after each command, the frames of
/// the outputs that are then due, in their order.
///
/// # Errors
/// An allocation failed.
#[tactic(auto, unfolding(spec_world::specs::Text::text))]
pub fn text<S: Sign>(
    alloc: Global,
    node: &Node<S>,
    history: Vec<Event>,
    commands: Vec<Command>,
) -> Result<Vec<u8>, AllocError>
    ensures { IfOk result (λ written. written.items ≡ script.text (node_view S.scheme node.now) (script.desk_on (after_all (node_view S.scheme node.now) (fresh (node_view S.scheme node.now)) history.items)) (map said commands.items)) }
{
    let base = after_all(alloc, node, &fresh(alloc, node)?, &history)?;
    let mut desk = desk_on(alloc, base);
    let mut written = Vec::new(alloc);
    for command in commands {
        desk = after(alloc, node, desk, command)?;
        put_due(alloc, &mut written, &desk)?;
        desk = without_due(desk);
    }
    Ok(written)
}
