//! The configuration of a validator: its committee, its number and its signer.

ghost use Rattle.std.specs.Prelude.{◌≡◌, All, IfSome, IsNone, Some, slice_get};
ghost use Rattle.wire.specs.Fields.{HasBytes, AreBytes};
ghost use Rattle.spec_model.specs.Nodes.{IsNode};
ghost use Rattle.validator.specs.Setting.{node_of};

use committee::Committee;
use header::Node;
use sigface::Sign;
use std::marker::Model;
use wire::{Author, Key};

/// A member of a committee, with its signer. Contracts see the committee, the member's number and the signer.
pub struct Config<S: Sign> {
    node: Node<S>,
}

impl<S: Sign + Drop> Drop for Config<S> {
    fn drop(self) {
        let Config { node: _ } = self;
    }
}

impl<S: Sign> Model for Config<S> {
    ghost use Rattle.spec_model.specs.Nodes.{IsNode};
    ghost use Rattle.validator.specs.Setting.{ConfigView, node_of};

    ghost Value = { ConfigView S };

    ghost view = { λ c. record { own = c.node.own; charter = c.node.committee; signer = c.node.signer } };

    ghost invariant = { λ c. IsNode (node_of S.scheme (record { own = c.node.own; charter = c.node.committee; signer = c.node.signer })) };
}

impl<S: Sign> Config<S> {
    /// The configuration of the member with this number. None where the number is no member's, or the signer's key isn't the member's.
    pub fn new(committee: Committee, own: Author, signer: S) -> Option<Config<S>>
    where
        S: Drop,
        ensures some { IfSome result (λ config. config ≡ record { own = own; charter = committee; signer = signer }) }
        ensures none { IsNone result → slice_get committee.keys own.0 ≡ Some (S.scheme.own_key signer) → ⊥ }
    {
        committee.limits_hold();
        let key = signer.key();
        if committee.key(own) != Some(&key) {
            return None;
        }
        Some(Config {
            node: Node {
                own,
                committee,
                signer,
            },
        })
    }

    // The node that this configuration describes: the member's number, the committee and the signer.
    pub(crate) fn node(&self) -> &Node<S>
        ensures { self.now ≡ record { own = result.now.own; charter = result.now.committee; signer = result.now.signer } }
    {
        &self.node
    }

    /// The committee whose member the validator is.
    pub fn committee(&self) -> &Committee
        ensures { result.now ≡ self.now.charter }
    {
        &self.node.committee
    }

    /// The member's number in its committee.
    pub fn own(&self) -> Author
        ensures { result ≡ self.now.own }
    {
        self.node.own
    }

    /// The signer with which the member signs headers and votes.
    pub fn signer(&self) -> &S
        ensures { result.now ≡ self.now.signer }
    {
        &self.node.signer
    }

    /// What holds of every configuration: it is of a member of its committee, which has its signer's key. The call does nothing.
    pub fn limits_hold(&self)
        ensures { IsNode (node_of S.scheme self.now) }
    {
        let _ = &self.node;
    }

    /// Each key of the committee has 32 bytes. The call looks at each key and changes nothing.
    pub fn keys_hold(&self)
        ensures { All (λ key. HasBytes 32 key.0) self.now.charter.keys }
    {
        look_at_keys(&self.node.committee);
    }
}

// Each key of a committee has 32 bytes. The call looks at each key and changes nothing.
fn look_at_keys(committee: &Committee)
    ensures { All (λ key. HasBytes 32 key.0) committee.now.keys }
{
    for member in 0..committee.size() {
        match committee.key(Author(member)) {
            Some(key) => is_key(key),
            None => unreachable!(),
        }
    }
}

// A key has 32 bytes. The call does nothing.
fn is_key(key: &Key)
    ensures { HasBytes 32 key.now.0 }
{
    are_bytes(&key.0);
}

// Each of these bytes is a number below 256. The call does nothing.
fn are_bytes(bytes: &[u8])
    ensures { AreBytes bytes.now }
{
    let _ = bytes;
}
