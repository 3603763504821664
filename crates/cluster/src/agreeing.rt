//! The agreement of honest members: the theorem over all lists of moves, and over runs in threads.

use crate::cluster::Cluster;
use diskmodel::StopDisk;
use sigface::{Sign, Verify};
use spec_cluster::agreement;

impl<'a, S: Sign, D: StopDisk, V: Verify> Cluster<'a, S, D, V> {
    ghost use Rattle.cluster.specs.Applying.{GivenOrdersAgree};

    /// For any choice of honest nodes, any moves with any answers, and any runs in threads in between: assume that the honest nodes began
    /// on empty disks, that the other nodes weigh no more than is tolerated, and that what honest nodes accepted from outside, or heard in
    /// threads, had no forged vote of an honest node and only one value for each wave's coin. Then the honest nodes are in accord. If also
    /// no two different texts of headers and certificates that honest nodes accepted share a digest, then of the orders that any two honest
    /// nodes gave out, one is a prefix of the other. The call does nothing: it is a theorem.
    pub fn orders_agree(&self)
        ensures { GivenOrdersAgree S.scheme D.device (V.accepts self.now.verifier) self.now.members }
    {
        agreement();
    }
}
