//! Opens a cluster and applies a list of moves to it.

use crate::cluster::Cluster;
use crate::error::ClusterError;
use crate::moves::{Applied, Move};
use diskmodel::StopDisk;
use journal::JournalError;
use sigface::{Sign, Verify};
use spec_cluster::agreement;
use std::alloc::{AllocError, Global};
use validator::Config;

impl<'a, S: Sign, D: StopDisk + Drop, V: Verify + Drop> Cluster<'a, S, D, V> {
    ghost use Rattle.std.specs.Prelude.{◌≡◌, ◌⊎◌, [], length, map, vec_len, All, Contains, IfOk, IfErr, IsErrOf, List, Some};
    ghost use Rattle.cluster.specs.Answers.{CountsMore, IsJournalFault};
    ghost use Rattle.cluster.specs.Applying.{Stage, StagesLead, AreAnswered, ArePlayed};
    ghost use Rattle.cluster.specs.Cluster.{AreOfOne, AreDistinct};

    /// Opens a node for each of these settings, each on the empty disk at its place, and applies the moves in turn, whatever they are
    /// answered. Returns the cluster and the answers. Of the orders that any two honest nodes gave out then, one is a prefix of the other.
    /// This holds for any choice of honest nodes if the others weigh no more than is tolerated, if what honest nodes accepted from outside
    /// had no forged vote of an honest node and no second value of a wave's coin, and if no two different texts of headers and certificates
    /// that they accepted share a digest.
    ///
    /// # Errors
    /// Those of `new`, and `Memory` if an allocation for the answers failed. The error of a move is an answer, and ends nothing.
    pub fn play(
        alloc: Global,
        configs: &'a [Config<S>],
        disks: Vec<D>,
        verifier: V,
        moves: Vec<Move>,
    ) -> Result<(Cluster<'a, S, D, V>, Vec<Result<Applied, ClusterError>>), ClusterError>
        requires many { vec_len disks ≡ length configs.now }
        requires empty { All (λ disk. D.device.content disk ≡ []) disks.items }
        requires one_committee { AreOfOne configs.now }
        requires distinct { AreDistinct configs.now }
        ensures played { IfOk result (λ played. ArePlayed S.scheme D.device (V.accepts verifier) configs.now disks.items moves.items played.1.items played.0.members) }
        ensures verifier { IfOk result (λ played. played.0.verifier ≡ verifier) }
        ensures errors { IfErr result (λ error. (error ≡ ClusterError.Memory) ⊎ IsJournalFault error) }
        ensures device { IsErrOf result (ClusterError.Journal JournalError.Device) → (disk : D) × Contains disks.items disk × CountsMore D.device disk }
    {
        agreement();
        let mut cluster = Cluster::new(alloc, configs, disks, verifier)?;
        let answers = cluster.apply_all(alloc, moves)?;
        Ok((cluster, answers))
    }

    // Applies these moves in turn, whatever they are answered, and returns the answers. On `AllocError` an allocation for these failed.
    fn apply_all(
        &mut self,
        alloc: Global,
        moves: Vec<Move>,
    ) -> Result<Vec<Result<Applied, ClusterError>>, AllocError>
        ensures verifier { self.new.verifier ≡ self.old.verifier }
        ensures applied { IfOk result (λ answers. (stages : List (Stage S D)) × AreAnswered stages moves.items answers.items × StagesLead S.scheme D.device (V.accepts self.old.verifier) self.old.members stages self.new.members) }
    {
        let mut answers = Vec::new(alloc);
        for step in moves {
            answers.reserve(1)?;
            answers.push_reserved(self.apply(step));
        }
        Ok(answers)
    }
}
