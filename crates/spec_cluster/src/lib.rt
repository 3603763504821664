//! A cluster: the members of one committee, each honest one a node over all its runs, and what these members agree on. Each law is the
//! contract of an empty function.
#![tactic(auto)]

ghost use Rattle.spec_world.specs.Promise.{NothingTakenBack};
ghost use Rattle.spec_cluster.specs.Agreement.{Agreement, RunsAgree, EverAgree};
ghost use Rattle.spec_cluster.specs.Premises.{EqualsNeedOthers};
ghost use Rattle.spec_cluster.specs.Cluster.{ClustersBegin};

/// Each honest member by itself takes nothing back, whatever the others are.
/// Also take a cluster in which the faulty members weigh no more than is tolerated, no two different texts of headers and certificates that
/// honest members settled share a digest, no vote is forged in an honest member's name, and each wave's coin has one value. Then, whichever
/// messages reach whom and whoever stops when: certificates of one author and round that honest members held at settled histories have the
/// same header; and of any two orders that honest members gave out, before or after any stops, one is a prefix of the other. The same holds
/// for members that run side by side, as in threads, if what is assumed of votes holds at the end. If further each honest member needs
/// others for a quorum, as with equal stakes, and no header is forged in an honest member's name, then certificates of one author and round
/// that honest members ever held, settled or not, have the same header.
pub fn agreement()
    ensures alone { NothingTakenBack }
    ensures together { Agreement }
    ensures side_by_side { RunsAgree }
    ensures ever { EverAgree }
    ensures equals { EqualsNeedOthers }
{}

/// If each key has 32 bytes, the honest members of a cluster can begin, each on what an opening makes of an empty disk.
pub fn clusters_begin()
    ensures { ClustersBegin }
{}
