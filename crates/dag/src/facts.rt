//! Laws on how a DAG agrees with admission, and on what stays the same when a DAG changes. Each function does nothing: its contract is the
//! law.

ghost use Rattle.dag.specs.Laws.{AnswersAsAdmission, ReachStays, ReachStaysAbove};

/// A node's state that has the floor and the certificates of a DAG answers a certificate as the DAG does.
pub fn answers_as_admission()
    ensures { AnswersAsAdmission }
{}

/// When a certificate is added, the earlier certificates reach what they reached before.
pub fn reach_stays()
    ensures { ReachStays }
{}

/// When everything below a round is dropped, the remaining certificates reach each other as before.
pub fn reach_stays_above()
    ensures { ReachStaysAbove }
{}
