//! Laws of what leaders order. Each is the contract of an empty function.

ghost use Rattle.flatten.specs.Laws.{MadeStays, EachFollows};

/// What was prepared for leaders in a DAG is still right after a certificate of a round above the last of them was added.
pub fn made_stays()
    ensures { MadeStays }
{}

/// In a chain of leaders each of which reaches the one before, `segment` computes for each what the definition says that it orders, if
/// exactly what the leader before the first one reaches is marked.
pub fn each_follows()
    ensures { EachFollows }
{}
