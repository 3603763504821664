//! Laws: what the bytes of a node's journal decode to is what they stand for in the model of all its runs. Each law is the contract of a
//! function that does nothing but name the laws that it follows from.

ghost use Rattle.opening.specs.Laws.{DecodedStandsFor, WhatStandsIsDecoded, WorldsAreDecoded, DecodedInStandsFor, WhatStandsIsDecodedIn, WorldsAreDecodedIn};

/// The state that the bytes of one disk decode to is one that they stand for, and it is kept of some legal history.
pub fn decoded_stands_for()
    ensures { DecodedStandsFor }
{
    spec_machine::starts_fresh();
    journal::groups_stand();
}

/// If each of the node's keys has 32 bytes, the bytes of one disk decode to each state that they stand for.
pub fn what_stands_is_decoded()
    ensures { WhatStandsIsDecoded }
{}

/// Whatever a stop leaves of one disk in a node's runs decodes to the state kept of a legal history that recovery may find then, and stands
/// for that state. So none of it is reported as damaged, or as another node's configuration.
pub fn worlds_are_decoded()
    ensures { WorldsAreDecoded }
{
    spec_world::never_takes_back();
}

/// The state that the areas of one disk or of two decode to is sound, and the areas stand for it.
pub fn decoded_in_stands_for()
    ensures { DecodedInStandsFor }
{
    spec_machine::starts_fresh();
    journal::groups_stand();
}

/// If each of the node's keys has 32 bytes, areas decode to each state that they stand for.
pub fn what_stands_is_decoded_in()
    ensures { WhatStandsIsDecodedIn }
{}

/// Whatever a stop leaves of one disk or of two in a node's runs decodes to the state kept of a legal history that recovery may find then,
/// and stands for that state. So none of it is reported as damaged, or as another node's configuration.
pub fn worlds_are_decoded_in()
    ensures { WorldsAreDecodedIn }
{
    spec_world::never_takes_back();
}
