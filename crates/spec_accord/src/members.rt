//! Laws: the honest members of a committee agree on what they have settled.

ghost use Rattle.spec_accord.specs.Members.{HeadersAgree, HeadersAgreeEver, MembersAgree};

/// The certificates of one author and round that honest members have settled have the same header. This assumes: the members who aren't
/// honest weigh no more than is tolerated; no vote is forged in an honest member's name; no two different texts of headers and certificates
/// share a digest; what each honest member has settled is legal and passed the checks; and in what it gave out it signed only headers and
/// votes that it has settled.
pub fn headers_agree()
    ensures { HeadersAgree }
{}

/// The certificates of one author and round that honest members ever held, settled or not, have the same header. This assumes further that
/// each honest member and the members who aren't honest weigh together less than a quorum, and that no header is forged in an honest
/// member's name.
pub fn headers_agree_ever()
    ensures { HeadersAgreeEver }
{}

/// Of the orders that what two honest members have settled leads to, one is a prefix of the other. This assumes further that the coin of
/// each wave has one value at all honest members.
pub fn members_agree()
    ensures { MembersAgree }
{}
