//! The DAG of certificates that a validator holds.

ghost use Rattle.std.specs.Prelude.{◌≡◌, ◌≢◌, ◌&&◌, nat_lt, ◌+◌, ◌-◌, ◌<◌, ◌≤◌, ◌^◌, ℕ, true, false, max, min, not, nat_le, length, map, [], None, Ok, Err, Some, is_some, IfOk, OnOk, OnErr, option_copied, slice_get, if◌then◌else◌};
ghost use Rattle.committee.specs.Charter.{numbers};
ghost use Rattle.committee.specs.Sets.{has};
ghost use Rattle.committee.specs.declared.members.TheConstants.{MAX_MEMBERS};
ghost use Rattle.spec_model.specs.Holdings.{genesis, is_low, all_held};
ghost use Rattle.spec_model.specs.Slots.{certificate_digest, is_parent, slots_of};
ghost use Rattle.dag.specs.Rows.{first};
ghost use Rattle.dag.specs.Sets.{nobody};
ghost use Rattle.dag.specs.Kept.{has_below};
ghost use Rattle.spec_model.specs.Admitting.{same_header};
ghost use Rattle.spec_model.specs.Words.{Certificate};
ghost use Rattle.dag.specs.Answer.{held_answer, answer};
ghost use Rattle.dag.specs.Changes.{IsWith, IsMarked, IsDropped};
ghost use Rattle.dag.specs.Graph.{IsGraph, DagView, certificates_in, slots_in, marked_in, end_in, count_in, stake_in, digest_in, parent_in, has_parent_in, reaches_in, is_parent_of, references_at, references_of};
ghost use Rattle.dag.specs.declared.reads.TheConstants.{MAX_ROUND_REFERENCES};
ghost use Rattle.wire.specs.declared.limits.TheConstants.{MAX_PARENTS};
ghost use Rattle.wire.specs.declared.round.TheConstants.Round.{MAX};

use crate::answers::Added;
use crate::entry::Entry;
use crate::reads::Reads;
use crate::refusal::DagRefusal;
use crate::row::Row;
use crate::rows;
use committee::{Committee, MemberSet};
use std::alloc::{AllocError, Global};
use std::collections::VecDeque;
use std::marker::Model;
use wire::{
    Author, Certificate, Digest, HeaderBody, Round, certificate_digest, genesis_digest,
    header_digest,
};

/// The certificates that a validator holds, by round and author, each with its parents' authors. Which certificates one reaches in lower
/// rounds is found by walking down from it. Nothing below the floor is held. Contracts see the committee, the floor, the round of the last
/// committed leader, and what each slot holds: a certificate and whether it is marked.
pub struct Dag<'a> {
    alloc: Global,
    committee: &'a Committee,
    floor: Round,
    base: Round,
    // The rows of consecutive rounds. The first row is that of the floor.
    rows: VecDeque<Row>,
}

impl<'a> Drop for Dag<'a> {
    fn drop(self) {
        let Dag {
            alloc: _,
            committee: _,
            floor: _,
            base: _,
            rows: _,
        } = self;
    }
}

impl<'a> Model for Dag<'a> {
    ghost use Rattle.dag.specs.Graph.{DagView};
    ghost use Rattle.dag.specs.Kept.{graph_of, IsKept};

    ghost Value = { DagView };

    ghost view = { λ d. graph_of d.committee.now d.floor d.base d.rows.items };

    ghost invariant = { λ d. IsKept d.committee.now d.floor d.base d.rows.items };
}

// The round with this number.
fn round_of(number: u64) -> Round
    requires { number ≤ MAX }
    ensures { result ≡ number }
{
    match Round::new(number) {
        Ok(round) => round,
        Err(_) => unreachable!(),
    }
}

fn is_low(floor: Round, round: Round) -> bool
    ensures { result ≡ is_low floor round }
{
    round.number() == 0 || (0 < floor.number() && round <= floor)
}

// Whether a round is at or below a floor above 0.
fn is_under(floor: Round, round: u64) -> bool
    ensures { result ≡ (nat_lt 0 floor && nat_le round floor) }
{
    0 < floor.number() && round <= floor.number()
}

fn same_header(one: &HeaderBody, other: &HeaderBody) -> bool
    ensures { result ≡ same_header one.now other.now }
{
    (one.author == other.author && one.round == other.round)
        && (one.batches.as_slice() == other.batches.as_slice()
            && one.parents.as_slice() == other.parents.as_slice())
}

// The answer to a certificate with this digest whose slot holds this entry.
fn held_answer(
    held: &Entry,
    certificate: &Certificate,
    digest: &Digest,
) -> Result<Added, DagRefusal>
    requires held { held.now.digest ≡ certificate_digest held.now.certificate.header }
    requires digested { digest.now ≡ certificate_digest certificate.now.header }
    ensures { result ≡ held_answer held.now.certificate certificate.now }
{
    if held.digest != *digest {
        return Err(DagRefusal::CertConflict);
    }
    if same_header(&held.certificate.header, &certificate.header) {
        Ok(Added::Known)
    } else {
        Err(DagRefusal::DigestClash)
    }
}

// The set of members that has no member.
fn nobody() -> MemberSet
    ensures { result ≡ nobody }
{
    MemberSet::none()
}

// The DAG's entry for the genesis certificate of this author.
fn first_entry(alloc: Global, author: Author) -> Entry
    ensures { result ≡ first author.0 }
{
    Entry {
        certificate: Certificate::genesis(alloc, author),
        digest: genesis_digest(author),
        parents: nobody(),
        marked: false,
    }
}

// The row of round 0, with the genesis certificates.
fn first_row(alloc: Global, size: u16) -> Result<Row, AllocError>
    requires { size ≤ MAX_MEMBERS }
    ensures { IfOk result (λ row. row ≡ map (λ author. Some (first author)) (numbers size)) }
{
    let mut row = Row::empty(alloc, size as usize)?;
    for author in 0..size {
        row.set(author, first_entry(alloc, Author(author)));
    }
    Ok(row)
}

impl<'a> Dag<'a> {
    /// A DAG with the genesis certificates. On `AllocError` an allocation failed.
    pub fn new(alloc: Global, committee: &'a Committee) -> Result<Dag<'a>, AllocError>
        ensures charter { IfOk result (λ dag. dag.charter ≡ committee.now) }
        ensures floor { IfOk result (λ dag. dag.floor ≡ 0) }
        ensures base { IfOk result (λ dag. dag.base ≡ 1) }
        ensures slots { IfOk result (λ dag. (round author : ℕ) → slots_in dag round author ≡ slots_of (map genesis (numbers (length committee.now.keys))) round author) }
        ensures marked { IfOk result (λ dag. (round author : ℕ) → marked_in dag round author ≡ false) }
        ensures end { IfOk result (λ dag. end_in dag ≡ 1) }
    {
        committee.limits_hold();
        let size = committee.size();
        let mut rows = VecDeque::new(alloc);
        rows.push_back(first_row(alloc, size)?)?;
        Ok(Dag {
            alloc,
            committee,
            floor: Round::genesis(),
            base: round_of(1),
            rows,
        })
    }

    /// An empty DAG with this floor, which is above 0. Until a leader is noted, the round after the floor counts as that of the last
    /// committed leader.
    pub fn above(alloc: Global, committee: &'a Committee, floor: Round) -> Dag<'a>
        requires positive { 0 < floor }
        requires limit { floor < MAX }
        ensures { result ≡ record { charter = committee.now; floor = floor; base = floor + 1; rounds = [] } }
    {
        committee.limits_hold();
        Dag {
            alloc,
            committee,
            floor,
            base: round_of(floor.number() + 1),
            rows: VecDeque::new(alloc),
        }
    }

    /// Adds a certificate, if it is new. It computes the certificate's digest, and then does what `add_digested` does.
    pub fn add(&mut self, certificate: Certificate) -> Result<Added, DagRefusal>
        requires member { certificate.header.author.0 < length self.old.charter.keys }
        requires named { 0 < length certificate.header.parents }
        ensures answer { result ≢ Err DagRefusal.Memory → result ≡ answer self.old certificate }
        ensures memory { result ≡ Err DagRefusal.Memory → answer self.old certificate ≡ Ok Added.New }
        ensures new { result ≡ Ok Added.New → IsWith self.old self.new certificate }
        ensures known { result ≡ Ok Added.Known → self.new ≡ self.old }
        ensures err { OnErr result (self.new ≡ self.old) }
    {
        let header = &certificate.header;
        let digest = certificate_digest(&header_digest(header), header.round, header.author);
        self.add_digested(certificate, digest)
    }

    /// Adds a certificate with this digest, if it is new. Its author has to be a member, and it has to name at least one parent.
    ///
    /// # Errors
    /// The refusals of `answer`; or `Memory` where the answer would be New and an allocation failed. None changes anything.
    pub fn add_digested(
        &mut self,
        certificate: Certificate,
        digest: Digest,
    ) -> Result<Added, DagRefusal>
        requires member { certificate.header.author.0 < length self.old.charter.keys }
        requires named { 0 < length certificate.header.parents }
        requires digested { digest ≡ certificate_digest certificate.header }
        ensures answer { result ≢ Err DagRefusal.Memory → result ≡ answer self.old certificate }
        ensures memory { result ≡ Err DagRefusal.Memory → answer self.old certificate ≡ Ok Added.New }
        ensures new { result ≡ Ok Added.New → IsWith self.old self.new certificate }
        ensures known { result ≡ Ok Added.Known → self.new ≡ self.old }
        ensures err { OnErr result (self.new ≡ self.old) }
    {
        let answer = self.answer(&certificate, &digest)?;
        if answer == Added::New {
            self.hold(certificate, digest)?;
        }
        Ok(answer)
    }

    /// The answer to a certificate with this digest: New, or Known where it is held already.
    ///
    /// # Errors
    /// The first that applies: `TooOld` where the certificate's round is low, `CertConflict` where its slot holds a certificate with
    /// another digest, `DigestClash` where its slot holds one with the same digest and another header, `MissingParents` where a parent
    /// isn't held. The answer is never `Memory`.
    pub fn answer(&self, certificate: &Certificate, digest: &Digest) -> Result<Added, DagRefusal>
        requires { digest.now ≡ certificate_digest certificate.now.header }
        ensures { result ≡ answer self.now certificate.now }
    {
        let header = &certificate.header;
        if self.is_low(header.round) {
            return Err(DagRefusal::TooOld);
        }
        match rows::entry(&self.rows, self.floor, header.round.number(), header.author) {
            Some(held) => held_answer(held, certificate, digest),
            None => self.free_answer(header),
        }
    }

    // The answer to a certificate with this header, whose slot holds no certificate.
    fn free_answer(&self, header: &HeaderBody) -> Result<Added, DagRefusal>
        ensures { result ≡ (if not (all_held (slots_in self.now) self.now.floor header.now) then Err DagRefusal.MissingParents else Ok Added.New) }
    {
        if self.has_parents(header) {
            Ok(Added::New)
        } else {
            Err(DagRefusal::MissingParents)
        }
    }

    /// Whether a round is low, so that no certificate of it is added: round 0, or a round at or below a floor above 0.
    pub fn is_low(&self, round: Round) -> bool
        ensures { result ≡ is_low self.now.floor round }
    {
        is_low(self.floor, round)
    }

    /// Whether all parents of a header are held. Parents at or below a floor above 0 count as held.
    pub fn has_parents(&self, header: &HeaderBody) -> bool
        ensures { result ≡ all_held (slots_in self.now) self.now.floor header.now }
    {
        let below = header.round.number().saturating_sub(1);
        is_under(self.floor, below)
            || rows::are_there(&self.rows, self.floor, below, header.parents.as_slice())
    }

    /// Adds a new certificate with this digest. On `AllocError` an allocation failed, and nothing has changed.
    pub fn hold(&mut self, certificate: Certificate, digest: Digest) -> Result<(), AllocError>
        requires member { certificate.header.author.0 < length self.old.charter.keys }
        requires named { 0 < length certificate.header.parents }
        requires digested { digest ≡ certificate_digest certificate.header }
        requires new { answer self.old certificate ≡ Ok Added.New }
        ensures ok { OnOk result (IsWith self.old self.new certificate) }
        ensures err { OnErr result (self.new ≡ self.old) }
    {
        self.limits_hold();
        self.place(certificate, digest)
    }

    /// Adds a certificate with this digest to a DAG that is being restored. Certificates have to come sorted by round, so that none of a
    /// later round is held yet. Parents at or below a floor above 0 count as held. On `AllocError` an allocation failed, and nothing has
    /// changed.
    pub fn restore(&mut self, certificate: Certificate, digest: Digest) -> Result<(), AllocError>
        requires member { certificate.header.author.0 < length self.old.charter.keys }
        requires named { 0 < length certificate.header.parents }
        requires digested { digest ≡ certificate_digest certificate.header }
        requires positive { 0 < certificate.header.round }
        requires above { self.old.floor ≤ certificate.header.round }
        requires last { end_in self.old ≤ certificate.header.round + 1 }
        requires free { slots_in self.old certificate.header.round certificate.header.author.0 ≡ None }
        requires held { all_held (slots_in self.old) self.old.floor certificate.header ≡ true }
        ensures ok { OnOk result (IsWith self.old self.new certificate) }
        ensures err { OnErr result (self.new ≡ self.old) }
    {
        self.limits_hold();
        self.place(certificate, digest)
    }

    // Puts a certificate with this digest into a slot that holds none. All its parents are held: each is in the DAG, or lies at or below a
    // floor above 0, where it counts as held. No certificate of the DAG names it as a parent.
    fn place(&mut self, certificate: Certificate, digest: Digest) -> Result<(), AllocError>
        requires member { certificate.header.author.0 < length self.old.charter.keys }
        requires named { 0 < length certificate.header.parents }
        requires digested { digest ≡ certificate_digest certificate.header }
        requires positive { 0 < certificate.header.round }
        requires above { self.old.floor ≤ certificate.header.round }
        requires unnamed { (round author : ℕ) (held : Certificate) → slots_in self.old round author ≡ Some held → is_parent certificate held ≡ false }
        requires free { slots_in self.old certificate.header.round certificate.header.author.0 ≡ None }
        requires held { all_held (slots_in self.old) self.old.floor certificate.header ≡ true }
        ensures ok { OnOk result (IsWith self.old self.new certificate) }
        ensures err { OnErr result (self.new ≡ self.old) }
    {
        let parents = self.held_parents(&certificate);
        let (place, author) = self.slot_of(&certificate);
        let size = self.committee.size() as usize;
        rows::extend(self.alloc, &mut self.rows, size, place)?;
        let entry = Entry {
            certificate,
            digest,
            parents,
            marked: false,
        };
        rows::put(&mut self.rows, place, author, entry);
        Ok(())
    }

    // The place of a certificate's row, counted from the floor's row, and the certificate's author.
    fn slot_of(&self, certificate: &Certificate) -> (usize, Author)
        requires { self.now.floor ≤ certificate.now.header.round }
        ensures value { result ≡ (certificate.now.header.round - self.now.floor, certificate.now.header.author) }
        ensures limit { result.0 ≤ MAX }
        ensures round { certificate.now.header.round ≤ MAX }
    {
        let header = &certificate.header;
        let place = header.round.number() - self.floor.number();
        (place as usize, header.author)
    }

    // The authors of those parents of a certificate that are in the DAG. All parents are held: each is in the DAG, or lies at or below a
    // floor above 0, where it counts as held though it may be missing in the DAG.
    fn held_parents(&self, certificate: &Certificate) -> MemberSet
        requires positive { 0 < certificate.now.header.round }
        requires held { all_held (slots_in self.now) self.now.floor certificate.now.header ≡ true }
        ensures { (author : ℕ) → has result author ≡ has_below (slots_in self.now) certificate.now author }
    {
        let header = &certificate.header;
        let below = header.round.number() - 1;
        let parents = header.parents.as_slice();
        // Only at or below a floor above 0 may a parent be missing in the DAG, so only there each is looked up.
        if is_under(self.floor, below) {
            return rows::authors_of(&self.rows, self.floor, below, parents);
        }
        rows::authors(parents)
    }

    /// The certificate in a slot.
    pub fn get(&self, round: Round, author: Author) -> Option<&Certificate>
        ensures { option_copied result ≡ slots_in self.now round author.0 }
    {
        match rows::entry(&self.rows, self.floor, round.number(), author) {
            Some(held) => Some(&held.certificate),
            None => None,
        }
    }

    /// The certificate at this place in the order of rounds and then authors, counted from 0. None where there are fewer.
    pub fn nth(&self, place: usize) -> Option<&Certificate>
        ensures { option_copied result ≡ slice_get (certificates_in self.now) place }
    {
        match rows::nth(&self.rows, place) {
            Some(held) => Some(&held.certificate),
            None => None,
        }
    }

    /// The digest of the certificate in a slot.
    pub fn digest(&self, round: Round, author: Author) -> Option<&Digest>
        ensures { option_copied result ≡ digest_in self.now round author.0 }
    {
        match rows::entry(&self.rows, self.floor, round.number(), author) {
            Some(held) => Some(&held.digest),
            None => None,
        }
    }

    /// Whether a slot holds a marked certificate: one that a committed leader reaches.
    pub fn is_marked(&self, round: Round, author: Author) -> bool
        ensures { result ≡ marked_in self.now round author.0 }
    {
        match rows::entry(&self.rows, self.floor, round.number(), author) {
            Some(held) => held.marked,
            None => false,
        }
    }

    /// How many certificates of a round are held.
    pub fn count(&self, round: Round) -> usize
        ensures { result ≡ count_in self.now round }
    {
        match rows::row(&self.rows, self.floor, round.number()) {
            Some(row) => row.count(),
            None => 0,
        }
    }

    /// The round after the last row: no certificate of it or of a later round is held.
    pub fn end(&self) -> u64
        ensures { result ≡ end_in self.now }
    {
        self.floor.number() + self.rows.len() as u64
    }

    /// The floor: the lowest round whose certificates are kept.
    pub fn floor(&self) -> Round
        ensures { result ≡ self.now.floor }
    {
        self.floor
    }

    /// The round of the last committed leader, or 1 where no leader is committed.
    pub fn base(&self) -> Round
        ensures { result ≡ self.now.base }
    {
        self.base
    }

    /// The committee whose certificates the DAG holds.
    pub fn committee(&self) -> &'a Committee
        ensures { result.now ≡ self.now.charter }
    {
        self.committee
    }

    /// The authors who have certificates of a round.
    pub fn authors_at(&self, round: Round) -> MemberSet
        ensures { (author : ℕ) → has result author ≡ is_some (slots_in self.now round author) }
    {
        let mut authors = MemberSet::none();
        for author in 0..self.committee.size() {
            if self.get(round, Author(author)).is_some() {
                authors.insert(Author(author));
            }
        }
        authors
    }

    /// The weight of the authors who have certificates of a round.
    pub fn stake_at(&self, round: Round) -> u64
        ensures { result ≡ stake_in self.now round }
    {
        self.committee.weight(&self.authors_at(round))
    }

    /// The parent at this place in the certificate of a slot, counted from 0, as its author and digest. If there is one, it counts as one
    /// more reference that was read, up to the greatest count.
    pub fn parent(
        &self,
        round: Round,
        author: Author,
        place: usize,
        reads: &mut Reads,
    ) -> Option<(Author, Digest)>
        ensures value { result ≡ parent_in self.now round author.0 place }
        ensures reads { reads.new ≡ (if is_some result then min (reads.old + 1) (2 ^ 64 - 1) else reads.old) }
    {
        let certificate = self.get(round, author)?;
        let parent = certificate.header.parents.as_slice().get(place)?;
        reads.add_one();
        Some((parent.author, parent.certificate))
    }

    /// The authors of the parents of the certificate in a slot.
    pub fn parents(&self, round: Round, author: Author) -> MemberSet
        ensures { (member : ℕ) → has result member ≡ has_parent_in self.now round author.0 (round - 1) member }
    {
        rows::parents(&self.rows, self.floor, round.number(), author)
    }

    // How many references to parents the certificate in a slot has.
    fn references(&self, round: Round, author: Author) -> u64
        ensures value { result ≡ references_at self.now round author.0 }
        ensures few { result ≤ MAX_PARENTS }
    {
        match self.get(round, author) {
            Some(certificate) => certificate.header.parents.as_slice().len() as u64,
            None => 0,
        }
    }

    // The authors of the parents of the certificate in a slot. All references to parents that the certificate has count as read.
    fn read_parents(&self, round: Round, author: Author, reads: &mut Reads) -> MemberSet
        requires { reads.old + MAX_PARENTS < 2 ^ 64 }
        ensures parents { (member : ℕ) → has result member ≡ has_parent_in self.now round author.0 (round - 1) member }
        ensures reads { reads.new ≡ reads.old + references_at self.now round author.0 }
        ensures few { reads.new ≤ reads.old + MAX_PARENTS }
    {
        reads.add(self.references(round, author));
        self.parents(round, author)
    }

    /// The authors of the parents of the certificates that these authors have in a round. All references to parents that these certificates
    /// have count as read. A walk down the DAG makes one such step for each round.
    pub fn parents_of(&self, round: Round, authors: &MemberSet, reads: &mut Reads) -> MemberSet
        requires { reads.old + MAX_ROUND_REFERENCES < 2 ^ 64 }
        ensures parents { (other : ℕ) → has result other ≡ is_parent_of self.now round (round - 1) (has authors.now) other }
        ensures reads { reads.new ≡ reads.old + references_of self.now round (has authors.now) }
        ensures few { reads.new ≤ reads.old + MAX_ROUND_REFERENCES }
    {
        let mut parents = MemberSet::none();
        for author in 0..self.committee.size() {
            if authors.contains(Author(author)) {
                parents.unite(&self.read_parents(round, Author(author), reads));
            }
        }
        parents
    }

    // The author alone, where the slot holds a certificate; otherwise no member.
    fn itself(&self, round: Round, author: Author) -> MemberSet
        ensures { (member : ℕ) → has result member ≡ reaches_in self.now round author.0 round member }
    {
        self.limits_hold();
        let mut authors = MemberSet::none();
        if self.get(round, author).is_some() {
            authors.insert(author);
        }
        authors
    }

    /// The authors whose certificates of the round `below` are reached from the certificate in a slot. The call walks down to that round.
    pub fn reached(&self, round: Round, author: Author, below: Round) -> MemberSet
        requires { below ≤ round }
        ensures { (member : ℕ) → has result member ≡ reaches_in self.now round author.0 below member }
    {
        self.limits_hold();
        let top = round.number();
        let mut authors = self.itself(round, author);
        for past in 0..top - below.number() {
            let mut reads = Reads::new();
            authors = self.parents_of(round_of(top - past), &authors, &mut reads);
        }
        authors
    }

    // Whether the certificate in a slot has this author's certificate of the round below as a parent.
    fn has_parent(&self, round: u64, author: Author, parent: Author) -> bool
        ensures { result ≡ has_parent_in self.now round author.0 (round - 1) parent.0 }
    {
        rows::parents(&self.rows, self.floor, round, author).contains(parent)
    }

    /// The supporters of the certificate in a slot: the authors whose certificates of the next round have it as a parent.
    pub fn supporters(&self, round: Round, author: Author) -> MemberSet
        ensures { (member : ℕ) → has result member ≡ has_parent_in self.now (round + 1) member round author.0 }
    {
        let mut supporters = MemberSet::none();
        for member in 0..self.committee.size() {
            if self.has_parent(round.number() + 1, Author(member), author) {
                supporters.insert(Author(member));
            }
        }
        supporters
    }

    /// The authors whose certificates of a round aren't marked: no committed leader reaches them.
    pub fn unmarked_at(&self, round: Round) -> MemberSet
        ensures { (author : ℕ) → has result author ≡ (is_some (slots_in self.now round author) && not (marked_in self.now round author)) }
    {
        rows::unmarked(&self.rows, self.floor, round.number())
    }

    /// Marks the certificates that these authors have in a round, as those that a committed leader reaches. The call allocates no memory.
    pub fn mark(&mut self, round: Round, authors: &MemberSet)
        ensures { IsMarked self.old self.new round (has authors.now) }
    {
        let floor = self.floor.number();
        let number = round.number();
        if number < floor {
            return;
        }
        rows::mark(&mut self.rows, (number - floor) as usize, authors);
    }

    /// Drops all certificates below this round and moves the floor up to it, if the round is below that of the last committed leader;
    /// otherwise it changes nothing. The call allocates no memory.
    pub fn drop_below(&mut self, round: Round)
        ensures below { round < self.old.base → IsDropped self.old self.new round }
        ensures other { self.old.base ≤ round → self.new ≡ self.old }
    {
        let base = self.base.number();
        let floor = self.floor.number();
        let number = round.number();
        if base <= number {
            return;
        }
        if number <= floor {
            return;
        }
        rows::drop_front(&mut self.rows, (number - floor) as usize);
        self.floor = round;
    }

    /// Notes a round as that of the last committed leader, unless a higher one was noted already.
    pub fn commit_to(&mut self, round: Round)
        ensures { self.new ≡ record self.old { base = max self.old.base round } }
    {
        if self.base.number() < round.number() {
            self.base = round;
        }
    }

    /// What holds of every DAG: its committee is sound; the floor is below the round of the last committed leader; nothing below the floor
    /// is held; each certificate is in its slot, is of a member, and has its parents held. The call does nothing.
    pub fn limits_hold(&self)
        ensures { IsGraph self.now }
    {
        let _ = &self.rows;
    }
}
