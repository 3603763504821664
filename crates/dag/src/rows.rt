//! The rows of a DAG, one for each round from its floor on.

ghost use Rattle.std.specs.Prelude.{◌≡◌, ℕ, if◌then◌else◌, ◌-◌, ◌<◌, ◌≤◌, ◌++◌, ◌==◌, ◌&&◌, ◌||◌, ◌^◌, suc, nat_le, nat_lt, not, length, drop, [], None, Some, IfOk, OnOk, OnErr, All, option_copied, slice_get, slice_set, get_or, replicate, true, false};
ghost use Rattle.std.specs.List.{list_any, list_all, flat_map};
ghost use Rattle.std.specs.Option.{option_map_or};
ghost use Rattle.committee.specs.Sets.{has};
ghost use Rattle.committee.specs.declared.members.TheConstants.{MAX_MEMBERS};
ghost use Rattle.dag.specs.Graph.{row_at, held_in};
ghost use Rattle.dag.specs.Rows.{marked_rows, names};

use crate::entry::Entry;
use crate::row::Row;
use committee::MemberSet;
use std::alloc::{AllocError, Global};
use std::collections::VecDeque;
use wire::{Author, ParentReference, Round};

/// The row of this round, if there is one.
pub(crate) fn row(rows: &VecDeque<Row>, floor: Round, round: u64) -> Option<&Row>
    ensures { option_copied result ≡ (if nat_le floor round then slice_get rows.now.items (round - floor) else None) }
{
    if round < floor.number() {
        return None;
    }
    rows.get((round - floor.number()) as usize)
}

/// The entry of the certificate in a slot, if it holds one.
pub(crate) fn entry(
    rows: &VecDeque<Row>,
    floor: Round,
    round: u64,
    author: Author,
) -> Option<&Entry>
    ensures { option_copied result ≡ row_at floor rows.now.items round author.0 }
{
    match row(rows, floor, round) {
        Some(row) => row.get(author.0),
        None => None,
    }
}

/// The entry at this place in the order of the rows and then of the authors, counted from 0.
pub(crate) fn nth(rows: &VecDeque<Row>, place: usize) -> Option<&Entry>
    ensures { option_copied result ≡ slice_get (flat_map held_in rows.now.items) place }
{
    let mut before = place;
    for i in 0..rows.len() {
        let row = &rows[i];
        let count = row.count();
        if before < count {
            return row.nth(before);
        }
        before -= count;
    }
    None
}

/// The authors whose certificates of this round aren't marked.
pub(crate) fn unmarked(rows: &VecDeque<Row>, floor: Round, round: u64) -> MemberSet
    ensures { (author : ℕ) → has result author ≡ option_map_or (λ entry. not entry.marked) (row_at floor rows.now.items round author) false }
{
    match row(rows, floor, round) {
        Some(row) => row.unmarked(),
        None => MemberSet::none(),
    }
}

// A list of this many rows, whose slots hold nothing. On `AllocError` an allocation failed.
fn empty_rows(alloc: Global, size: usize, count: usize) -> Result<VecDeque<Row>, AllocError>
    ensures { IfOk result (λ rows. rows.items ≡ replicate count (replicate size None)) }
{
    let mut rows = VecDeque::with_capacity(alloc, count)?;
    for _ in 0..count {
        rows.push_back(Row::empty(alloc, size)?)?;
    }
    Ok(rows)
}

/// Adds rows whose slots hold nothing, until there is a row at this place. On `AllocError` an allocation failed.
pub(crate) fn extend(
    alloc: Global,
    rows: &mut VecDeque<Row>,
    size: usize,
    place: usize,
) -> Result<(), AllocError>
    requires { place < 2 ^ 63 }
    ensures ok { OnOk result (rows.new.items ≡ rows.old.items ++ replicate (suc place - length rows.old.items) (replicate size None)) }
    ensures err { OnErr result (rows.new.items ≡ rows.old.items) }
{
    let held = rows.len();
    if place < held {
        return Ok(());
    }
    let mut more = empty_rows(alloc, size, place + 1 - held)?;
    rows.append(&mut more)?;
    Ok(())
}

/// Puts an entry into the slot of this author in the row at this place. The entry isn't marked.
pub(crate) fn put(rows: &mut VecDeque<Row>, place: usize, author: Author, entry: Entry)
    requires row { place < length rows.old.items }
    requires slot { author.0 < length (get_or rows.old.items place []) }
    requires member { author.0 < MAX_MEMBERS }
    requires without_mark { entry.marked ≡ false }
    ensures { rows.new.items ≡ slice_set rows.old.items place (slice_set (get_or rows.old.items place []) author.0 (Some entry)) }
{
    rows[place].set(author.0, entry);
}

/// Marks the certificates that these authors have in the row at this place, if there is such a row.
pub(crate) fn mark(rows: &mut VecDeque<Row>, place: usize, authors: &MemberSet)
    requires { All (λ row. length row ≤ 32) rows.old.items }
    ensures { rows.new.items ≡ marked_rows rows.old.items place (has authors.now) }
{
    if place < rows.len() {
        rows[place].mark(authors);
    }
}

// Whether a parent reference names the certificate of this entry, by its digest.
fn is_named(held: Option<&Entry>, parent: &ParentReference) -> bool
    ensures { result ≡ names (option_copied held.entry) parent.now }
{
    match held {
        Some(held) => held.digest == parent.certificate,
        None => false,
    }
}

// Adds the author of a parent to a set, if this entry holds the parent.
fn add_kept(held: Option<&Entry>, parent: &ParentReference, authors: &mut MemberSet)
    requires { names (option_copied held) parent.now ≡ true → parent.now.author.0 < MAX_MEMBERS }
    ensures { (author : ℕ) → has authors.new author ≡ (has authors.old author || (names (option_copied held.entry) parent.now && (author == parent.now.author.0))) }
{
    if is_named(held, parent) {
        authors.insert(parent.author);
    }
}

/// The authors of those parents of a header that the row of the round below holds.
pub(crate) fn authors_of(
    rows: &VecDeque<Row>,
    floor: Round,
    below: u64,
    parents: &[ParentReference],
) -> MemberSet
    requires { All (λ row. length row ≤ MAX_MEMBERS) rows.now.items }
    ensures { (author : ℕ) → has result author ≡ list_any (λ parent. names (row_at floor rows.now.items below parent.author.0) parent && (author == parent.author.0)) parents.now }
{
    let mut authors = MemberSet::none();
    for parent in parents {
        add_kept(
            entry(rows, floor, below, parent.author),
            parent,
            &mut authors,
        );
    }
    authors
}

/// The authors whom these parent references name.
pub(crate) fn authors(parents: &[ParentReference]) -> MemberSet
    requires { All (λ parent. parent.author.0 < MAX_MEMBERS) parents.now }
    ensures { (author : ℕ) → has result author ≡ list_any (λ parent. author == parent.author.0) parents.now }
{
    let mut authors = MemberSet::none();
    for parent in parents {
        authors.insert(parent.author);
    }
    authors
}

/// Whether the row of the round below holds all these parents.
pub(crate) fn are_there(
    rows: &VecDeque<Row>,
    floor: Round,
    below: u64,
    parents: &[ParentReference],
) -> bool
    ensures { result ≡ list_all (λ parent. names (row_at floor rows.now.items below parent.author.0) parent) parents.now }
{
    parents.iter().all(|parent| is_named(entry(rows, floor, below, parent.author), parent))
}

/// The authors of the parents of the certificate in a slot. There are none at the floor, since nothing below it is held.
pub(crate) fn parents(rows: &VecDeque<Row>, floor: Round, round: u64, author: Author) -> MemberSet
    ensures { (parent : ℕ) → has result parent ≡ (nat_lt floor round && option_map_or (λ entry. has entry.parents parent) (row_at floor rows.now.items round author.0) false) }
{
    if round <= floor.number() {
        return MemberSet::none();
    }
    match entry(rows, floor, round, author) {
        Some(held) => held.parents,
        None => MemberSet::none(),
    }
}

/// Removes this many rows, those of the lowest rounds.
pub(crate) fn drop_front(rows: &mut VecDeque<Row>, count: usize)
    ensures { rows.new.items ≡ drop count rows.old.items }
{
    for _ in 0..count.min(rows.len()) {
        let _ = rows.pop_front();
    }
}
