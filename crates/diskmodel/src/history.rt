//! The record of a disk in memory (the calls that it has had), and the state that these lead to.
ghost use Rattle.std.specs.Prelude.{◌≡◌, ◌⊎◌, ℕ, ◌+◌, ◌-◌, ◌<◌, ◌≤◌, ◌↔◌, min, max, Bool, true, false, IsTrue, IfOk, OnOk, OnErr};
ghost use Rattle.std.specs.Prelude.{List, [], ◌∷◌, ◌++◌, length, take, slice_index, vec_len, vec_capacity};
ghost use Rattle.diskmodel.specs.Disk.{written};
ghost use Rattle.diskmodel.specs.Outcomes.{holds, is_written, state, IsOutcome};
ghost use Rattle.diskmodel.specs.Kept.{Keeps, ends_in_stop};
ghost use Rattle.diskmodel.specs.Refusals.{IsRefused, room_for};

use crate::call::{Call, KeptBytes, Span};
use crate::refusals::Refusals;
use std::alloc::{AllocError, Global};

/// For how many entries a call makes room in the record: one for itself, and one for a stop after it, which may not allocate.
pub const CALL_AND_STOP: usize = 2;

/// The smallest and the greatest length of a disk since its last sync, in bytes.
#[derive(Clone, Copy, PartialEq, Eq)]
pub struct Lengths {
    pub smallest: usize,
    pub greatest: usize,
}

impl Lengths {
    /// The lengths of a disk that has had this length only.
    pub fn only(len: usize) -> Lengths
        ensures { result ≡ record { smallest = len; greatest = len } }
    {
        Lengths {
            smallest: len,
            greatest: len,
        }
    }

    /// Takes one more length into account.
    pub fn note(&mut self, len: usize)
        ensures smallest { self.new.smallest ≡ min self.old.smallest len }
        ensures greatest { self.new.greatest ≡ max self.old.greatest len }
    {
        self.smallest = self.smallest.min(len);
        self.greatest = self.greatest.max(len);
    }

    /// Whether a length is at least the smallest and at most the greatest of the lengths that are noted here.
    pub fn include(&self, len: usize) -> bool
        ensures { IsTrue result ↔ ((self.now.smallest ≤ len) × (len ≤ self.now.greatest)) }
    {
        self.smallest <= len && len <= self.greatest
    }
}

/// The bytes with which a disk began, its calls since then, and the state that these lead to.
pub struct History {
    alloc: Global,
    pub first: Vec<u8>,
    pub calls: Vec<Call>,
    pub durable: Vec<u8>,
    pub lengths: Lengths,
    pub spans: Vec<Span>,
    pub content: Vec<u8>,
    ghost kept: { Keeps first.items calls.items durable.items lengths.smallest lengths.greatest spans.items content.items },
    // Unless the last call is a stop, the list has memory for one more call.
    ghost room: { ends_in_stop calls.items ≡ false → vec_len calls < vec_capacity calls },
    // The list has memory for the greatest length since the last sync.
    ghost fits: { lengths.greatest ≤ vec_capacity content },
}

impl Drop for History {
    fn drop(self) {
        let History {
            alloc: _,
            first: _,
            calls: _,
            durable: _,
            lengths: _,
            spans: _,
            content: _,
        } = self;
    }
}

/// A copy of these bytes.
fn copy(alloc: Global, bytes: &[u8], refusals: &mut Refusals) -> Result<Vec<u8>, AllocError>
    ensures items { IfOk result (λ copy. copy.items ≡ bytes.now) }
    ensures no_refusal { OnOk result (refusals.new ≡ refusals.old) }
    ensures refused { OnErr result (IsRefused (length bytes.now) refusals.old refusals.new) }
{
    let mut copy = Vec::new(alloc);
    refusals.grow(&mut copy, bytes.len())?;
    let _ = copy.extend_from_slice(bytes);
    Ok(copy)
}

/// Writes bytes into a list, at a place within it or at its end. If an allocation fails, the list is as before.
fn overlay(
    list: &mut Vec<u8>,
    at: usize,
    bytes: &[u8],
    refusals: &mut Refusals,
) -> Result<(), AllocError>
    requires { at ≤ vec_len list.old }
    ensures ok { OnOk result (list.new.items ≡ written list.old.items at bytes.now) }
    ensures err { OnErr result (list.new.items ≡ list.old.items) }
    ensures capacity { vec_capacity list.old ≤ vec_capacity list.new }
    ensures refused { OnErr result (IsRefused (length bytes.now) refusals.old refusals.new) }
{
    let within = bytes.len().min(list.len() - at);
    let after = &bytes[within..];
    refusals.grow(list, after.len())?;
    let _ = list.extend_from_slice(after);
    list[at..at + within].copy_from_slice(&bytes[..within]);
    Ok(())
}

/// Copies the bytes at the places of a span from one slice to the same places of another, as far as that is long enough.
fn copy_span(into: &mut [u8], from: &[u8], span: &Span)
    requires { length into.old ≤ length from.now }
    ensures len { length into.new ≡ length into.old }
    ensures inside { (place : ℕ) → place < length into.old → holds span.now place ≡ true → slice_index into.new place ≡ slice_index from.now place }
    ensures outside { (place : ℕ) → holds span.now place ≡ false → slice_index into.new place ≡ slice_index into.old place }
{
    let start = into.len().min(span.place as usize);
    let count = (into.len() - start).min(span.count as usize);
    into[start..start + count].copy_from_slice(&from[start..start + count]);
}

/// Copies the bytes at the places of these spans from one slice to the same places of another, as far as that is long enough. At all other
/// places the two slices are the same already.
fn copy_spans(into: &mut [u8], from: &[u8], spans: &[Span])
    requires shorter { length into.old ≤ length from.now }
    requires unwritten { (place : ℕ) → place < length into.old → is_written spans.now place ≡ false → slice_index from.now place ≡ slice_index into.old place }
    ensures { into.new ≡ take (length into.old) from.now }
{
    for span in spans {
        copy_span(into, from, span);
    }
}

/// Brings an older copy of a disk's content up to date. The copy differs from the content at most at places that were written since it was
/// made, and past the smallest length since then; nothing else is copied.
fn catch_up(copy: &mut Vec<u8>, content: &[u8], smallest: usize, spans: &[Span])
    requires in_copy { smallest ≤ vec_len copy.old }
    requires in_content { smallest ≤ length content.now }
    requires room { length content.now ≤ vec_capacity copy.old }
    requires unwritten { (place : ℕ) → place < smallest → is_written spans.now place ≡ false → slice_index content.now place ≡ slice_index copy.old.items place }
    ensures { copy.new.items ≡ content.now }
{
    copy.truncate(smallest);
    copy_spans(copy, content, spans);
    let _ = copy.extend_from_slice(&content[smallest..]);
}

/// Removes the last call if it is a stop, so that there is room in the list for another stop.
fn forget_last_stop(calls: &mut Vec<Call>)
    requires { ends_in_stop calls.old.items ≡ false → vec_len calls.old < vec_capacity calls.old }
    ensures room { vec_len calls.new < vec_capacity calls.new }
    ensures rest { (calls.new.items ≡ calls.old.items) ⊎ ((found : List ℕ) × (calls.old.items ≡ calls.new.items ++ Call.Stopped found ∷ [])) }
{
    if let Some(Call::Stopped(_)) = calls.last() {
        let _ = calls.pop();
    }
}

impl History {
    ghost use Rattle.diskmodel.specs.Recorded.{Adds, IsAsBefore, TakesStop};

    /// The record of a disk that begins with these bytes, all of them durable.
    pub fn new(alloc: Global, bytes: Vec<u8>) -> Result<History, AllocError>
        ensures first { IfOk result (λ history. history.first.items ≡ bytes.items) }
        ensures calls { IfOk result (λ history. history.calls.items ≡ []) }
        ensures content { IfOk result (λ history. history.content.items ≡ bytes.items) }
    {
        let lengths = Lengths::only(bytes.len());
        Ok(History {
            alloc,
            first: bytes.to_vec(alloc)?,
            calls: Vec::with_capacity(alloc, 1)?,
            durable: bytes.to_vec(alloc)?,
            lengths,
            spans: Vec::new(alloc),
            content: bytes,
        })
    }

    /// Whether the byte at this place was written since the last sync.
    pub fn is_written(&self, place: u64) -> bool
        ensures { result ≡ is_written self.now.spans.items place }
    {
        self.spans.iter().any(|span| span.holds(place))
    }

    /// Whether a stop at this moment may leave these bytes.
    pub fn can_leave(&self, found: &[u8]) -> bool
        ensures { IsTrue result ↔ IsOutcome self.now.first.items self.now.calls.items found.now }
    {
        self.lengths.include(found.len()) && self.keeps_durable(found)
    }

    /// Whether these bytes are the durable ones at each place where a stop can't change the byte.
    fn keeps_durable(&self, found: &[u8]) -> bool
        requires { self.now.lengths.smallest ≤ length found.now }
        ensures { IsTrue result ↔ ((place : ℕ) → place < self.now.lengths.smallest → is_written self.now.spans.items place ≡ false
            → slice_index found.now place ≡ slice_index self.now.durable.items place) }
    {
        for place in 0..self.lengths.smallest {
            if !self.is_written(place as u64) && found[place] != self.durable[place] {
                return false;
            }
        }
        true
    }

    /// Writes bytes within the content or at its end. If an allocation fails, nothing has changed.
    pub fn write(
        &mut self,
        at: usize,
        bytes: &[u8],
        refusals: &mut Refusals,
    ) -> Result<(), AllocError>
        requires { at ≤ length self.old.content.items }
        ensures added { OnOk result (Adds (Call.Wrote at bytes.now) self.old self.new) }
        ensures content { OnOk result (self.new.content.items ≡ written self.old.content.items at bytes.now) }
        ensures err { OnErr result (IsAsBefore self.old self.new) }
        ensures refused { OnErr result (IsRefused (room_for (length bytes.now)) refusals.old refusals.new) }
    {
        let copy = KeptBytes::from_vec(copy(self.alloc, bytes, refusals)?);
        refusals.grow(&mut self.calls, CALL_AND_STOP)?;
        refusals.grow(&mut self.spans, 1)?;
        overlay(&mut self.content, at, bytes, refusals)?;
        self.lengths.note(self.content.len());
        let place = at as u64;
        let count = bytes.len() as u64;
        self.spans.push_reserved(Span { place, count });
        self.calls.push_reserved(Call::Wrote { place, bytes: copy });
        Ok(())
    }

    /// Cuts the content to this length. If an allocation fails, nothing has changed.
    pub fn cut(&mut self, len: usize, refusals: &mut Refusals) -> Result<(), AllocError>
        requires { len ≤ length self.old.content.items }
        ensures added { OnOk result (Adds (Call.Cut len) self.old self.new) }
        ensures content { OnOk result (self.new.content.items ≡ take len self.old.content.items) }
        ensures err { OnErr result (IsAsBefore self.old self.new) }
        ensures refused { OnErr result (IsRefused (room_for 0) refusals.old refusals.new) }
    {
        refusals.grow(&mut self.calls, CALL_AND_STOP)?;
        self.content.truncate(len);
        self.lengths.note(self.content.len());
        self.calls.push_reserved(Call::Cut(len as u64));
        Ok(())
    }

    /// Syncs the disk: makes its content durable. If an allocation fails, nothing has changed.
    pub fn sync(&mut self, refusals: &mut Refusals) -> Result<(), AllocError>
        ensures added { OnOk result (Adds Call.Synced self.old self.new) }
        ensures content { self.new.content.items ≡ self.old.content.items }
        ensures err { OnErr result (IsAsBefore self.old self.new) }
        ensures refused { OnErr result (IsRefused (room_for (length self.old.content.items)) refusals.old refusals.new) }
    {
        let more = self.content.len().saturating_sub(self.durable.len());
        refusals.grow(&mut self.durable, more)?;
        refusals.grow(&mut self.calls, CALL_AND_STOP)?;
        let smallest = self.lengths.smallest;
        catch_up(&mut self.durable, &self.content, smallest, &self.spans);
        self.lengths = Lengths::only(self.content.len());
        self.spans.clear();
        self.calls.push_reserved(Call::Synced);
        Ok(())
    }

    /// Stops the machine, which leaves these bytes. The call allocates no memory: the content has been as long before, and a stop right
    /// after a stop takes its place in the record.
    pub fn stop(&mut self, found: KeptBytes)
        requires { IsOutcome self.old.first.items self.old.calls.items found }
        ensures taken { TakesStop found self.old self.new }
        ensures content { self.new.content.items ≡ found }
    {
        self.content.clear();
        let _ = self.content.extend_from_slice(found.as_slice());
        forget_last_stop(&mut self.calls);
        self.calls.push_reserved(Call::Stopped(found));
    }
}
