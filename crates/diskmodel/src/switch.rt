//! A switch by which a thread makes calls of disks fail while another thread has the disks.
ghost use Rattle.std.specs.Prelude.{◌≡◌, IfOk, IsOk, vec_len};

use crate::call::CallKind;
use std::alloc::{AllocError, Global};
use std::marker::Model;
use std::sync::Arc;
use std::sync::atomic::{AtomicU64, Ordering};
use thiserror::Error;

/// How many calls of one kind a switch can have set to fail at the same time.
pub const MAX_SWITCHED: usize = 16;

/// The error of a switch that has set as many calls of one kind to fail as it can. It can set more once one of them was made.
#[derive(Clone, Copy, Debug, PartialEq, Eq, Error)]
#[error("no more calls of this kind can be told to fail")]
pub struct TooManyTold;

/// A call that a switch has set to fail, and that can be revoked until it is made.
#[derive(Clone, Copy, Debug, PartialEq, Eq)]
pub struct Told {
    call: CallKind,
    place: usize,
}

/// A row of atomic words for each kind of call. A word is free if it is 0; otherwise it says which of the next calls fails. They are atomic
/// because a disk may not wait for a lock. No contract knows what they hold.
#[derive(Drop)]
pub struct SwitchView {
    read: Vec<AtomicU64>,
    write: Vec<AtomicU64>,
    cut: Vec<AtomicU64>,
    sync: Vec<AtomicU64>,
}

/// A row of free words, for the calls of one kind.
fn row(alloc: Global) -> Result<Vec<AtomicU64>, AllocError>
    ensures { IfOk result (λ row. vec_len row ≡ MAX_SWITCHED) }
{
    let mut row = Vec::with_capacity(alloc, MAX_SWITCHED)?;
    for _ in 0..MAX_SWITCHED {
        row.push(AtomicU64::new(0))?;
    }
    Ok(row)
}

/// Counts a call at one word, and returns whether it is the call that has to fail.
fn count_down(word: &AtomicU64) -> bool {
    let was = word.fetch_update(Ordering::SeqCst, Ordering::SeqCst, |count| {
        count.checked_sub(1)
    });
    was == Ok(1)
}

impl SwitchView {
    /// The words of a switch that has set no call to fail.
    fn none(alloc: Global) -> Result<SwitchView, AllocError> {
        Ok(SwitchView {
            read: row(alloc)?,
            write: row(alloc)?,
            cut: row(alloc)?,
            sync: row(alloc)?,
        })
    }

    /// The words for this kind of call.
    fn of(&self, call: CallKind) -> &[AtomicU64] {
        match call {
            CallKind::Read => &self.read,
            CallKind::Write => &self.write,
            CallKind::Cut => &self.cut,
            CallKind::Sync => &self.sync,
        }
    }
}

/// A switch makes calls fail, of all disks that are made with it. The switch and its clones may be sent to other threads.
pub struct Switch {
    words: Arc<SwitchView, Global>,
}

impl Drop for Switch {
    fn drop(self) {
        let Switch { words: _ } = self;
    }
}

// What contracts see of a switch: the identity of the memory that it shares with its clones.
impl Model for Switch {
    ghost use Rattle.diskmodel.specs.declared.switch.SwitchView.{SwitchView};
    ghost use Rattle.std.specs.Arc.{arc_value};

    ghost Value = { SwitchView };

    ghost view = { λ switch. arc_value switch.words };
}

impl Switch {
    /// A switch that has set no call to fail.
    ///
    /// # Errors
    /// An allocation failed.
    pub fn new(alloc: Global) -> Result<Switch, AllocError> {
        let words = Arc::new(alloc, SwitchView::none(alloc)?)?;
        Ok(Switch { words })
    }

    /// Another handle to the same switch.
    ///
    /// # Errors
    /// There are as many handles to the switch as can be counted.
    pub fn try_clone(&self) -> Result<Switch, AllocError>
        ensures { IfOk result (λ twin. twin ≡ self.now) }
    {
        let words = Arc::try_clone(&self.words)?;
        Ok(Switch { words })
    }

    /// Lets a call fail: the one that comes as the `count`-th of its kind from now on, counted over all disks that are made with this
    /// switch. It fails once, and without any effect. With 0 none fails.
    ///
    /// # Errors
    /// `MAX_SWITCHED` calls of this kind are set to fail already and haven't been made yet. Then no further one was set.
    pub fn fail(&self, call: CallKind, count: u64) -> Result<Told, TooManyTold>
        ensures { count ≡ 0 → IsOk result }
    {
        if count == 0 {
            // With 0 nothing is set. The place in the answer is past the last word, so that revoking it changes nothing.
            return Ok(Told {
                call,
                place: MAX_SWITCHED,
            });
        }
        for (place, word) in self.words.of(call).iter().enumerate() {
            let outcome = word.compare_exchange(0, count, Ordering::SeqCst, Ordering::SeqCst);
            if outcome.is_ok() {
                return Ok(Told { call, place });
            }
        }
        Err(TooManyTold)
    }

    /// Revokes that a call was set to fail. If that call has been made already nothing changes, unless the same word was given to another
    /// call since then: then that one is revoked.
    pub fn take_back(&self, told: Told) {
        if let Some(word) = self.words.of(told.call).get(told.place) {
            word.store(0, Ordering::SeqCst);
        }
    }

    /// Counts a call of this kind, and returns whether it has to fail.
    pub(crate) fn count(&self, call: CallKind) -> bool {
        let mut is_due = false;
        for word in self.words.of(call) {
            // The call counts for every countdown, also if an earlier countdown has already said that the call fails.
            is_due |= count_down(word);
        }
        is_due
    }
}
