//! Openings of a node on two areas during which a device call fails or the machine crashes, and what the next opening finds.

use crate::areas::{Areas, are_alike};
use crate::disks::{Disks, FILL_COUNT, FILLS, Fill, outcomes};
use crate::migrating::{DEVICE, Opened, reopened};
use crate::nodes::Member;
use diskmodel::CallKind;
use std::alloc::{AllocError, Global};
use test_cases::Reported;

/// Each kind of call that changes a disk or syncs it, with its name.
const KINDS: [(CallKind, &str); 3] = [
    (CallKind::Write, "write"),
    (CallKind::Cut, "cut"),
    (CallKind::Sync, "sync"),
];

/// More calls of one kind than any opening makes: the loops over calls end here at the latest.
const MOST_CALLS: u64 = 32;

/// How many openings after a failure found what an opening without a failure finds, and how many found something else.
#[derive(Clone, Copy)]
struct Count {
    same: u64,
    other: u64,
}

impl Count {
    fn none() -> Count {
        Count { same: 0, other: 0 }
    }

    fn note(&mut self, is_same: bool) {
        if is_same {
            self.same = self.same.saturating_add(1);
        } else {
            self.other = self.other.saturating_add(1);
        }
    }

    fn report(&self, answer: &mut String) -> Reported {
        writeln!(answer, "then the same {}, others {}", self.same, self.other)
    }
}

/// The areas on which a node is opened, and what the opening finds if no call fails.
#[derive(Drop)]
pub struct Trial<'a> {
    alloc: Global,
    member: &'a Member,
    areas: &'a Areas,
    opened: Opened,
}

impl<'a> Trial<'a> {
    /// Opens a node on these areas once without a failure, to learn what later openings have to find.
    pub fn new(
        alloc: Global,
        member: &'a Member,
        areas: &'a Areas,
    ) -> Result<Trial<'a>, AllocError> {
        let opened = reopened(alloc, member, Disks::of(alloc, areas)?)?;
        Ok(Trial {
            alloc,
            member,
            areas,
            opened,
        })
    }

    /// Lets each device call of the opening fail in turn, opens the same disks again, and shows what was found.
    pub fn report_failing(&self, answer: &mut String) -> Reported {
        self.report_failing_reads(answer)?;
        for (kind, name) in KINDS {
            let (calls, count) = self.count_failing(kind)?;
            write!(answer, "{name} fails {calls}, ")?;
            count.report(answer)?;
        }
        Ok(())
    }

    /// Lets each read fail in turn. The answer doesn't show how many reads there were, since that is no part of the format.
    fn report_failing_reads(&self, answer: &mut String) -> Reported {
        let (calls, count) = self.count_failing(CallKind::Read)?;
        if calls > 0 && count.other == 0 {
            return answer.push_str("read fails, then the same\n");
        }
        writeln!(answer, "read fails {calls}, others {}", count.other)
    }

    /// Lets each call of this kind fail in turn. Returns how many calls there were, and what the openings after the failures found.
    fn count_failing(&self, kind: CallKind) -> Result<(u64, Count), AllocError> {
        let mut count = Count::none();
        for number in 1..MOST_CALLS {
            match self.failed(kind, number)? {
                Some(disks) => count.note(self.is_same(disks)?),
                None => return Ok((number.saturating_sub(1), count)),
            }
        }
        Ok((MOST_CALLS, count))
    }

    /// The disks as an opening leaves them whose call of this kind and number failed. None if the opening makes no such call.
    fn failed(&self, kind: CallKind, number: u64) -> Result<Option<Disks>, AllocError> {
        let disks = Disks::failing(self.alloc, self.areas, kind, number)?;
        let Opened { text, disks } = reopened(self.alloc, self.member, disks)?;
        Ok((text.as_str() == DEVICE).then_some(disks))
    }

    /// Whether opening a node on these disks finds the same, and leaves the same bytes, as the opening without a failure.
    fn is_same(&self, disks: Disks) -> Result<bool, AllocError> {
        let found = reopened(self.alloc, self.member, disks)?;
        let (left, right) = (&found.disks, &self.opened.disks);
        Ok(
            found.text.as_str() == self.opened.text.as_str()
                && are_alike(&left.first, &right.first)
                && are_alike(&left.second, &right.second),
        )
    }

    /// Crashes the machine before each device call of the opening and after the last one. Opens what is left, and shows what was found.
    pub fn report_stopping(&self, answer: &mut String) -> Reported {
        let mut counts = [Count::none(); FILL_COUNT];
        for (kind, _) in KINDS {
            self.stop_before(kind, &mut counts)?;
        }
        self.stop_each(&self.opened.disks, &mut counts)?;
        for place in 0..FILL_COUNT {
            report_fill(place, &counts, answer)?;
        }
        Ok(())
    }

    /// Crashes the machine before each call of this kind that the opening makes.
    fn stop_before(&self, kind: CallKind, counts: &mut [Count]) -> Reported {
        for number in 1..MOST_CALLS {
            match self.failed(kind, number)? {
                Some(disks) => self.stop_each(&disks, counts)?,
                None => return Ok(()),
            }
        }
        Ok(())
    }

    /// Crashes the machine with the disks in this state, once for each outcome that is tried of each disk.
    fn stop_each(&self, disks: &Disks, counts: &mut [Count]) -> Reported {
        for place in 0..FILL_COUNT {
            if let (Some((fill, _)), Some(count)) = (FILLS.get(place), counts.get_mut(place)) {
                self.stop_both(disks, *fill, count)?;
            }
        }
        Ok(())
    }

    /// Crashes the machine with the disks in this state; this is what a crash leaves at places that are not durable.
    fn stop_both(&self, disks: &Disks, fill: Fill, count: &mut Count) -> Reported {
        for is_second in [false, true] {
            for left in outcomes(self.alloc, disks.of_area(is_second), fill)? {
                self.stop(disks, is_second, left, count)?;
            }
        }
        Ok(())
    }

    /// Crashes the machine so that these bytes are left of one area, opens what is left, and counts what was found.
    fn stop(&self, disks: &Disks, is_second: bool, left: Vec<u8>, count: &mut Count) -> Reported {
        let mut again = disks.again(self.alloc, self.areas)?;
        let may = again.stop(is_second, left);
        let is_same = self.is_same(again)?;
        count.note(may && is_same);
        Ok(())
    }
}

/// Shows for one way of filling lost places how many crashes there were, and what the openings after them found.
fn report_fill(place: usize, counts: &[Count], answer: &mut String) -> Reported {
    let (Some((_, name)), Some(count)) = (FILLS.get(place), counts.get(place)) else {
        return Ok(());
    };
    let stops = count.same.saturating_add(count.other);
    write!(answer, "{name}: stops {stops}, ")?;
    count.report(answer)
}
