//! The certificates of a journal by their digests, and which of them are leaders of waves.

use crate::flaw::Flaw;
use crate::kept::kept_in;
use crate::parts::events_of;
use admission::Kept;
use header::Checked;
use journal::Record;
use opening::event_of;
use sigface::Sign;
use std::alloc::{AllocError, Global};
use validator::Config;
use wire::{Author, Digest, HeaderBody, Message, Round, certificate_digest, header_digest};

/// A certificate that the node may hold: one that came in, or that of an own header.
#[derive(Clone, Copy, Debug, PartialEq, Eq, PartialOrd, Ord)]
pub struct Named {
    /// The certificate's digest.
    pub digest: Digest,
    /// The certificate's round.
    pub round: Round,
    /// The author of the certificate's header.
    pub author: Author,
}

/// The certificates and the coins in a journal.
pub struct Waves {
    // The certificates, sorted by digest.
    named: Vec<Named>,
    // The value of each coin, that of wave 1 first.
    coins: Vec<u64>,
    members: u64,
}

impl Drop for Waves {
    fn drop(self) {
        let Waves {
            named: _,
            coins: _,
            members: _,
        } = self;
    }
}

impl Waves {
    /// The certificates and coins of a journal with these records: those of the checkpoint with which it begins, and those of its events.
    ///
    /// # Errors
    /// Those of `after_records`, except that the events aren't checked.
    pub fn new<S: Sign>(
        alloc: Global,
        config: &Config<S>,
        records: &[Record],
    ) -> Result<Waves, Flaw> {
        let committee = config.committee();
        let mut waves = Waves {
            named: Vec::new(alloc),
            coins: Vec::new(alloc),
            members: committee.size() as u64,
        };
        waves.add_kept(&kept_in(alloc, config, records)?)?;
        for one in events_of(records) {
            if let Some(event) = event_of(alloc, committee, one.bytes.as_slice())? {
                waves.add(&event)?;
            }
        }
        waves.named.sort()?;
        Ok(waves)
    }

    // Adds the certificates and coins of a checkpoint.
    fn add_kept(&mut self, kept: &Kept) -> Result<(), AllocError> {
        for (certificate, _) in &kept.certificates {
            self.named.push(certificate_of(&certificate.header))?;
        }
        for voted in &kept.headers {
            self.named.push(certificate_of(&voted.header.body))?;
        }
        for place in 0..kept.coins.count() {
            if let Some(value) = kept.coins.nth(place) {
                self.coins.push(value)?;
            }
        }
        Ok(())
    }

    // Adds the certificates and the coin that an event brings.
    fn add(&mut self, event: &Checked) -> Result<(), AllocError> {
        match event.message() {
            Message::Header(header) => self.named.push(certificate_of(&header.body))?,
            Message::Certificate(certificate) => self
                .named
                .push(certificate_of(&certificate.header))?,
            Message::Coin(coin) => self.coins.push(coin.value)?,
            _ => (),
        }
        Ok(())
    }

    /// The certificate of this digest.
    pub fn find(&self, digest: &Digest) -> Option<Named> {
        let place = self.named.partition_point(|named| named.digest < *digest);
        match self.named.get(place) {
            Some(named) if named.digest == *digest => Some(*named),
            _ => None,
        }
    }

    /// The author whose certificate of the wave's first round is the leader, as the wave's coin says. None if the coin isn't known.
    pub fn leader_of(&self, wave: u64) -> Option<Author> {
        if wave == 0 || self.members == 0 {
            return None;
        }
        let coin = self.coins.get((wave - 1) as usize)?;
        match u16::try_from(*coin % self.members) {
            Ok(author) => Some(Author(author)),
            Err(_) => None,
        }
    }

    /// The wave whose leader a certificate is; None if it is no leader. It is one if its round is the first of a wave, and the coin of that
    /// wave chooses its author.
    pub fn led_by(&self, one: Named) -> Option<u64> {
        let round = one.round.number();
        if round % 2 == 0 {
            return None;
        }
        let wave = round / 2 + 1;
        if self.leader_of(wave) == Some(one.author) {
            Some(wave)
        } else {
            None
        }
    }
}

/// The digest, round and author of a header's certificate.
pub(crate) fn certificate_of(body: &HeaderBody) -> Named {
    let header = header_digest(body);
    Named {
        digest: certificate_digest(&header, body.round, body.author),
        round: body.round,
        author: body.author,
    }
}

/// For each certificate of an order, the wave whose leader put it there. Among the certificates that a leader orders it comes last, and no
/// other one of them is a leader. None for a certificate that isn't known: a checkpoint has those from its floor on alone, so after the
/// first known certificate each leader is known. On `AllocError` an allocation failed.
pub fn waves_of(
    alloc: Global,
    waves: &Waves,
    order: &[Digest],
) -> Result<Vec<Option<u64>>, AllocError> {
    let mut found = Vec::with_capacity(alloc, order.len())?;
    let mut wave = None;
    for digest in order.iter().rev() {
        let one = waves.find(digest);
        if let Some(led) = one.and_then(|one| waves.led_by(one)) {
            wave = Some(led);
        }
        found.push(if one.is_some() { wave } else { None })?;
    }
    found.reverse();
    Ok(found)
}
