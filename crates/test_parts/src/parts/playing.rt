//! Tests of commits: certificates and coins in the order of their arrival, and the leaders and the order that they commit.

ghost use Rattle.std.specs.Prelude.{◌≡◌, ◌<◌, length};
ghost use Rattle.wire.specs.Digests.{header_digest_of, certificate_digest_of};

use crate::parts::certificates::{certificate_of, digest_of};
use crate::parts::words::{Reported, list, numbers_in, parted, round_of, write_slot};
use committee::Committee;
use dag::{Added, Dag};
use flatten::{Lengthening, mark, segment, segment_counted};
use std::alloc::{AllocError, Global};
use tusk::Coins;
use wire::{Author, Certificate, Digest, Round};

// What a node keeps to determine the order.
#[derive(Drop)]
struct Playing<'a> {
    alloc: Global,
    committee: &'a Committee,
    dag: Dag<'a>,
    coins: Coins,
    last: Option<u64>,
    previous: Option<(Round, Author)>,
    // Whether the number of references that are read for each leader is shown.
    counts: bool,
}

/// Plays these words, beginning with the genesis, and shows the answer to each.
pub fn play_words(
    alloc: Global,
    committee: &Committee,
    words: &str,
    answer: &mut String,
) -> Reported {
    let mut playing = Playing {
        alloc,
        committee,
        dag: Dag::new(alloc, committee)?,
        coins: Coins::new(alloc),
        last: None,
        previous: None,
        counts: false,
    };
    for word in words.split_whitespace() {
        playing.play(word, answer)?;
    }
    Ok(())
}

impl<'a> Playing<'a> {
    fn play(&mut self, word: &str, answer: &mut String) -> Reported {
        let (name, rest) = parted(word, '-');
        let numbers = numbers_in(self.alloc, rest)?;
        match name {
            "leaders" => self.report_leaders(answer),
            "counts" => {
                self.counts = true;
                Ok(())
            }
            _ => self.change(name, &numbers, answer),
        }
    }

    fn change(&mut self, name: &str, numbers: &[u64], answer: &mut String) -> Reported {
        match numbers {
            [round, author, parents @ ..] if name == "add" => {
                self.add(*round, *author, parents, answer)
            }
            [value] if name == "coin" => self.coin(*value, answer),
            _ => answer.push_str("bad word\n"),
        }
    }

    fn add(&mut self, round: u64, author: u64, parents: &[u64], answer: &mut String) -> Reported {
        let certificate = certificate_of(self.alloc, &self.dag, round, author, parents)?;
        if certificate.header.author.0 >= self.dag.committee().size()
            || certificate.header.parents.as_slice().is_empty()
        {
            return answer.push_str("no member or no parent\n");
        }
        let digest = digest_of(&certificate);
        match self.dag.answer(&certificate, &digest) {
            Ok(Added::New) => self.add_new(certificate, digest, answer),
            Ok(Added::Known) => answer.push_str("Known\n"),
            Err(refusal) => writeln!(answer, "{refusal}"),
        }
    }

    // Adds a certificate that is new, and commits the leaders that can be committed with it.
    fn add_new(&mut self, certificate: Certificate, digest: Digest, answer: &mut String) -> Reported
        requires member { certificate.header.author.0 < length self.old.dag.charter.keys }
        requires named { 0 < length certificate.header.parents }
        requires digested { digest.0 ≡ certificate_digest_of (header_digest_of certificate.header) certificate.header.round certificate.header.author.0 }
    {
        answer.push_str("New\n")?;
        let chain = self
            .coins
            .committed_by(self.alloc, &self.dag, &certificate, self.last)?;
        let made = self.lengthen(&chain)?;
        let _ = self.dag.add_digested(certificate, digest);
        self.commit(&chain, &made, answer)
    }

    fn coin(&mut self, value: u64, answer: &mut String) -> Reported {
        let chain = self
            .coins
            .committed_with(self.alloc, &self.dag, value, self.last)?;
        self.coins.push(value)?;
        list("coin", &[self.coins.count() as u64], answer)?;
        let made = self.lengthen(&chain)?;
        self.commit(&chain, &made, answer)
    }

    // For each prefix of this chain of leaders the certificates that it orders, as a `Lengthening` of the order.
    fn lengthen(&self, chain: &[(Round, Author)]) -> Result<Vec<Lengthening>, AllocError> {
        let mut made = Vec::new(self.alloc);
        for count in 1..chain.len() + 1 {
            made.push(Lengthening::new(self.alloc, &self.dag, &chain[..count])?)?;
        }
        Ok(made)
    }

    // Compares this chain of leaders with the one that the DAG gives now, shows what each leader orders, and takes the last leader as
    // committed.
    fn commit(
        &mut self,
        chain: &[(Round, Author)],
        made: &[Lengthening],
        answer: &mut String,
    ) -> Reported {
        if !self.is_found(chain)? || !self.is_alike(chain, made)? {
            answer.push_str("otherwise\n")?;
        }
        match chain.last() {
            None => Ok(()),
            Some(last) => {
                report_chain(chain, answer)?;
                self.report_orders(made, answer)?;
                self.report_reads(chain, made, answer)?;
                self.take(last.0, made.last());
                self.report_top(answer)
            }
        }
    }

    fn report_top(&self, answer: &mut String) -> Reported {
        let (top, floor) = (self.last.unwrap_or(0), self.dag.floor().number());
        writeln!(answer, "top {top} floor {floor}")
    }

    // Whether these are the leaders that the DAG, as it is now, commits.
    fn is_found(&self, chain: &[(Round, Author)]) -> Result<bool, AllocError> {
        let again = self.coins.chain_from(self.alloc, &self.dag, self.last)?;
        Ok(again.as_slice() == chain)
    }

    // Notes that the leader of a round is committed, and marks all certificates that are ordered up to the leader.
    fn take(&mut self, round: Round, all: Option<&Lengthening>) {
        if let Some(all) = all {
            mark(&mut self.dag, all);
            self.previous = Some(all.last());
        }
        self.last = self.coins.top(&self.dag);
        self.dag.commit_to(round);
        let floor = round_of(round.number().saturating_sub(self.committee.depth()));
        self.dag.drop_below(floor);
    }

    // Whether each of these leaders, if asked alone after the one before it, orders the same certificates that it adds as a part of the
    // chain.
    fn is_alike(
        &self,
        chain: &[(Round, Author)],
        made: &[Lengthening],
    ) -> Result<bool, AllocError> {
        let mut previous = self.previous;
        let mut place: usize = 0;
        let mut reported = 0;
        for one in made {
            let Some(leader) = chain.get(place) else {
                return Ok(false);
            };
            if !self.orders(*leader, previous, one.digests().get(reported..))? {
                return Ok(false);
            }
            previous = Some(*leader);
            place = place.saturating_add(1);
            reported = one.digests().len();
        }
        Ok(place == chain.len())
    }

    // Whether a leader orders these digests after the leader before it.
    fn orders(
        &self,
        leader: (Round, Author),
        previous: Option<(Round, Author)>,
        digests: Option<&[Digest]>,
    ) -> Result<bool, AllocError> {
        let alone = segment(self.alloc, &self.dag, leader, previous)?;
        Ok(digests == Some(alone.as_slice()))
    }

    // Shows what each leader orders: what its prefix of the chain adds to the prefix before it.
    fn report_orders(&self, made: &[Lengthening], answer: &mut String) -> Reported {
        let mut reported = 0;
        for one in made {
            let digests = one.digests();
            answer.push_str("orders")?;
            for digest in digests.get(reported..).unwrap_or_default() {
                self.report_digest(digest, answer)?;
            }
            answer.push_str("\n")?;
            reported = digests.len();
        }
        Ok(())
    }

    // Shows for each leader of a chain how many references to parents are read for it, counted in two ways: how many more a `Lengthening`
    // of the chain up to this leader reads than one of the chain up to the leader before, and how many `segment_counted` reads for this
    // leader alone.
    fn report_reads(
        &self,
        chain: &[(Round, Author)],
        made: &[Lengthening],
        answer: &mut String,
    ) -> Reported {
        if !self.counts {
            return Ok(());
        }
        answer.push_str("reads")?;
        let mut previous = self.previous;
        let mut reported = 0;
        for (leader, one) in chain.iter().zip(made) {
            let (_, alone) = segment_counted(self.alloc, &self.dag, *leader, previous)?;
            write!(answer, " {}.{alone}", one.reads().saturating_sub(reported))?;
            previous = Some(*leader);
            reported = one.reads();
        }
        answer.push_str("\n")
    }

    // Shows the round and the author of the certificate with this digest.
    fn report_digest(&self, digest: &Digest, answer: &mut String) -> Reported {
        for number in self.dag.floor().number()..self.dag.end() {
            for author in 0..self.dag.committee().size() {
                let slot = (round_of(number), Author(author));
                if self.dag.digest(slot.0, slot.1) == Some(digest) {
                    write_slot(answer, &slot)?;
                }
            }
        }
        Ok(())
    }

    // Shows the leaders of the waves from the floor on.
    fn report_leaders(&self, answer: &mut String) -> Reported {
        answer.push_str("leaders")?;
        for wave in 1..self.coins.count() as u64 + 1 {
            if 2 * wave > self.dag.floor().number() {
                self.report_leader(wave, answer)?;
            }
        }
        answer.push_str("\n")
    }

    fn report_leader(&self, wave: u64, answer: &mut String) -> Reported {
        write!(answer, " {wave}:")?;
        match self.coins.leader(&self.dag, wave) {
            Some((round, author)) => write!(answer, "{}.{}", round.number(), author.0),
            None => answer.push_str("none"),
        }
    }
}

fn report_chain(chain: &[(Round, Author)], answer: &mut String) -> Reported {
    answer.push_str("chain")?;
    for leader in chain {
        write_slot(answer, leader)?;
    }
    answer.push_str("\n")
}
