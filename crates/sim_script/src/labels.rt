//! The labels that a script has given to headers and batches.

use std::alloc::{AllocError, Global};
use std::collections::BTreeMap;
use wire::{
    Author, Batch, Digest, Header, ParentReference, batch_digest, certificate_digest,
    genesis_digest, header_digest,
};

/// A header that has a label.
#[derive(Drop)]
pub struct Proposed {
    /// The header.
    pub header: Header,
    /// The header's digest.
    pub digest: Digest,
    /// The digest of the header's certificate.
    pub certificate: Digest,
}

/// A batch that has a label.
#[derive(Drop)]
pub struct Packed {
    /// The batch and its digest. None if its transactions exceed a limit, so that no such message can be decoded (`TooMany`).
    pub batch: Option<(Batch, Digest)>,
}

/// All headers and batches by their labels; and for each digest the first label that was given to it.
pub struct Labels {
    alloc: Global,
    headers: BTreeMap<String, Proposed>,
    batches: BTreeMap<String, Packed>,
    header_names: BTreeMap<Digest, String>,
    certificate_names: BTreeMap<Digest, String>,
    batch_names: BTreeMap<Digest, String>,
}

impl Drop for Labels {
    fn drop(self) {
        let Labels {
            alloc: _,
            headers: _,
            batches: _,
            header_names: _,
            certificate_names: _,
            batch_names: _,
        } = self;
    }
}

impl Labels {
    /// No labels except those of the genesis certificates, g0 to g3.
    pub fn new(alloc: Global) -> Labels {
        Labels {
            alloc,
            headers: BTreeMap::new(alloc),
            batches: BTreeMap::new(alloc),
            header_names: BTreeMap::new(alloc),
            certificate_names: BTreeMap::new(alloc),
            batch_names: BTreeMap::new(alloc),
        }
    }

    /// The header with this label, if there is one.
    pub fn header(&self, name: &str) -> Option<&Proposed> {
        self.headers.get(name)
    }

    /// The batch with this label, if there is one.
    pub fn batch(&self, name: &str) -> Option<&Packed> {
        self.batches.get(name)
    }

    /// A reference to the certificate with this label: a genesis certificate, or that of the header with the label.
    pub fn parent(&self, name: &str) -> Option<ParentReference> {
        if let Some(author) = genesis_author(name) {
            return Some(ParentReference {
                author,
                certificate: genesis_digest(author),
            });
        }
        let proposed = self.header(name)?;
        Some(ParentReference {
            author: proposed.header.body.author,
            certificate: proposed.certificate,
        })
    }

    /// The first label that was given to the header with this digest.
    pub fn header_name(&self, digest: &Digest) -> Option<&str> {
        Some(self.header_names.get(digest)?.as_str())
    }

    /// The first label that was given to the header whose certificate has this digest.
    pub fn certificate_name(&self, digest: &Digest) -> Option<&str> {
        Some(self.certificate_names.get(digest)?.as_str())
    }

    /// The first label that was given to the batch with this digest.
    pub fn batch_name(&self, digest: &Digest) -> Option<&str> {
        Some(self.batch_names.get(digest)?.as_str())
    }

    // Whether a label is defined already, or is that of a genesis certificate.
    pub(crate) fn is_taken(&self, name: &str) -> bool {
        genesis_author(name).is_some() || self.header(name).is_some() || self.batch(name).is_some()
    }

    // Gives a header this label, which isn't defined yet.
    pub(crate) fn define_header(&mut self, name: &str, header: Header) -> Result<(), AllocError> {
        let (digest, certificate) = digests_of(&header);
        add_first(self.alloc, &mut self.header_names, digest, name)?;
        add_first(self.alloc, &mut self.certificate_names, certificate, name)?;
        let name = String::from_str(self.alloc, name)?;
        self.headers.insert(
            name,
            Proposed {
                header,
                digest,
                certificate,
            },
        )?;
        Ok(())
    }

    // Gives this label, which isn't defined yet, to a batch, or to transactions that exceed a limit.
    pub(crate) fn define_batch(
        &mut self,
        name: &str,
        batch: Option<Batch>,
    ) -> Result<(), AllocError> {
        let batch = batch.map(with_digest);
        if let Some((_, digest)) = &batch {
            add_first(self.alloc, &mut self.batch_names, *digest, name)?;
        }
        let name = String::from_str(self.alloc, name)?;
        self.batches.insert(name, Packed { batch })?;
        Ok(())
    }
}

// Keeps this label for a digest, unless the digest has one.
fn add_first(
    alloc: Global,
    names: &mut BTreeMap<Digest, String>,
    digest: Digest,
    name: &str,
) -> Result<(), AllocError> {
    if !names.contains_key(&digest) {
        let name = String::from_str(alloc, name)?;
        names.insert(digest, name)?;
    }
    Ok(())
}

// The digests of a header and of its certificate.
fn digests_of(header: &Header) -> (Digest, Digest) {
    let digest = header_digest(&header.body);
    let certificate = certificate_digest(&digest, header.body.round, header.body.author);
    (digest, certificate)
}

fn with_digest(batch: Batch) -> (Batch, Digest) {
    let digest = batch_digest(&batch);
    (batch, digest)
}

// The author of the genesis certificate with this label: g0 to g3.
fn genesis_author(name: &str) -> Option<Author> {
    match name.as_bytes() {
        [b'g', digit @ b'0'..=b'3'] => Some(Author(u16::from(*digit - b'0'))),
        _ => None,
    }
}
