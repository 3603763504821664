//! The settings of the members of a committee of four that run in one process.

ghost use Rattle.std.specs.Prelude.{◌≡◌, ◌+◌, length, Ok, OnOk, IfOk, IfSome};
ghost use Rattle.cluster.specs.Cluster.{AreOfOne, AreDistinct};
ghost use Rattle.committee.specs.Answer.{answer_to};
ghost use Rattle.toml.specs.Parse.{parse_document};
ghost use Rattle.sim_members.specs.Settings.{AreOfFile, AreSettings};

use committee::Committee;
use sigface::HashSign;
use sim_script::{committee_file, signer};
use std::alloc::{AllocError, Global};
use validator::Config;
use wire::Author;

/// How many members the committee has.
pub const MEMBERS: u16 = 4;

/// The settings of the members of a committee, in the order of their numbers. They sign with the keys of the tests.
pub struct Settings {
    configs: Vec<Config<HashSign>>,
    ghost one: { AreOfOne configs.items },
    ghost distinct: { AreDistinct configs.items },
}

impl Drop for Settings {
    fn drop(self) {
        let Settings { configs: _ } = self;
    }
}

impl Settings {
    /// The settings for a committee of this depth in which a node holds at most `batches` batches, those of all members together. On
    /// `AllocError` an allocation failed.
    pub fn new(alloc: Global, depth: u64, batches: u64) -> Result<Settings, AllocError> {
        let file = committee_file(alloc, depth, batches)?;
        let configs = configs_of(alloc, file.as_str())?;
        Ok(Settings { configs })
    }

    /// The setting of each member, in the order of their numbers.
    pub fn all(&self) -> &[Config<HashSign>]
        ensures { AreSettings result.now }
    {
        &self.configs
    }

    /// The settings of the first `count` members. None if the committee has fewer.
    pub fn first(&self, count: usize) -> Option<&[Config<HashSign>]>
        ensures sound { IfSome result (λ configs. AreSettings configs.now) }
        ensures many { IfSome result (λ configs. length configs.now ≡ count) }
    {
        self.configs.as_slice().get(..count)
    }
}

// The settings of all members of the committee that the file describes.
fn configs_of(alloc: Global, file: &str) -> Result<Vec<Config<HashSign>>, AllocError>
    ensures { IfOk result (λ configs. AreSettings configs.items) }
{
    let mut configs = Vec::new(alloc);
    for own in 0..MEMBERS {
        add_config(alloc, file, own, &mut configs)?;
    }
    Ok(configs)
}

fn add_config(
    alloc: Global,
    file: &str,
    own: u16,
    configs: &mut Vec<Config<HashSign>>,
) -> Result<(), AllocError>
    requires { AreOfFile file.now own configs.old.items }
    ensures { OnOk result (AreOfFile file.now (own + 1) configs.new.items) }
{
    let config = config_of(alloc, file, Author(own))?;
    configs.push(config)?;
    Ok(())
}

// The setting of the member with this number. The committee's file is valid, so only an allocation can fail.
fn config_of(alloc: Global, file: &str, own: Author) -> Result<Config<HashSign>, AllocError>
    ensures own { IfOk result (λ config. config.own ≡ own) }
    ensures read { IfOk result (λ config. answer_to (parse_document file.now) ≡ Ok config.charter) }
{
    let Ok(committee) = Committee::read(alloc, file) else {
        return Err(AllocError);
    };
    match Config::new(committee, own, signer(own)) {
        Some(config) => Ok(config),
        None => Err(AllocError),
    }
}
