//! The settings of a script: limits and stakes of the committee of four in which the simulated node is member 0, and the format's version
//! in which its first journal is written.

use committee::{Committee, CommitteeError};
use journal::Version;
use opening::can_report;
use sigface::HashSign;
use sim_script::{BATCHES, DEPTH, OWN, Setting, committee_file, signer};
use std::alloc::{AllocError, Global};
use validator::Config;

/// The settings of a script so far.
#[derive(Clone, Copy)]
pub struct Settings {
    depth: u64,
    batches: u64,
    stakes: [u64; 4],
    version: Version,
}

impl Settings {
    /// The default settings.
    pub fn new() -> Settings {
        Settings {
            depth: DEPTH,
            batches: BATCHES,
            stakes: [1; 4],
            version: Version::Second,
        }
    }

    /// The settings of a script after one more setting. None if its value is out of its range, or if the version of the journal can't
    /// express the stakes.
    pub fn with(&self, alloc: Global, setting: Setting) -> Result<Option<Settings>, AllocError> {
        let mut settings = *self;
        match setting {
            Setting::Depth(depth) => settings.depth = depth,
            Setting::Batches(batches) => settings.batches = batches,
            Setting::Stakes(stakes) => settings.stakes = stakes,
            Setting::FirstVersion => settings.version = Version::First,
        }
        match settings.committee(alloc)? {
            Some(committee) if can_report(settings.version, &committee) => Ok(Some(settings)),
            _ => Ok(None),
        }
    }

    /// The node's configuration with these settings; None if a setting is out of its range.
    pub fn config(&self, alloc: Global) -> Result<Option<Config<HashSign>>, AllocError> {
        match self.committee(alloc)? {
            Some(committee) => Ok(Config::new(committee, OWN, signer(OWN))),
            None => Ok(None),
        }
    }

    // The committee with these settings; None if a setting is out of its range.
    fn committee(&self, alloc: Global) -> Result<Option<Committee>, AllocError> {
        let mut file = committee_file(alloc, self.depth, self.batches)?;
        let [first, second, third, fourth] = self.stakes;
        writeln!(file, "stakes = [{first}, {second}, {third}, {fourth}]")?;
        match Committee::read(alloc, file.as_str()) {
            Ok(committee) => Ok(Some(committee)),
            Err(CommitteeError::Memory) => Err(AllocError),
            Err(_) => Ok(None),
        }
    }

    /// The version of the format in which the first journal is written.
    pub fn version(&self) -> Version {
        self.version
    }
}
