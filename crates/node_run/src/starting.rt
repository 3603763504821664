//! The arguments of a run, and the configuration and the journal that they name.

ghost use Rattle.std.specs.Prelude.{◌≡◌, ◌≢◌, ℕ, List, Err, IfOk, IfErr, IfSome, length, slice_get, string_bytes};
ghost use Rattle.node_run.specs.Members.{IsConfigOf, RefusesConfig, RefusesOpening};
ghost use Rattle.node_run.specs.Runs.{AreTwo};

use crate::files::open_files;
use committee::{Committee, CommitteeError};
use disk_file::{FileDisk, OpenError};
use journal::{JournalError, Store};
use node_io::{Ending, own_of, read_committee_file};
use sigface::HashSign;
use std::alloc::Global;
use std::fs::File;
use std::rt::Files;
use std::str;
use validator::Config;

/// The configuration and the journal that the arguments name: the committee file, the own number, the first of the journal's two files.
///
/// # Errors
/// The first of these tests that fails is reported: of the number of arguments, the file, its text, the own number, and the journal's
/// files.
pub(crate) fn open_all<R: Files<File = File> + AllocGlobal>(
    rt: &R,
    alloc: Global,
    args: &[String],
) -> Result<(Config<HashSign>, Store<FileDisk>), Ending>
    ensures arguments { length args.now ≢ 3 → result ≡ Err Ending.Usage }
    ensures member { IfOk result (λ opened. (text : List ℕ) × IfSome (slice_get args.now 1) (λ own. IsConfigOf text (string_bytes own) opened.0)) }
    ensures two { IfOk result (λ opened. AreTwo opened.1) }
    ensures refused { IfErr result (λ ending. IfSome (slice_get args.now 1) (λ own. RefusesOpening (string_bytes own) ending)) }
{
    let [file, own, journal] = args else {
        return Err(Ending::Usage);
    };
    let text = read_committee_file(rt, file.as_str())?;
    let config = config_of(alloc, &text, own.as_str())?;
    match open_files(rt, alloc, journal.as_str()) {
        Ok(store) => Ok((config, store)),
        Err(OpenError::Memory) => Err(Ending::Memory),
        Err(_) => Err(Ending::Journal(JournalError::Device)),
    }
}

/// The configuration of a member, from the text of a committee file and the text of the own number.
///
/// # Errors
/// `Config` or `Memory` for the text of the committee file; after that `Usage` where the number is no member's.
pub(crate) fn config_of(alloc: Global, text: &[u8], own: &str) -> Result<Config<HashSign>, Ending>
    ensures ok { IfOk result (λ config. IsConfigOf text.now own.now config) }
    ensures refused { IfErr result (λ ending. RefusesConfig text.now own.now ending) }
{
    let Ok(text) = str::from_utf8(text) else {
        return Err(Ending::Config(CommitteeError::NotToml));
    };
    let committee = Committee::read(alloc, text)?;
    let Some(own) = own_of(own) else {
        return Err(Ending::Usage);
    };
    let Some(key) = committee.key(own) else {
        return Err(Ending::Usage);
    };
    let signer = HashSign::new(*key);
    match Config::new(committee, own, signer) {
        Some(config) => Ok(config),
        None => Err(Ending::Usage),
    }
}
