//! Loads validators from lists of records, and compares the results with those of the reference implementation.

use crate::nodes::Member;
use crate::records::configuration_record;
use sigface::HashSign;
use std::alloc::{AllocError, Global};
use test_cases::Reported;
use validator::{Config, LoadError, Loading, Validator};

/// A copy of a list of records.
pub fn copied(alloc: Global, records: &[Vec<u8>]) -> Result<Vec<Vec<u8>>, AllocError> {
    let mut again = Vec::new(alloc);
    for record in records {
        again.push(record.to_vec(alloc)?)?;
    }
    Ok(again)
}

/// Adds the reason for which records could not be loaded, in the form that files of test cases expect.
pub fn report_error(error: LoadError, text: &mut String) -> Reported {
    match error {
        LoadError::Unsound(place) => write!(text, "{error} {place}"),
        _ => write!(text, "{error}"),
    }
}

/// The result of loading as text, in the form that files of test cases expect. A failed allocation is returned as an error.
pub fn reported_load(alloc: Global, answer: Result<(), LoadError>) -> Result<String, AllocError> {
    let mut text = String::new(alloc);
    match answer {
        Ok(()) => text.push_str("Ok")?,
        Err(LoadError::Memory) => return Err(AllocError),
        Err(error) => report_error(error, &mut text)?,
    }
    Ok(text)
}

/// Loads a validator from all records of a list at once, and returns whether that succeeds.
pub fn load(
    alloc: Global,
    config: &Config<HashSign>,
    records: &[Vec<u8>],
) -> Result<(), LoadError> {
    let _ = Validator::load(alloc, config, copied(alloc, records)?)?;
    Ok(())
}

/// The validator that is loaded from a list of records. If an allocation fails, it is loaded once more.
pub fn loaded<'c>(
    alloc: Global,
    config: &'c Config<HashSign>,
    records: &[Vec<u8>],
) -> Result<Validator<'c, HashSign>, LoadError> {
    let (first, second) = (copied(alloc, records)?, copied(alloc, records)?);
    match Validator::load(alloc, config, first) {
        Err(LoadError::Memory) => Validator::load(alloc, config, second),
        answer => answer,
    }
}

/// The records of a validator's checkpoint. If an allocation fails, they are made once more.
pub fn kept_records(validator: &Validator<'_, HashSign>) -> Result<Vec<Vec<u8>>, AllocError> {
    match validator.kept_records() {
        Ok(records) => Ok(records),
        Err(AllocError) => validator.kept_records(),
    }
}

/// Adds a line for each difference: a validator is loaded from the list at once, and another one record by record; both have to give the
/// expected result, and a loaded validator has to be written as the same records.
pub fn compare_loads(
    alloc: Global,
    member: &Member,
    records: &[Vec<u8>],
    plain: &str,
    answer: &mut String,
) -> Reported {
    let at_once = reported_load(alloc, load(alloc, &member.config, records))?;
    compare("at once", at_once.as_str(), plain, answer)?;
    let one_by_one = reported_load(alloc, load_one_by_one(alloc, &member.config, records))?;
    compare("record by record", one_by_one.as_str(), plain, answer)?;
    if plain == "Ok" && !is_kept_alike(alloc, member, records)? {
        answer.push_str("kept otherwise\n")?;
    }
    Ok(())
}

fn compare(way: &str, found: &str, plain: &str, answer: &mut String) -> Reported {
    if found == plain {
        return Ok(());
    }
    writeln!(answer, "loaded {way}: {found}")
}

/// Loads a validator from a list, one record after the other, and returns the result.
fn load_one_by_one(
    alloc: Global,
    config: &Config<HashSign>,
    records: &[Vec<u8>],
) -> Result<(), LoadError> {
    let mut loading = Loading::begin(alloc, config);
    for record in records {
        put_again(&mut loading, record)?;
    }
    let _ = loading.finish()?;
    Ok(())
}

/// Gives a record to a validator that is being loaded. If that fails the record is given again, which has to fail in the same way.
fn put_again(loading: &mut Loading<'_, HashSign>, record: &[u8]) -> Result<(), LoadError> {
    match loading.put(record) {
        Err(LoadError::Unsound(_)) => loading.put(record),
        answer => answer,
    }
}

/// Whether a validator loaded from a list is written as the same records: the configuration in format version 2, then the list's others.
fn is_kept_alike(alloc: Global, member: &Member, records: &[Vec<u8>]) -> Result<bool, AllocError> {
    match loaded(alloc, &member.config, records) {
        Err(LoadError::Memory) => Err(AllocError),
        Err(_) => Ok(false),
        Ok(validator) => {
            let kept = kept_records(&validator)?;
            let configuration = configuration_record(alloc, &member.node)?;
            Ok(are_those(&kept, &configuration, records.get(1..).unwrap_or(&[])))
        }
    }
}

/// Whether the first of these records is this configuration, and the rest are the other records.
fn are_those(kept: &[Vec<u8>], configuration: &[u8], others: &[Vec<u8>]) -> bool {
    match kept.split_first() {
        None => false,
        Some((first, rest)) => first.as_slice() == configuration && rest == others,
    }
}
