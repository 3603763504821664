//! Carries out a command on a journal, whose two files are opened only for reading.

use crate::drawing::{draw, draw_nothing};
use crate::ending::Ending;
use crate::files::{Both, both_at, listed};
use crate::listing::{COLUMNS, list};
use crate::reporting::{Column, put_hex, put_line, put_names};
use crate::request::{Command, Request, request_of};
use committee::{Committee, CommitteeError};
use journal::{Record, Side};
use journal_account::{
    Graph, Summary, Waves, config_in, last_frame, order_of, records_in, summary_of, votes_of,
    waves_of,
};
use node_io::read_committee_file;
use sigface::HashSign;
use std::alloc::Global;
use std::fs::File;
use std::io::Write;
use std::rt::Files;
use std::str;
use validator::Config;
use wire::Digest;

/// Carries out the command that the arguments name. Returns the exit status. 0: success. 1: the journal is damaged or another member's, or
/// the orders of two journals contradict each other. 2: wrong arguments. 5: a journal can't be read. 6: an allocation failed. 7: the output
/// can't be written. Results go to `writer`, and lines about failures to `errors`; nothing else is written.
pub fn run<R, W, E>(rt: &R, alloc: Global, args: &[String], writer: &mut W, errors: &mut E) -> u8
where
    R: Files<File = File> + AllocGlobal,
    W: Write,
    E: Write,
{
    let ending = match carry_out(rt, alloc, args, writer) {
        Ok(ending) => ending,
        Err(ending) => ending,
    };
    let ending = match writer.flush() {
        Ok(()) => ending,
        Err(_) => Ending::Output,
    };
    ending.write_to(errors);
    ending.status()
}

fn carry_out<R, W>(rt: &R, alloc: Global, args: &[String], writer: &mut W) -> Result<Ending, Ending>
where
    R: Files<File = File> + AllocGlobal,
    W: Write,
{
    let request = request_of(args)?;
    let both = both_at(rt, alloc, request.journal)?;
    match request.command {
        Command::List => {
            put_names(request.json, &COLUMNS, writer)?;
            let (bytes, base) = listed(alloc, both)?;
            list(alloc, &bytes, base, request.from, request.json, writer)?;
            Ok(Ending::Done)
        }
        Command::Verify => verify(rt, alloc, request, both, writer),
        Command::Compare => compare(rt, alloc, request, both, writer),
        Command::Votes | Command::LastHeader | Command::Order | Command::Graph => {
            let (config, records) = read(rt, alloc, request.other, both)?;
            match config {
                Some(config) => report(alloc, request, &config, &records, writer)?,
                None if request.command == Command::Graph => draw_nothing(writer)?,
                None => put_names(request.json, names_of(request.command), writer)?,
            }
            Ok(Ending::Done)
        }
    }
}

// The records of a journal, and the configuration of its node: with the committee of the given file, or else with the one that the journal
// names. None if the journal has no record.
fn read<R: Files<File = File> + AllocGlobal>(
    rt: &R,
    alloc: Global,
    file: Option<&str>,
    both: Both,
) -> Result<(Option<Config<HashSign>>, Vec<Record>), Ending> {
    let committee = match file {
        Some(path) => Some(committee_at(rt, alloc, path)?),
        None => None,
    };
    let Both { first, second } = both;
    let records = records_in(alloc, first, second)?;
    let config = config_in(alloc, committee, &records)?;
    Ok((config, records))
}

// Reads the committee from the file at this path.
fn committee_at<R: Files<File = File> + AllocGlobal>(
    rt: &R,
    alloc: Global,
    path: &str,
) -> Result<Committee, Ending> {
    let text = match read_committee_file(rt, path) {
        Ok(text) => text,
        Err(node_io::Ending::Memory) => return Err(Ending::Memory),
        Err(_) => return Err(Ending::Usage("the committee file can't be read")),
    };
    let Ok(text) = str::from_utf8(&text) else {
        return Err(Ending::Usage("the committee file is no committee's"));
    };
    match Committee::read(alloc, text) {
        Ok(committee) => Ok(committee),
        Err(CommitteeError::Memory) => Err(Ending::Memory),
        Err(_) => Err(Ending::Usage("the committee file is no committee's")),
    }
}

// Reports the summary of a journal, or what is wrong with it.
fn verify<R, W>(
    rt: &R,
    alloc: Global,
    request: Request<'_>,
    both: Both,
    writer: &mut W,
) -> Result<Ending, Ending>
where
    R: Files<File = File> + AllocGlobal,
    W: Write,
{
    match verified(rt, alloc, request.other, both) {
        Ok(summary) => {
            put_summary(request.json, summary, writer)?;
            Ok(Ending::Done)
        }
        Err(Ending::Flawed(flaw)) => {
            if request.json {
                writeln!(writer, "{{\"wrong\":\"{flaw}\"}}")?;
            } else {
                writeln!(writer, "{flaw}")?;
            }
            Ok(Ending::Wrong)
        }
        Err(ending) => Err(ending),
    }
}

fn verified<R: Files<File = File> + AllocGlobal>(
    rt: &R,
    alloc: Global,
    file: Option<&str>,
    both: Both,
) -> Result<Summary, Ending> {
    let (config, records) = read(rt, alloc, file, both)?;
    match config {
        Some(config) => Ok(summary_of(alloc, &config, &records)?),
        None => Ok(Summary::empty()),
    }
}

// Writes the summary of a journal. If the journal has no checkpoint, no line speaks of one.
fn put_summary<W: Write>(json: bool, summary: Summary, writer: &mut W) -> Result<(), Ending> {
    let Summary {
        events,
        order,
        round,
        floor,
        checkpoint,
    } = summary;
    if json {
        let (names, columns) = (
            ["events", "order", "round", "floor", "checkpoint", "area"],
            [
                Column::Number(Some(events)),
                Column::Number(Some(order)),
                Column::Number(Some(round)),
                Column::Number(Some(floor)),
                Column::Number(checkpoint.map(|(generation, _)| generation)),
                Column::Number(checkpoint.map(|(_, side)| area_of(side))),
            ],
        );
        let count = if checkpoint.is_some() { 6 } else { 4 };
        return put_line(json, &names[..count], &columns[..count], writer);
    }
    write!(
        writer,
        "{events} events, order of {order}, round {round}, floor {floor}"
    )?;
    if let Some((generation, side)) = checkpoint {
        let area = area_of(side);
        write!(writer, ", after checkpoint {generation} in area {area}")?;
    }
    writeln!(writer, "")?;
    Ok(())
}

// The number by which lines name the file: 0 for the first, 1 for the second.
fn area_of(side: Side) -> u64 {
    match side {
        Side::First => 0,
        Side::Second => 1,
    }
}

fn names_of(command: Command) -> &'static [&'static str] {
    match command {
        Command::Votes => &["author", "round", "digest"],
        Command::Order => &["place", "digest", "author", "round", "wave"],
        _ => &[],
    }
}

// Reports what a command asks for, of a journal that has a configuration.
fn report<W: Write>(
    alloc: Global,
    request: Request<'_>,
    config: &Config<HashSign>,
    records: &[Record],
    writer: &mut W,
) -> Result<(), Ending> {
    let json = request.json;
    match request.command {
        Command::Votes => report_votes(alloc, json, config, records, writer),
        Command::Order => report_order(alloc, json, request.from, config, records, writer),
        Command::Graph => {
            let (first, last) = request.rounds;
            draw(&Graph::new(alloc, config, records)?, first, last, writer)
        }
        _ => report_last(alloc, request.bytes, config, records, writer),
    }
}

fn report_votes<W: Write>(
    alloc: Global,
    json: bool,
    config: &Config<HashSign>,
    records: &[Record],
    writer: &mut W,
) -> Result<(), Ending> {
    let names = names_of(Command::Votes);
    let votes = votes_of(alloc, config, records)?;
    put_names(json, names, writer)?;
    for vote in &votes {
        put_line(
            json,
            names,
            &[
                Column::Number(Some(vote.author.0 as u64)),
                Column::Number(Some(vote.round)),
                Column::Digest(&vote.digest),
            ],
            writer,
        )?;
    }
    Ok(())
}

fn report_order<W: Write>(
    alloc: Global,
    json: bool,
    from: u64,
    config: &Config<HashSign>,
    records: &[Record],
    writer: &mut W,
) -> Result<(), Ending> {
    let names = names_of(Command::Order);
    let order = order_of(alloc, config, records)?;
    let waves = Waves::new(alloc, config, records)?;
    let found = waves_of(alloc, &waves, &order)?;
    put_names(json, names, writer)?;
    for (i, (digest, wave)) in order.iter().zip(&found).enumerate() {
        if i as u64 >= from {
            put_ordered(json, names, i as u64, digest, &waves, *wave, writer)?;
        }
    }
    Ok(())
}

fn put_ordered<W: Write>(
    json: bool,
    names: &[&str],
    place: u64,
    digest: &Digest,
    waves: &Waves,
    wave: Option<u64>,
    writer: &mut W,
) -> Result<(), Ending> {
    let (author, round) = match waves.find(digest) {
        Some(one) => (Some(one.author.0 as u64), Some(one.round.number())),
        None => (None, None),
    };
    put_line(
        json,
        names,
        &[
            Column::Number(Some(place)),
            Column::Digest(digest),
            Column::Number(author),
            Column::Number(round),
            Column::Number(wave),
        ],
        writer,
    )
}

fn report_last<W: Write>(
    alloc: Global,
    bytes: bool,
    config: &Config<HashSign>,
    records: &[Record],
    writer: &mut W,
) -> Result<(), Ending> {
    // The summary is made first, so that nothing is reported of a journal that a node could not open.
    let _ = summary_of(alloc, config, records)?;
    let Some(frame) = last_frame(alloc, config, records)? else {
        return Ok(());
    };
    if bytes {
        writer.write_all(&frame)?;
    } else {
        put_hex(&frame, writer)?;
        writeln!(writer, "")?;
    }
    Ok(())
}

// Reports whether the order of one of two journals is a prefix of the other's, or where the two differ.
fn compare<R, W>(
    rt: &R,
    alloc: Global,
    request: Request<'_>,
    both: Both,
    writer: &mut W,
) -> Result<Ending, Ending>
where
    R: Files<File = File> + AllocGlobal,
    W: Write,
{
    let left = order_in(rt, alloc, both)?;
    let right = match request.other {
        Some(path) => order_in(rt, alloc, both_at(rt, alloc, path)?)?,
        None => Vec::new(alloc),
    };
    let (first, second) = (left.len(), right.len());
    let same = left
        .iter()
        .zip(&right)
        .take_while(|(one, other)| one == other)
        .count();
    if same < first && same < second {
        writeln!(writer, "the orders of {first} and {second} part at {same}")?;
        return Ok(Ending::Wrong);
    }
    let what = if first == second {
        "are equal"
    } else if first < second {
        "agree: the first is a prefix of the second"
    } else {
        "agree: the second is a prefix of the first"
    };
    writeln!(writer, "the orders of {first} and {second} {what}")?;
    Ok(Ending::Done)
}

fn order_in<R: Files<File = File> + AllocGlobal>(
    rt: &R,
    alloc: Global,
    both: Both,
) -> Result<Vec<Digest>, Ending> {
    let (config, records) = read(rt, alloc, None, both)?;
    match config {
        Some(config) => Ok(order_of(alloc, &config, &records)?),
        None => Ok(Vec::new(alloc)),
    }
}
