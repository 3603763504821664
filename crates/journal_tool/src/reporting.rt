//! Writes lines of columns, separated by tabs or as JSON objects.

use crate::ending::Ending;
use std::io::{self, Write};
use wire::Digest;

/// The value of a column. A missing value is shown as a dash, or in JSON as null.
#[derive(Clone, Copy)]
pub(crate) enum Column<'a> {
    /// A number in decimal digits, or a missing one.
    Number(Option<u64>),
    /// A word. It contains no quote and no backslash, so that it needs no escaping.
    Word(&'a str),
    /// The first four bytes of a digest, as a number.
    Short(Option<u32>),
    /// A whole digest.
    Digest(&'a Digest),
}

/// The first four bytes of a digest, as a number.
pub(crate) fn short(digest: &Digest) -> u32 {
    let [first, second, third, fourth, ..] = digest.0;
    short_of([first, second, third, fourth])
}

/// The first four bytes of a digest as a number, by which the tool shows the digest.
pub(crate) fn short_of(bytes: [u8; 4]) -> u32 {
    u32::from_be_bytes(bytes)
}

/// Writes a line with the names of the columns. If there are none, or lines are JSON objects, it writes nothing.
pub(crate) fn put_names<W: Write>(
    json: bool,
    names: &[&str],
    writer: &mut W,
) -> Result<(), Ending> {
    if json || names.is_empty() {
        return Ok(());
    }
    for (i, name) in names.iter().enumerate() {
        if i > 0 {
            write!(writer, "\t")?;
        }
        write!(writer, "{name}")?;
    }
    writeln!(writer, "")?;
    Ok(())
}

/// Writes a line with these columns.
pub(crate) fn put_line<W: Write>(
    json: bool,
    names: &[&str],
    columns: &[Column<'_>],
    writer: &mut W,
) -> Result<(), Ending> {
    for (i, (name, column)) in names.iter().zip(columns).enumerate() {
        if json {
            put_member(i, name, *column, writer)?;
        } else {
            put_column(i, *column, writer)?;
        }
    }
    writeln!(writer, "{}", if json { "}" } else { "" })?;
    Ok(())
}

// Writes the value of a column, after a tab if it isn't the first one.
fn put_column<W: Write>(i: usize, column: Column<'_>, writer: &mut W) -> io::Result<()> {
    if i > 0 {
        write!(writer, "\t")?;
    }
    match column {
        Column::Number(Some(number)) => write!(writer, "{number}"),
        Column::Word(word) => write!(writer, "{word}"),
        Column::Short(Some(short)) => write!(writer, "{short:08x}"),
        Column::Digest(digest) => put_digest(digest, writer),
        Column::Number(None) | Column::Short(None) => write!(writer, "-"),
    }
}

// Writes a column as a member of a JSON object, after a comma if it isn't the first one.
fn put_member<W: Write>(
    i: usize,
    name: &str,
    column: Column<'_>,
    writer: &mut W,
) -> io::Result<()> {
    write!(writer, "{}\"{name}\":", if i > 0 { "," } else { "{" })?;
    match column {
        Column::Number(Some(number)) => write!(writer, "{number}"),
        Column::Word(word) => write!(writer, "\"{word}\""),
        Column::Short(Some(short)) => write!(writer, "\"{short:08x}\""),
        Column::Digest(digest) => {
            write!(writer, "\"")?;
            put_digest(digest, writer)?;
            write!(writer, "\"")
        }
        Column::Number(None) | Column::Short(None) => write!(writer, "null"),
    }
}

/// Writes bytes in hexadecimal digits.
pub(crate) fn put_hex<W: Write>(bytes: &[u8], writer: &mut W) -> io::Result<()> {
    for byte in bytes {
        write!(writer, "{byte:02x}")?;
    }
    Ok(())
}

fn put_digest<W: Write>(digest: &Digest, writer: &mut W) -> io::Result<()> {
    put_hex(&digest.0, writer)
}
