//! Draws the certificates of a journal as a graph in the language of Graphviz: one row for each round, one column for each member.

use crate::ending::Ending;
use crate::reporting::short;
use journal_account::{Fate, Graph, Vertex};
use std::io::{self, Write};
use wire::Author;

/// How many colours there are, to tell certificates apart that different leaders order.
const COLOURS: u64 = 12;

/// Draws the rounds from `first` to `last`, both included, as far as there are certificates. Round 0 is that of the genesis certificates.
/// If the journal begins with a checkpoint, nothing below its garbage-collection round is drawn.
pub(crate) fn draw<W: Write>(
    graph: &Graph,
    from: u64,
    to: u64,
    writer: &mut W,
) -> Result<(), Ending> {
    let last = graph.last_round().min(to);
    let from = graph.first_round().max(from);
    begin(writer)?;
    if from <= last {
        for round in from..last.saturating_add(1) {
            put_row(graph, round, writer)?;
            if round > from {
                put_edges(graph, round, writer)?;
            }
        }
    }
    writeln!(writer, "}}")?;
    Ok(())
}

/// Draws an empty graph, for a journal without a record.
pub(crate) fn draw_nothing<W: Write>(writer: &mut W) -> Result<(), Ending> {
    begin(writer)?;
    writeln!(writer, "}}")?;
    Ok(())
}

fn begin<W: Write>(writer: &mut W) -> io::Result<()> {
    writeln!(writer, "digraph journal {{")?;
    writeln!(writer, "  rankdir=BT")?;
    writeln!(
        writer,
        "  node [shape=box, style=filled, colorscheme=set312, fillcolor=white]"
    )
}

// Writes the row of a round: its name, and a place for each member, from left to right.
fn put_row<W: Write>(graph: &Graph, round: u64, writer: &mut W) -> io::Result<()> {
    writeln!(writer, "  {{")?;
    writeln!(writer, "    rank=same")?;
    write!(
        writer,
        "    round{round} [shape=plaintext, style=solid, label=\"round {round}"
    )?;
    if round % 2 == 1 {
        let wave = round / 2 + 1;
        write!(
            writer,
            "\\nwave {wave}: {}",
            fate_in_words(graph.fate_of(wave))
        )?;
    }
    writeln!(writer, "\"]")?;
    for member in 0..graph.members() {
        put_place(graph, round, Author(member), writer)?;
    }
    write!(writer, "    round{round}")?;
    for member in 0..graph.members() {
        write!(writer, " -> r{round}m{member}")?;
    }
    writeln!(writer, " [style=invis]")?;
    writeln!(writer, "  }}")
}

fn fate_in_words(fate: Fate) -> &'static str {
    match fate {
        Fate::Committed => "committed",
        Fate::Skipped => "skipped",
        Fate::Open => "open",
    }
}

// Writes the place of a round and a member: its certificate, or an empty place.
fn put_place<W: Write>(
    graph: &Graph,
    round: u64,
    author: Author,
    writer: &mut W,
) -> io::Result<()> {
    write!(writer, "    r{round}m{} [group=m{}, ", author.0, author.0)?;
    let leads = leads(graph, round, author);
    if round == 0 {
        writeln!(writer, "label=\"{} genesis\"]", author.0)
    } else {
        match graph.at(round, author) {
            Some(vertex) => put_vertex(graph, vertex, leads, writer),
            None if leads => writeln!(writer, "style=dotted, label=\"{}\\nno leader\"]", author.0),
            None => writeln!(writer, "style=invis, label=\"\"]"),
        }
    }
}

// Whether the certificate of this round and author is the leader of a wave.
fn leads(graph: &Graph, round: u64, author: Author) -> bool {
    round % 2 == 1 && graph.leader_of(round / 2 + 1) == Some(author)
}

// Writes a certificate: author, digest, the wave whose leader orders it, whether it is a leader itself, and whether it is below the floor.
fn put_vertex<W: Write>(
    graph: &Graph,
    vertex: &Vertex,
    leads: bool,
    writer: &mut W,
) -> io::Result<()> {
    let named = vertex.named;
    write!(
        writer,
        "label=\"{} {:08x}",
        named.author.0,
        short(&named.digest)
    )?;
    if let Some(wave) = vertex.wave {
        write!(writer, "\\nwith wave {wave}")?;
    }
    write!(writer, "\"")?;
    if let Some(wave) = vertex.wave {
        write!(
            writer,
            ", fillcolor={}",
            wave.saturating_sub(1) % COLOURS + 1
        )?;
    }
    if leads {
        write!(writer, ", peripheries=2")?;
    }
    if named.round.number() < graph.floor() {
        write!(writer, ", style=\"filled,dashed\"")?;
    }
    writeln!(writer, "]")
}

// Writes the edges from the certificates of a round to their parents.
fn put_edges<W: Write>(graph: &Graph, round: u64, writer: &mut W) -> io::Result<()> {
    let below = round.saturating_sub(1);
    for member in 0..graph.members() {
        if let Some(vertex) = graph.at(round, Author(member)) {
            for parent in &vertex.parents {
                if below == 0 || graph.at(below, *parent).is_some() {
                    writeln!(writer, "  r{round}m{member} -> r{}m{}", below, parent.0)?;
                }
            }
        }
    }
    Ok(())
}
