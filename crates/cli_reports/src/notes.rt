// What is told of a command that is done.
ghost use Rattle.std.specs.Prelude.{◌≡◌, string_bytes, IfOk};
ghost use Rattle.cli_reports.specs.Output.{AppendsFront};
ghost use Rattle.cli_reports.specs.Notes.{note_line, note_to, TellsNote};

use crate::{Audience, write_whole};
use std::alloc::{AllocError, Global};
use std::fmt::{self, Write as _};
use std::io::Write;

/// What a command that is done has brought, in rows.
#[derive(Clone, Copy)]
pub enum Note {
    /// This many rows were appended to a table.
    Appended(u64),
    /// A table was made that has this many rows.
    Made(u64),
    /// A table was made that has this many rows, in place of one that had `replaced`.
    Replaced { rows: u64, replaced: u64 },
    /// This many rows of a query were saved.
    Saved(u64),
    /// A table of this many rows was dropped.
    Dropped(u64),
}

// A number of rows, as words.
#[derive(Drop)]
struct Rows {
    count: u64,
}

impl fmt::Display for Rows {
    ghost use Rattle.std.specs.Prelude.{Some, codes};
    ghost use Rattle.cli_reports.specs.Hint.{counted};

    ghost output = { λ rows. Some (counted rows.count (codes "row")) };

    fn fmt<W: fmt::Write>(&self, f: &mut fmt::Formatter<W>) -> fmt::Result {
        let plural = if self.count == 1 { "" } else { "s" };
        write!(f, "{} row{}", self.count, plural)
    }
}

impl fmt::Display for Note {
    ghost use Rattle.std.specs.Prelude.{Some};
    ghost use Rattle.cli_reports.specs.Notes.{note_text};

    ghost output = { λ note. Some (note_text note) };

    #[tactic(auto, unfolding(crate::specs::Notes::note_text))]
    fn fmt<W: fmt::Write>(&self, f: &mut fmt::Formatter<W>) -> fmt::Result {
        match self {
            Note::Appended(count) => write!(f, "Appended {}.", Rows { count: *count }),
            Note::Made(count) => write!(f, "The table has {}.", Rows { count: *count }),
            Note::Replaced { rows, replaced } => {
                let rows = Rows { count: *rows };
                let replaced = Rows { count: *replaced };
                write!(
                    f,
                    "The table has {rows}. It has replaced one of {replaced}."
                )
            }
            Note::Saved(count) => write!(f, "Saved {}.", Rows { count: *count }),
            Note::Dropped(count) => write!(f, "Dropped a table of {}.", Rows { count: *count }),
        }
    }
}

fn line_of(alloc: Global, note: Note) -> Result<String, AllocError>
    ensures { IfOk result (λ text. string_bytes text ≡ note_line note) }
{
    let mut text = String::new(alloc);
    writeln!(text, "{note}")?;
    Ok(text)
}

// Writes a text, or some first bytes of it if the writer fails.
#[tactic(auto, using(crate::proofs::TextLemmas::front_of_written))]
pub(crate) fn write_front<E: Write>(text: &str, errors: &mut E)
    ensures { AppendsFront (E.contents errors.old) (E.contents errors.new) text.now }
{
    let _written = write_whole(errors, text.as_bytes());
}

#[tactic(auto, using(crate::proofs::TextLemmas::no_front))]
fn write_note<E: Write>(alloc: Global, note: Note, errors: &mut E)
    ensures { AppendsFront (E.contents errors.old) (E.contents errors.new) (note_line note) }
{
    match line_of(alloc, note) {
        Ok(line) => write_front(line.as_str(), errors),
        Err(_) => {}
    }
}

/// Tells the note of a command that is done, on a terminal or to a script. The command stays done if memory is refused or the writer fails.
pub(crate) fn tell_note<E: Write>(
    alloc: Global,
    note: Option<Note>,
    audience: Audience,
    errors: &mut E,
)
    ensures { TellsNote E.contents (note_to audience note) errors.old errors.new }
{
    match note {
        Some(note) if audience.is_advised() => write_note(alloc, note, errors),
        _ => {}
    }
}
