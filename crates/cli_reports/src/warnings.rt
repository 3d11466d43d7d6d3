// What a command that is done leaves in doubt.
ghost use Rattle.std.specs.Prelude.{◌≡◌, string_bytes, IfOk};
ghost use Rattle.cli_reports.specs.Output.{AppendsFront};
ghost use Rattle.cli_reports.specs.Warnings.{warning_line, TellsNotes};

use crate::notes::{tell_note, write_front};
use crate::{Audience, Note};
use std::alloc::{AllocError, Global};
use std::fmt::{self, Write as _};
use std::io::Write;

/// What it means that the two commits of a store do not agree. A later version of the program may have written one that this one does not
/// know.
pub const COMMITS_DISAGREE: &str =
    "The two commits do not agree: something other than this version of the program has changed one, and the last change may be undone.";

/// What to do about it: until then, both are there to be looked at.
pub const LOOK_FIRST: &str =
    "Look at the tables first: the next change overwrites the commit that is not in use.";

/// What of a literal may not have been meant.
#[derive(Clone, Copy)]
pub enum LiteralForm {
    /// It stands in quotation marks.
    Marked,
    /// It has a space at an end.
    Spaced,
    /// It is `null`.
    Null,
    /// It has ` and ` within it.
    Joined,
}

impl fmt::Display for LiteralForm {
    ghost use Rattle.std.specs.Prelude.{Some};
    ghost use Rattle.cli_reports.specs.Warnings.{form_text};

    ghost output = { λ form. Some (form_text form) };

    fn fmt<W: fmt::Write>(&self, f: &mut fmt::Formatter<W>) -> fmt::Result {
        f.write_str(match self {
            LiteralForm::Marked => "was taken with its quotation marks: leave them out.",
            LiteralForm::Spaced => "was taken with the spaces at its ends: leave them out.",
            LiteralForm::Null => "was taken as a text: `is null` and `is not null` ask for nulls.",
            LiteralForm::Joined =>
                "was taken as one text: give each condition as a word of its own.",
        })
    }
}

/// What a command that is done leaves in doubt.
#[derive(Clone, Copy)]
pub enum Warning<'a> {
    /// A CSV text ends within quotation marks that begin on this line, counted from 1.
    OpenQuotation(u64),
    /// No row meets the conditions of a query, and what one of them compares with has this form. It is printed if a terminal may be shown
    /// it.
    Literal {
        text: Option<&'a str>,
        form: LiteralForm,
    },
    /// The two commits of a store do not agree.
    OtherCommits,
}

/// What is told of a command that is done.
#[derive(Clone, Copy)]
pub struct Notes<'a> {
    pub note: Option<Note>,
    pub warning: Option<Warning<'a>>,
}

impl fmt::Display for Warning<'_> {
    ghost use Rattle.std.specs.Prelude.{Some};
    ghost use Rattle.cli_reports.specs.Warnings.{warning_text};

    ghost output = { λ warning. Some (warning_text warning) };

    #[tactic(auto, unfolding(crate::specs::Warnings::warning_text))]
    fn fmt<W: fmt::Write>(&self, f: &mut fmt::Formatter<W>) -> fmt::Result {
        match self {
            Warning::OpenQuotation(line) => write!(
                f,
                "The text ends within quotation marks that begin on line {line}: all that follows them is in one field."
            ),
            Warning::Literal {
                text: Some(text),
                form,
            } => write!(
                f,
                "No row meets the conditions. The literal `{text}` {form}"
            ),
            Warning::Literal { text: None, form } => {
                write!(f, "No row meets the conditions. A literal {form}")
            }
            Warning::OtherCommits => write!(f, "{COMMITS_DISAGREE} {LOOK_FIRST}"),
        }
    }
}

fn line_of(alloc: Global, warning: Warning<'_>) -> Result<String, AllocError>
    ensures { IfOk result (λ text. string_bytes text ≡ warning_line warning.entry) }
{
    let mut text = String::new(alloc);
    writeln!(text, "{warning}")?;
    Ok(text)
}

#[tactic(auto, using(crate::proofs::TextLemmas::no_front))]
fn write_warning<E: Write>(alloc: Global, warning: Warning<'_>, errors: &mut E)
    ensures { AppendsFront (E.contents errors.old) (E.contents errors.new) (warning_line warning.entry) }
{
    match line_of(alloc, warning) {
        Ok(line) => write_front(line.as_str(), errors),
        Err(_) => {}
    }
}

/// Tells the notes of a command that is done, on a terminal or to a script. The command stays done if memory is refused or the writer
/// fails.
pub fn tell_notes<E: Write>(alloc: Global, notes: Notes<'_>, audience: Audience, errors: &mut E)
    ensures { TellsNotes E.contents audience notes.entry errors.old errors.new }
{
    tell_note(alloc, notes.note, audience, errors);
    match notes.warning {
        Some(warning) if audience.is_advised() => write_warning(alloc, warning, errors),
        _ => {}
    }
}
