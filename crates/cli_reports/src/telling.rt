// Reports a refusal to its audience.
ghost use Rattle.std.specs.Prelude.{◌≡◌, ◌++◌, Bool, [], if◌then◌else◌, OnOk};
ghost use Rattle.std.specs.Io.KnownBytes.{Appends};
ghost use Rattle.cli_reports.specs.Reported.{refusal_line};
ghost use Rattle.cli_reports.specs.Told.{audience_after_output, is_advised, is_unheard, remedy_line, told, word_front};

use crate::{Known, Refusal, Side};
use std::io::{self, IsTerminal, Write};

/// Who reads the report of a refusal.
#[derive(Clone, Copy, PartialEq, Eq)]
pub enum Audience {
    /// A program or a file, which gets only the line of the refusal.
    Program,
    /// A person at a terminal, who also gets a line that says what to do.
    Terminal,
    /// A program that asks for the second line too, which begins with the word of the refusal.
    Script,
    /// A program or a person, where the reader of the output is gone, as `head` once it has its lines: gets no more than the line of the refusal, and
    /// nothing if only the output failed and nothing was changed.
    Departed,
}

impl Audience {
    /// Returns who reads what is written to a standard stream.
    pub fn of<T: IsTerminal>(stream: &T) -> Audience {
        if stream.is_terminal() {
            Audience::Terminal
        } else {
            Audience::Program
        }
    }

    /// Returns whether the report has a second line, and so whether its causes are asked for.
    pub fn is_advised(self) -> bool
        ensures { result ≡ is_advised self }
    {
        matches!(self, Audience::Terminal | Audience::Script)
    }
}

/// An output that knows whether its reader is gone, whether anything was written, and why it failed.
pub trait Output {
    /// Its reader is gone.
    ghost unread: { Self → Bool };

    /// Returns whether its reader is gone: a write was answered so, as by a pipe that its reader has closed.
    fn is_unread(&self) -> bool
        ensures { result ≡ unread self.now };

    /// Returns whether no byte was written.
    fn is_empty(&self) -> bool;

    /// Returns the system's error if the last write or flush failed.
    fn failure(&self) -> Option<io::Error>;
}

/// Returns who reads the report of a run that has written to an output: whoever has closed it, as `head` does, knows that it failed. A script that asks
/// for words gets them all the same.
pub fn audience_after_output<W: Output>(audience: Audience, output: &W) -> Audience
    ensures { result ≡ audience_after_output audience (W.unread output.now) }
{
    match (audience, output.is_unread()) {
        (Audience::Program | Audience::Terminal, true) => Audience::Departed,
        _ => audience,
    }
}

// Returns whether only the output failed, of a command that changes nothing.
fn is_unheard(refusal: Refusal, changes: bool) -> bool
    ensures { result ≡ is_unheard refusal changes }
{
    match refusal {
        Refusal::Io(Side::Output) => !changes,
        _ => false,
    }
}

#[tactic(auto, unfolding(crate::specs::Reported::refusal_line))]
fn tell_line<E: Write>(refusal: Refusal, errors: &mut E) -> io::Result<()>
    ensures { OnOk result (Appends (E.contents errors.old) (E.contents errors.new) (refusal_line refusal)) }
{
    writeln!(errors, "refused {refusal}")
}

// Reports any refusal except that of an output that nobody reads and that leaves nothing to be told.
fn tell_if_heard<E: Write>(refusal: Refusal, changes: bool, errors: &mut E) -> io::Result<()>
    ensures { OnOk result (Appends (E.contents errors.old) (E.contents errors.new)
        (if is_unheard refusal changes then [] else refusal_line refusal)) }
{
    if is_unheard(refusal, changes) {
        Ok(())
    } else {
        tell_line(refusal, errors)
    }
}

// Writes what is refused, if it is known, and what to do.
#[tactic(auto, unfolding(crate::specs::Told::remedy_line))]
fn tell_remedy<E: Write>(refusal: Refusal, known: Known<'_>, errors: &mut E) -> io::Result<()>
    ensures { OnOk result (Appends (E.contents errors.old) (E.contents errors.new) (remedy_line known.entry refusal)) }
{
    let remedy = known.remedy(refusal);
    match known.hint {
        None => writeln!(errors, "{remedy}"),
        Some(hint) => writeln!(errors, "{hint}{remedy}"),
    }
}

// The same after the word of the refusal.
fn tell_word<E: Write>(refusal: Refusal, known: Known<'_>, errors: &mut E) -> io::Result<()>
    ensures { OnOk result (Appends (E.contents errors.old) (E.contents errors.new) (word_front known.entry refusal ++ remedy_line known.entry refusal)) }
{
    let word = refusal.word(known);
    write!(errors, "{word}: ")?;
    tell_remedy(refusal, known, errors)
}

/// Reports a refusal, with what is known of it.
#[tactic(auto, unfolding(crate::specs::Told::told))]
pub(crate) fn tell<E: Write>(
    refusal: Refusal,
    known: Known<'_>,
    audience: Audience,
    errors: &mut E,
) -> io::Result<()>
    ensures { OnOk result (Appends (E.contents errors.old) (E.contents errors.new) (told audience known.entry refusal)) }
{
    match audience {
        Audience::Program => tell_line(refusal, errors),
        Audience::Departed => tell_if_heard(refusal, known.changes, errors),
        Audience::Terminal => {
            tell_line(refusal, errors)?;
            tell_remedy(refusal, known, errors)
        }
        Audience::Script => {
            tell_line(refusal, errors)?;
            tell_word(refusal, known, errors)
        }
    }
}
