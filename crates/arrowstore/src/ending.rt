// Reports how a request of a store ended.
ghost use Rattle.std.specs.Prelude.{◌≡◌, ◌≢◌, IsTrue, OnOk};
ghost use Rattle.std.specs.Io.KnownBytes.{Appends};
ghost use Rattle.cli_reports.specs.Ending.{TellsRefusal};
ghost use Rattle.cli_reports.specs.LeftOut.{left_out_lines, left_out_text};
ghost use Rattle.cli_reports.specs.Told.{told};
ghost use Rattle.cli_reports.specs.Warnings.{TellsNotes};
ghost use Rattle.store.specs.Salvaging.{plain_left};
ghost use Rattle.arrowstore.specs.OnFiles.{status_of};

use cli_reports::{
    Audience, Ended, Known, Notes, Refusal, Status, end, tell_lacking, tell_left_out, tell_notes,
};
use std::alloc::Global;
use std::io::{self, Write};
use store::LeftOut;

fn tell_each<E: Write>(left_out: &[LeftOut], errors: &mut E) -> io::Result<()>
    ensures { OnOk result (Appends (E.contents errors.old) (E.contents errors.new) (left_out_lines (plain_left left_out.now))) }
{
    for segment in left_out {
        tell_left_out(segment.place, segment.rows, errors)?;
    }
    Ok(())
}

fn tell_all<E: Write>(left_out: &[LeftOut], audience: Audience, errors: &mut E) -> io::Result<()>
    ensures { OnOk result (Appends (E.contents errors.old) (E.contents errors.new) (left_out_text audience (plain_left left_out.now))) }
{
    tell_each(left_out, errors)?;
    tell_lacking(audience, errors)
}

fn end_partly<E: Write>(left_out: &[LeftOut], audience: Audience, errors: &mut E) -> Ended
    ensures status { result.status ≡ Status.PartlyDone }
    ensures lines { IsTrue result.is_reported → Appends (E.contents errors.old) (E.contents errors.new) (left_out_text audience (plain_left left_out.now)) }
{
    Ended {
        status: Status::PartlyDone,
        is_reported: tell_all(left_out, audience, errors).is_ok(),
    }
}

/// Reports how a request ended: what was left out if it succeeded, or else the refusal, with what is known of it.
pub(crate) fn end_whole_or_partly<E: Write>(
    done: Result<(), Refusal>,
    left_out: &[LeftOut],
    known: Known<'_>,
    audience: Audience,
    errors: &mut E,
) -> Ended
    ensures ends { result.status ≡ status_of done (plain_left left_out.now) }
    ensures silent { result.status ≡ Status.Done → (errors.new ≡ errors.old) × IsTrue result.is_reported }
    ensures lines { result.status ≡ Status.PartlyDone → IsTrue result.is_reported
        → Appends (E.contents errors.old) (E.contents errors.new) (left_out_text audience (plain_left left_out.now)) }
    ensures line { TellsRefusal (told audience known.entry) result (E.contents errors.old) (E.contents errors.new) }
{
    match done {
        Ok(()) => {
            if left_out.is_empty() {
                end(done, known, audience, errors)
            } else {
                end_partly(left_out, audience, errors)
            }
        }
        Err(_) => end(done, known, audience, errors),
    }
}

/// Tells the notes of a request that is wholly done.
pub(crate) fn tell_if_done<E: Write>(
    alloc: Global,
    done: &Result<(), Refusal>,
    left_out: &[LeftOut],
    notes: Notes,
    audience: Audience,
    errors: &mut E,
)
    ensures done { status_of done.now (plain_left left_out.now) ≡ Status.Done → TellsNotes E.contents audience notes.entry errors.old errors.new }
    ensures silent { status_of done.now (plain_left left_out.now) ≢ Status.Done → errors.new ≡ errors.old }
{
    if done.is_ok() && left_out.is_empty() {
        tell_notes(alloc, notes, audience, errors);
    }
}
