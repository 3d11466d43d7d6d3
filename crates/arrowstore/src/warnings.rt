// What a command that is done leaves in doubt, for a person or a script.
use crate::about_words::is_shown;
use crate::asking_again::Served;
use crate::copying_files::open_to_read;
use crate::literal_form::{literal_form, literal_of};
use cli_reports::{Audience, Note, Refusal, Warning};
use cli_requests::{QueryWords, StoreCommand, StoreRequest};
use sector_dev::LockFile;
use std::fs::OpenFile;
use std::io::{Read, Seek, Write};
use std::rt::Files;
use text_import::TextForm;

// Returns the words of a query that no row has met. One that is to have no rows is none.
fn unmet_query<'r, 'a>(
    request: &'r StoreRequest<'a>,
    served: Served<'_>,
    note: Option<Note>,
) -> Option<&'r QueryWords<'a>> {
    let StoreRequest::Command { command, .. } = request else {
        return None;
    };
    let query = match (command, note) {
        (StoreCommand::Query { query, .. }, _) if served.is_output_empty => query,
        (StoreCommand::SaveAs { query, .. }, Some(Note::Saved(0))) => query,
        _ => return None,
    };
    if query.limit == Some(0) {
        None
    } else {
        Some(query)
    }
}

fn warning_about<'a>(literal: &'a str) -> Option<Warning<'a>> {
    let form = literal_form(literal)?;
    let text = if is_shown(literal) {
        Some(literal)
    } else {
        None
    };
    Some(Warning::Literal { text, form })
}

// Returns the warning about the first literal that may not have been meant. Only columns of texts take such literals.
fn doubted_literal<'a>(query: &QueryWords<'a>) -> Option<Warning<'a>> {
    for condition in &query.conditions {
        if let Some(literal) = literal_of(condition) {
            if let Some(warning) = warning_about(literal) {
                return Some(warning);
            }
        }
    }
    None
}

fn doubted_query<'a>(
    request: &StoreRequest<'a>,
    served: Served<'_>,
    note: Option<Note>,
) -> Option<Warning<'a>> {
    let query = unmet_query(request, served, note)?;
    doubted_literal(query)
}

// Returns the warning that the commits of a store do not agree. There is none if it can't be opened again: another program may have locked
// it by now.
fn doubted_commits<
    F: Read + Write + Seek + OpenFile + LockFile + Drop,
    H: Files<File = F> + AllocGlobal,
>(rt: &H, path: &str) -> Option<Warning<'static>> {
    let mut store = open_to_read(rt, path).ok()?;
    if store.commits_agree().ok()? {
        None
    } else {
        Some(Warning::OtherCommits)
    }
}

// Returns whether a request appends a CSV text.
fn is_of_csv(request: &StoreRequest<'_>) -> bool {
    matches!(
        request,
        StoreRequest::Command {
            command: StoreCommand::AppendText {
                form: TextForm::Csv(_),
                ..
            },
            ..
        }
    )
}

fn warning_of_text(served: Served<'_>) -> Option<Warning<'static>> {
    match served.open_quotation {
        Some(line) => Some(Warning::OpenQuotation(line)),
        None => None,
    }
}

// Returns the path of the store that a request checks.
fn checked_store<'a>(request: &StoreRequest<'a>) -> Option<&'a str> {
    match request {
        StoreRequest::Command {
            path,
            command: StoreCommand::Check,
        } => Some(path),
        _ => None,
    }
}

/// Returns the warning about a request that is done, if it has one and someone is told it.
pub(crate) fn warning_of<
    'a,
    F: Read + Write + Seek + OpenFile + LockFile + Drop,
    H: Files<File = F> + AllocGlobal,
>(
    rt: &H,
    request: &StoreRequest<'a>,
    served: Served<'_>,
    note: Option<Note>,
    done: &Result<(), Refusal>,
    audience: Audience,
) -> Option<Warning<'a>> {
    if done.is_err() || !audience.is_advised() {
        return None;
    }
    if is_of_csv(request) {
        return warning_of_text(served);
    }
    match checked_store(request) {
        Some(path) => doubted_commits(rt, path),
        None => doubted_query(request, served, note),
    }
}
