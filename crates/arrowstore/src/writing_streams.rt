// Which command lines have a stream or an archive written, which no terminal is to get.
ghost use Rattle.std.specs.Prelude.{◌≡◌, ◌⊎◌, true, map};
ghost use Rattle.arrowstore.specs.Arguments.{AreRecode};
ghost use Rattle.cli_requests.specs.StoreWords.{is_of_store};

use crate::command_line::{Action, action_of};
use cli_reports::is_own;
use cli_requests::{StoreCommand, StoreRequest, is_of_store, request_of};
use std::alloc::Global;
use std::convert::AsStr;

fn is_of_stream(request: &StoreRequest<'_>) -> bool {
    matches!(
        request,
        StoreRequest::Salvage { .. }
            | StoreRequest::Send { .. }
            | StoreRequest::Command {
                command: StoreCommand::Export { .. },
                ..
            }
    )
}

fn asks_stream<S: AsStr>(alloc: Global, arguments: &[S]) -> bool {
    match request_of(alloc, arguments) {
        Ok(request) => is_of_stream(&request),
        Err(_) => false,
    }
}

fn is_of_stored_stream<S: AsStr>(alloc: Global, arguments: &[S]) -> bool
    ensures { result ≡ true → is_of_store (map S.text arguments.now) ≡ true }
{
    is_of_store(arguments) && asks_stream(alloc, arguments)
}

fn is_recode<S: AsStr>(alloc: Global, arguments: &[S]) -> bool
    ensures { result ≡ true → AreRecode (map S.text arguments.now) }
{
    if is_own(arguments) {
        return false;
    }
    match action_of(alloc, arguments) {
        Ok(Action::Recode) => true,
        Err(_) => false,
    }
}

/// Returns whether the arguments are those of `recode`, or right ones of `export`, `salvage` or `send`, so that a stream or an archive is written.
pub fn writes_stream<S: AsStr>(alloc: Global, arguments: &[S]) -> bool
    ensures { result ≡ true → AreRecode (map S.text arguments.now) ⊎ (is_of_store (map S.text arguments.now) ≡ true) }
{
    is_of_stored_stream(alloc, arguments) || is_recode(alloc, arguments)
}
