// Whether a command waits for the lock of its store.
use std::convert::AsStr;

/// Returns whether these arguments have the option `--wait`: every command that opens a store takes it. What follows `--` is no option.
pub fn asks_to_wait<S: AsStr>(arguments: &[S]) -> bool {
    for argument in arguments {
        match argument.as_str() {
            "--wait" => return true,
            "--" => return false,
            _ => {}
        }
    }
    false
}
