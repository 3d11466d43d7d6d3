// Plays the calls of a script one after another, and reports what they answer.
ghost use Rattle.std.specs.Prelude.{◌≡◌, ◌++◌, string_bytes, IfOk, OnOk};
ghost use Rattle.sector_dev.specs.View.{faults_of};
ghost use Rattle.store.specs.Places.{reply_in, replies_of};
ghost use Rattle.cli_replay.specs.Playing.{IsPlayedLine, Plays, line_number, refused_text, reply_text, replies_text};

use cli_reports::Refusal;
use sector_dev::{ModelDevice, SectorDevice};
use std::alloc::{AllocError, Global};
use std::fmt::Write as _;
use std::io::{Empty, Read};
use store::{Call, Reply, StoreOrDevice, answer};

// Plays one call, unless the device has stopped.
fn play_line(
    alloc: Global,
    place: StoreOrDevice<ModelDevice>,
    call: Call,
) -> (StoreOrDevice<ModelDevice>, Option<Reply>)
    ensures { IsPlayedLine ⟦<ModelDevice as SectorDevice>⟧ (λ d. (faults_of d).stopped) ⟦<Empty as Read>⟧.remaining place call result.1 result.0 }
{
    if place.device().has_stopped() {
        // An explicit call: inlined, the drops of all kinds of call would make up most of the function.
        drop(call);
        return (place, None);
    }
    let (next, reply) = answer(alloc, place, call);
    (next, Some(reply))
}

/// Answers the calls in order until the device has stopped.
pub(crate) fn play(
    alloc: Global,
    place: StoreOrDevice<ModelDevice>,
    calls: Vec<Call>,
) -> Result<(StoreOrDevice<ModelDevice>, Vec<Reply>), AllocError>
    ensures { IfOk result (λ r. Plays ⟦<ModelDevice as SectorDevice>⟧ (λ d. (faults_of d).stopped) ⟦<Empty as Read>⟧.remaining place calls.items
        (replies_of r.1.items) r.0) }
{
    let mut replies = Vec::with_capacity(alloc, calls.len())?;
    let mut place = place;
    for call in calls {
        let (next, reply) = play_line(alloc, place, call);
        place = next;
        if let Some(reply) = reply {
            replies.push(reply)?;
        }
    }
    Ok((place, replies))
}

/// Appends a refusal as a line.
pub(crate) fn push_refusal(text: &mut String, refusal: Refusal) -> Result<(), AllocError>
    ensures { OnOk result (string_bytes text.new ≡ string_bytes text.old ++ refused_text refusal) }
{
    write!(text, "refused {refusal}\n")
}

fn line_number(begun: u64, place: usize) -> u64
    ensures { result ≡ line_number begun place }
{
    begun.saturating_add(place as u64).saturating_add(1)
}

// Appends the reply to an item whose first line has this number.
fn push_reply(text: &mut String, number: u64, reply: &Reply) -> Result<(), AllocError>
    ensures { OnOk result (string_bytes text.new ≡ string_bytes text.old ++ reply_text number (reply_in reply.now)) }
{
    match reply {
        Reply::Refused(refusal) => push_refusal(text, Refusal::Store(*refusal)),
        Reply::RefusedAt { place, refusal } => {
            push_refusal(text, Refusal::Line(line_number(number, *place), *refusal))
        }
        Reply::NotOpened(refusal) => push_refusal(text, Refusal::Opening(*refusal)),
        _ => text.push_str("ok\n"),
    }
}

/// Returns a line for each reply, of items whose first lines have these numbers.
pub(crate) fn lines_of_replies(
    alloc: Global,
    numbers: &[u64],
    replies: &[Reply],
) -> Result<String, AllocError>
    ensures { IfOk result (λ text. string_bytes text ≡ replies_text numbers.now (replies_of replies.now)) }
{
    let mut text = String::new(alloc);
    for (place, reply) in replies.iter().enumerate() {
        match numbers.get(place) {
            Some(number) => push_reply(&mut text, *number, reply)?,
            None => {}
        }
    }
    Ok(text)
}
