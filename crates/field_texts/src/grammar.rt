// Tests whether a text is that of a field. Enclosures are kept on the heap, so no nesting overflows the stack.
ghost use Rattle.std.specs.Prelude.{◌≡◌, ◌↔◌, IfOk, Bool, reverse, true};
ghost use Rattle.field_texts.specs.Typed.{IsFieldText};
ghost use Rattle.field_texts.specs.inner.OpeningView.{opening_view};
ghost use Rattle.facts.specs.Outcomes.{Reads};
ghost use Rattle.field_texts.specs.inner.Standing.{close_of, begun, continued, is_over, step};
ghost use Rattle.field_texts.specs.declared.grammar.Place.TheVariants.{BeforeType, AfterType};

use crate::scan::{Opening, name_of, nullable_suffix_of, opening_of, strip};
use std::alloc::{AllocError, Global};

/// What a type is enclosed in.
#[derive(Clone, Copy)]
pub(crate) enum Enclosure {
    List,
    FixedList,
    Struct,
}

/// The position of the test.
#[derive(Clone, Copy)]
pub(crate) enum Place {
    BeforeType,
    AfterType,
}

impl Enclosure {
    fn close(self) -> &'static str
        ensures { result.now ≡ close_of self }
    {
        match self {
            Enclosure::List | Enclosure::Struct => ">",
            Enclosure::FixedList => ")",
        }
    }
}

// Reads on after the opening of a type: returns the enclosure that it begins, or `None` if the type ends there.
#[tactic(auto, unfolding(crate::specs::inner::Standing::begun))]
fn begin<'a>(opening: Opening, text: &'a str) -> Option<(Option<Enclosure>, &'a str)>
    ensures { Reads (λ p. (p.0, p.1.now)) result (begun (opening_view opening.entry) text.now) }
{
    match opening {
        Opening::Flat(_, _) => Some((None, nullable_suffix_of(text).1)),
        Opening::List | Opening::LargeList => Some((Some(Enclosure::List), text)),
        Opening::FixedList(_) => Some((Some(Enclosure::FixedList), text)),
        Opening::Struct => {
            if let Some(rest) = strip(text, ">") {
                return Some((None, nullable_suffix_of(rest).1));
            }
            let (_, rest) = name_of(text)?;
            Some((Some(Enclosure::Struct), rest))
        }
    }
}

// Reads on after a type: returns whether its enclosure is closed; if not, it has another field.
#[tactic(auto, unfolding(crate::specs::inner::Standing::continued))]
fn go_on(innermost: Enclosure, text: &str) -> Option<(bool, &str)>
    ensures { Reads (λ p. (p.0, p.1.now)) result (continued innermost text.now) }
{
    if let Some(rest) = strip(text, innermost.close()) {
        return Some((true, nullable_suffix_of(rest).1));
    }
    let Enclosure::Struct = innermost else {
        return None;
    };
    let (_, rest) = name_of(strip(text, ",")?)?;
    Some((false, rest))
}

#[tactic(auto, unfolding(crate::specs::inner::Standing::step))]
fn before_type<'a>(
    around: &mut Vec<Enclosure>,
    text: &'a str,
    limited: bool,
) -> Result<Option<(Place, &'a str)>, AllocError>
    ensures { IfOk result (λ next. Reads (λ p. (p.0, reverse around.new.items, p.1.now)) next (step limited BeforeType (reverse around.old.items) text.now)) }
{
    let Some((opening, rest)) = opening_of(text, limited) else {
        return Ok(None);
    };
    let Some((opened, rest)) = begin(opening, rest) else {
        return Ok(None);
    };
    let Some(opened) = opened else {
        return Ok(Some((Place::AfterType, rest)));
    };
    around.push(opened)?;
    Ok(Some((Place::BeforeType, rest)))
}

#[tactic(auto, unfolding(crate::specs::inner::Standing::step))]
fn after_type<'a>(around: &mut Vec<Enclosure>, text: &'a str) -> Option<(Place, &'a str)>
    ensures { (limited : Bool) → Reads (λ p. (p.0, reverse around.new.items, p.1.now)) result (step limited AfterType (reverse around.old.items) text.now) }
{
    let innermost = *around.last()?;
    let (closed, rest) = go_on(innermost, text)?;
    if !closed {
        return Some((Place::BeforeType, rest));
    }
    around.pop();
    Some((Place::AfterType, rest))
}

fn take_step<'a>(
    around: &mut Vec<Enclosure>,
    place: Place,
    text: &'a str,
    limited: bool,
) -> Result<Option<(Place, &'a str)>, AllocError>
    ensures { IfOk result (λ next. Reads (λ p. (p.0, reverse around.new.items, p.1.now)) next (step limited place (reverse around.old.items) text.now)) }
{
    match place {
        Place::BeforeType => before_type(around, text, limited),
        Place::AfterType => Ok(after_type(around, text)),
    }
}

// Returns whether a type was read and no enclosure is open.
fn is_over(place: Place, around: &[Enclosure]) -> bool
    ensures { result ≡ is_over place around.now }
{
    match place {
        Place::BeforeType => false,
        Place::AfterType => around.is_empty(),
    }
}

/// Returns whether the text is that of a field. If `limited`, its numbers must be below `NUMBER_END`.
pub(crate) fn is_field_text(alloc: Global, text: &str, limited: bool) -> Result<bool, AllocError>
    ensures { IfOk result (λ is. (is ≡ true) ↔ IsFieldText limited text.now) }
{
    let Some((_, start)) = name_of(text) else {
        return Ok(false);
    };
    let mut around = Vec::new(alloc);
    let mut place = Place::BeforeType;
    let mut rest = start;
    'steps: while !is_over(place, &around) {
        let Some((next, after)) = take_step(&mut around, place, rest, limited)? else {
            return Ok(false);
        };
        place = next;
        rest = after;
    }
    Ok(rest.is_empty())
}
