// The options behind the file of an `append`.
ghost use Rattle.std.specs.Prelude.{◌≡◌, option_map};
ghost use Rattle.std.specs.Option.{option_copied};
ghost use Rattle.facts.specs.Texts.{text_list};
ghost use Rattle.cli_scripts.specs.Appending.{once, with_option, options_of, dates_of, form_named, form_of};
ghost use Rattle.cli_scripts.specs.Plain.{plain_form, plain_options};

use civil_days::DateForm;
use text_import::{FieldForm, TextForm};

/// The values of the options that are given.
#[derive(Clone, Copy)]
pub(crate) struct AppendOptions<'a> {
    form: Option<&'a str>,
    null_text: Option<&'a str>,
    dates: Option<&'a str>,
}

#[tactic(auto, unfolding(crate::specs::Appending::once))]
fn once<'a>(before: Option<&str>, options: AppendOptions<'a>) -> Option<AppendOptions<'a>>
    ensures { option_map plain_options result ≡ once (option_copied before.entry) (plain_options options.entry) }
{
    match before {
        None => Some(options),
        Some(_) => None,
    }
}

// Returns these options and one more, unless it is none of the three or one of these.
#[tactic(auto, unfolding(crate::specs::Appending::with_option))]
fn with_option<'a>(
    option: &str,
    value: &'a str,
    others: AppendOptions<'a>,
) -> Option<AppendOptions<'a>>
    ensures { option_map plain_options result ≡ with_option option.now value.now (plain_options others.entry) }
{
    let value = Some(value);
    if option == "--as" {
        let form = value;
        once(others.form, AppendOptions { form, ..others })
    } else if option == "--null" {
        let null_text = value;
        once(
            others.null_text,
            AppendOptions {
                null_text,
                ..others
            },
        )
    } else if option == "--dates" {
        let dates = value;
        once(others.dates, AppendOptions { dates, ..others })
    } else {
        None
    }
}

/// Returns the options that these words are, or `None` if they are none.
#[tactic(auto, unfolding(crate::specs::Appending::options_of))]
pub(crate) fn options_of<'a>(words: &[&'a str]) -> Option<AppendOptions<'a>>
    ensures { option_map plain_options result ≡ options_of (text_list words.now) }
{
    let none = AppendOptions {
        form: None,
        null_text: None,
        dates: None,
    };
    match words {
        [] => Some(none),
        [a, x] => with_option(a, x, none),
        [a, x, b, y] => with_option(a, x, with_option(b, y, none)?),
        [a, x, b, y, c, z] => with_option(a, x, with_option(b, y, with_option(c, z, none)?)?),
        // An option lacks its value, or one of the three is there twice.
        [_] => None,
        [_, _, _] => None,
        [_, _, _, _, _] => None,
        [_, _, _, _, _, _, _, ..] => None,
    }
}

#[tactic(auto, unfolding(crate::specs::Appending::dates_of))]
fn dates_of(word: Option<&str>) -> Option<DateForm>
    ensures { result ≡ dates_of (option_copied word.entry) }
{
    match word {
        None => Some(DateForm::Numbers),
        Some("number") => Some(DateForm::Numbers),
        Some("iso") => Some(DateForm::Iso),
        Some(_) => None,
    }
}

#[tactic(auto, unfolding(crate::specs::Appending::form_named))]
fn form_named<'a>(word: &str, null_text: &'a str, dates: DateForm) -> Option<Option<TextForm<'a>>>
    ensures { option_map (option_map plain_form) result ≡ form_named word.now null_text.now dates }
{
    let null_text = null_text.as_bytes();
    match word {
        "stream" => Some(None),
        "csv" => Some(Some(TextForm::Csv(FieldForm { null_text, dates }))),
        "jsonl" => Some(Some(TextForm::JsonLines(dates))),
        _ => None,
    }
}

/// Returns the form of the text that options state, or `Some(None)` for a stream. `None` if a value is none of its option.
#[tactic(auto, unfolding(crate::specs::Appending::form_of))]
pub(crate) fn form_of<'a>(options: AppendOptions<'a>) -> Option<Option<TextForm<'a>>>
    ensures { option_map (option_map plain_form) result ≡ form_of (plain_options options.entry) }
{
    let dates = dates_of(options.dates)?;
    let word = options.form.unwrap_or("stream");
    form_named(word, options.null_text.unwrap_or(""), dates)
}
