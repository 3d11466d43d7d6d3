// What of an input and of a command line may be shown on a terminal.
ghost use Rattle.std.specs.Prelude.{◌≡◌, option_map};
ghost use Rattle.std.specs.List.{list_any};
ghost use Rattle.std.specs.Str.{chars};
ghost use Rattle.cli_reports.specs.Shown.{is_category_unshown, is_unshown, shown};

use ucd_category::GeneralCategory;

/// The maximum length in bytes of a shown string of the input.
pub const MOST_SHOWN: usize = 100;

// A character of such a category may control the terminal, reverses the text after it, or is invisible.
fn is_category_unshown(category: GeneralCategory) -> bool
    ensures { result ≡ is_category_unshown category }
{
    matches!(
        category,
        GeneralCategory::Control
            | GeneralCategory::Format
            | GeneralCategory::LineSeparator
            | GeneralCategory::ParagraphSeparator
    )
}

#[tactic(auto, unfolding(crate::specs::Shown::is_unshown))]
fn is_unshown(c: char) -> bool
    ensures { result ≡ is_unshown c }
{
    is_category_unshown(GeneralCategory::for_char(c))
}

/// Returns whether a text has a character that is not shown on a terminal: one of the Unicode general categories Cc, Cf, Zl and Zp.
pub fn has_unshown(text: &str) -> bool
    ensures { result ≡ list_any is_unshown (chars text.now) }
{
    text.chars().any(|c| is_unshown(c))
}

/// Returns the bytes as a string, if it may be shown on a terminal.
#[tactic(auto, using(crate::proofs::HintLemmas::shown_rules))]
pub(crate) fn shown(bytes: &[u8]) -> Option<&str>
    ensures { option_map (λ t. t.now) result ≡ shown bytes.now }
{
    if bytes.len() > MOST_SHOWN {
        return None;
    }
    match str::from_utf8(bytes) {
        Ok(text) => {
            if has_unshown(text) {
                return None;
            }
            Some(text)
        }
        Err(_) => None,
    }
}
