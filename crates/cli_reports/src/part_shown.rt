// Prints the refused part of an input.
ghost use Rattle.std.specs.Prelude.{◌≡◌, option_map, None};
ghost use Rattle.cli_reports.specs.Shown.{shown};

use crate::form::{line_form, name_form};
use crate::shown::shown;
use std::fmt;
use text_import::{LinePart, Reason, RefusedPart};

// The name of a field, and its text, which is not empty.
#[derive(Drop)]
struct FilledField<'a> {
    name: &'a str,
    text: &'a str,
}

impl fmt::Display for FilledField<'_> {
    ghost use Rattle.std.specs.Prelude.{Some};
    ghost use Rattle.cli_reports.specs.Hint.{filled_field_text};

    ghost output = { λ field. Some (filled_field_text field.name.now field.text.now) };

    fn fmt<W: fmt::Write>(&self, f: &mut fmt::Formatter<W>) -> fmt::Result {
        write!(
            f,
            "The text `{}` of field `{}` is refused. ",
            self.text, self.name
        )
    }
}

// The name and the text of a field, which may be empty.
#[derive(Drop)]
struct TextOfField<'a> {
    name: &'a str,
    text: &'a str,
}

impl fmt::Display for TextOfField<'_> {
    ghost use Rattle.std.specs.Prelude.{Some};
    ghost use Rattle.cli_reports.specs.Hint.{text_of_field};

    ghost output = { λ field. Some (text_of_field field.name.now field.text.now) };

    fn fmt<W: fmt::Write>(&self, f: &mut fmt::Formatter<W>) -> fmt::Result {
        if self.text.is_empty() {
            return write!(f, "The field `{}` is empty. ", self.name);
        }
        let field = FilledField {
            name: self.name,
            text: self.text,
        };
        write!(f, "{field}")
    }
}

/// The name and the text of a field, if they may be shown.
#[derive(Drop)]
pub(crate) struct FieldShown<'a> {
    pub(crate) name: Option<&'a str>,
    pub(crate) text: Option<&'a str>,
}

impl<'a> FieldShown<'a> {
    /// Returns a field of which only the name is reported.
    pub(crate) fn of_name(name: &'a [u8]) -> FieldShown<'a>
        ensures { (option_map (λ t. t.now) result.name ≡ shown name.now) × (result.text ≡ None) }
    {
        FieldShown {
            name: shown(name),
            text: None,
        }
    }
}

impl fmt::Display for FieldShown<'_> {
    ghost use Rattle.std.specs.Prelude.{Some, option_map};
    ghost use Rattle.cli_reports.specs.Hint.{field_text};

    ghost output = { λ field. Some (field_text (option_map (λ t. t.now) field.name) (option_map (λ t. t.now) field.text)) };

    fn fmt<W: fmt::Write>(&self, f: &mut fmt::Formatter<W>) -> fmt::Result {
        match (self.name, self.text) {
            (None, _) => Ok(()),
            (Some(name), None) => write!(f, "The field `{name}` is refused. "),
            (Some(name), Some(text)) => write!(f, "{}", TextOfField { name, text }),
        }
    }
}

/// The name and the text of a field of a stream, and the text of the table's field in its place, if they may be shown.
#[derive(Drop)]
pub(crate) struct OtherFieldShown<'a> {
    pub(crate) name: Option<&'a str>,
    pub(crate) found: Option<&'a str>,
    pub(crate) wanted: Option<&'a str>,
}

impl<'a> OtherFieldShown<'a> {
    pub(crate) fn new(name: &'a str, found: &'a str, wanted: &'a str) -> OtherFieldShown<'a>
        ensures name { option_map (λ t. t.now) result.name ≡ shown name.now }
        ensures found { option_map (λ t. t.now) result.found ≡ shown found.now }
        ensures wanted { option_map (λ t. t.now) result.wanted ≡ shown wanted.now }
    {
        OtherFieldShown {
            name: shown(name.as_bytes()),
            found: shown(found.as_bytes()),
            wanted: shown(wanted.as_bytes()),
        }
    }
}

impl fmt::Display for OtherFieldShown<'_> {
    ghost use Rattle.std.specs.Prelude.{Some, option_map};
    ghost use Rattle.cli_reports.specs.Hint.{other_field_text};

    ghost output = { λ field. Some (other_field_text (option_map (λ t. t.now) field.name) (option_map (λ t. t.now) field.found) (option_map (λ t. t.now) field.wanted)) };

    fn fmt<W: fmt::Write>(&self, f: &mut fmt::Formatter<W>) -> fmt::Result {
        match (self.found, self.wanted) {
            (_, None) => {
                let field = FieldShown {
                    name: self.name,
                    text: None,
                };
                write!(f, "{field}")
            }
            (None, Some(wanted)) => {
                write!(
                    f,
                    "The input has another field where the table has `{wanted}`. "
                )
            }
            (Some(found), Some(wanted)) => {
                write!(
                    f,
                    "The input has `{found}` where the table has `{wanted}`. "
                )
            }
        }
    }
}

/// A line, if it may be shown.
#[derive(Drop)]
pub(crate) struct LineShown<'a> {
    pub(crate) text: Option<&'a str>,
}

impl fmt::Display for LineShown<'_> {
    ghost use Rattle.std.specs.Prelude.{Some, option_map};
    ghost use Rattle.cli_reports.specs.Hint.{line_text};

    ghost output = { λ line. Some (line_text (option_map (λ t. t.now) line.text)) };

    fn fmt<W: fmt::Write>(&self, f: &mut fmt::Formatter<W>) -> fmt::Result {
        match self.text {
            None => Ok(()),
            Some(text) => write!(f, "The line `{text}` is refused. "),
        }
    }
}

// The name of a column of lists or structs, if it may be shown.
#[derive(Drop)]
struct NestedShown<'a> {
    name: Option<&'a str>,
}

impl fmt::Display for NestedShown<'_> {
    ghost use Rattle.std.specs.Prelude.{Some, option_map};
    ghost use Rattle.cli_reports.specs.Hint.{nested_text};

    ghost output = { λ shown. Some (nested_text (option_map (λ t. t.now) shown.name)) };

    fn fmt<W: fmt::Write>(&self, f: &mut fmt::Formatter<W>) -> fmt::Result {
        match self.name {
            None => Ok(()),
            Some(name) => write!(f, "The column `{name}` is a list or a struct. "),
        }
    }
}

// A name of a header and the expected one, if they may be shown.
#[derive(Drop)]
struct NamesShown<'a> {
    found: Option<&'a str>,
    wanted: Option<&'a str>,
}

impl fmt::Display for NamesShown<'_> {
    ghost use Rattle.std.specs.Prelude.{Some, option_map};
    ghost use Rattle.cli_reports.specs.Hint.{header_text};

    ghost output = { λ names. Some (header_text (option_map (λ t. t.now) names.found) (option_map (λ t. t.now) names.wanted)) };

    fn fmt<W: fmt::Write>(&self, f: &mut fmt::Formatter<W>) -> fmt::Result {
        match (self.found, self.wanted) {
            (_, None) => Ok(()),
            (None, Some(wanted)) => {
                write!(
                    f,
                    "The header has another name where the table has `{wanted}`. "
                )
            }
            (Some(found), Some(wanted)) => {
                write!(
                    f,
                    "The header names `{found}` where the table has `{wanted}`. "
                )
            }
        }
    }
}

// A name in an object, if it may be shown.
#[derive(Drop)]
struct NameShown<'a> {
    name: Option<&'a str>,
}

impl fmt::Display for NameShown<'_> {
    ghost use Rattle.std.specs.Prelude.{Some, option_map};
    ghost use Rattle.cli_reports.specs.Hint.{name_text};

    ghost output = { λ shown. Some (name_text (option_map (λ t. t.now) shown.name)) };

    fn fmt<W: fmt::Write>(&self, f: &mut fmt::Formatter<W>) -> fmt::Result {
        match self.name {
            None => Ok(()),
            Some(name) => write!(f, "The name `{name}` is no column. "),
        }
    }
}

// A name that two columns have, if it may be shown.
#[derive(Drop)]
struct RepeatedShown<'a> {
    name: Option<&'a str>,
}

impl fmt::Display for RepeatedShown<'_> {
    ghost use Rattle.std.specs.Prelude.{Some, option_map};
    ghost use Rattle.cli_reports.specs.Hint.{repeated_text};

    ghost output = { λ shown. Some (repeated_text (option_map (λ t. t.now) shown.name)) };

    fn fmt<W: fmt::Write>(&self, f: &mut fmt::Formatter<W>) -> fmt::Result {
        match self.name {
            None => Ok(()),
            Some(name) => write!(f, "Two columns have the name `{name}`. "),
        }
    }
}

// A number of things, with the noun for one of them.
#[derive(Drop)]
struct Counted {
    count: usize,
    noun: &'static str,
}

impl fmt::Display for Counted {
    ghost use Rattle.std.specs.Prelude.{Some};
    ghost use Rattle.cli_reports.specs.Hint.{counted};

    ghost output = { λ number. Some (counted number.count number.noun.now) };

    fn fmt<W: fmt::Write>(&self, f: &mut fmt::Formatter<W>) -> fmt::Result {
        let plural = if self.count == 1 { "" } else { "s" };
        write!(f, "{} {}{}", self.count, self.noun, plural)
    }
}

// The path to an array, and the number of its items instead of the wanted one.
#[derive(Drop)]
struct ItemsShown<'a> {
    path: &'a str,
    items: usize,
    wanted: usize,
}

impl fmt::Display for ItemsShown<'_> {
    ghost use Rattle.std.specs.Prelude.{Some};
    ghost use Rattle.cli_reports.specs.Hint.{items_text};

    ghost output = { λ shown. Some (items_text shown.path.now shown.items shown.wanted) };

    fn fmt<W: fmt::Write>(&self, f: &mut fmt::Formatter<W>) -> fmt::Result {
        let items = Counted {
            count: self.items,
            noun: "item",
        };
        write!(
            f,
            "The field `{}` has {items} instead of {}. ",
            self.path, self.wanted
        )
    }
}

// A path, if it may be shown, and what is refused at its end.
#[derive(Drop)]
struct PathShown<'a> {
    path: Option<&'a str>,
    reason: Reason,
}

impl fmt::Display for PathShown<'_> {
    ghost use Rattle.std.specs.Prelude.{Some, option_map};
    ghost use Rattle.cli_reports.specs.Hint.{path_text};

    ghost output = { λ shown. Some (path_text (option_map (λ t. t.now) shown.path) shown.reason) };

    fn fmt<W: fmt::Write>(&self, f: &mut fmt::Formatter<W>) -> fmt::Result {
        let path = match self.path {
            None => return Ok(()),
            Some(path) => path,
        };
        match self.reason {
            Reason::Value => write!(f, "The field `{path}` is refused. "),
            Reason::Missing => write!(f, "The name `{path}` is missing. "),
            Reason::Unknown => write!(f, "The name `{path}` is no field. "),
            Reason::Repeated => write!(f, "Two fields have the name `{path}`. "),
            Reason::Count { items, wanted } => {
                let items = ItemsShown {
                    path,
                    items,
                    wanted,
                };
                write!(f, "{items}")
            }
        }
    }
}

/// The number of parts of a header, a record or a stream, and the number of columns of the table.
#[derive(Drop)]
pub(crate) struct Counts {
    pub(crate) whole: &'static str,
    pub(crate) part: &'static str,
    pub(crate) parts: usize,
    pub(crate) columns: usize,
}

impl fmt::Display for Counts {
    ghost use Rattle.std.specs.Prelude.{Some};
    ghost use Rattle.cli_reports.specs.Hint.{counts_text};

    ghost output = { λ counts. Some (counts_text counts.whole.now counts.part.now counts.parts counts.columns) };

    fn fmt<W: fmt::Write>(&self, f: &mut fmt::Formatter<W>) -> fmt::Result {
        let parts = Counted {
            count: self.parts,
            noun: self.part,
        };
        let columns = Counted {
            count: self.columns,
            noun: "column",
        };
        write!(
            f,
            "The {} has {parts}, and the table {columns}. ",
            self.whole
        )
    }
}

// The number of names of a header, of which an empty input has none, and the number of columns of the table.
#[derive(Drop)]
struct HeaderCounts {
    names: usize,
    columns: usize,
}

impl fmt::Display for HeaderCounts {
    ghost use Rattle.std.specs.Prelude.{Some};
    ghost use Rattle.cli_reports.specs.Hint.{header_count_text};

    ghost output = { λ counts. Some (header_count_text counts.names counts.columns) };

    fn fmt<W: fmt::Write>(&self, f: &mut fmt::Formatter<W>) -> fmt::Result {
        if self.names == 0 {
            return f.write_str("The input has no header. ");
        }
        let counts = Counts {
            whole: "header",
            part: "name",
            parts: self.names,
            columns: self.columns,
        };
        write!(f, "{counts}")
    }
}

// A part of a line, as far as it may be shown.
#[derive(Drop)]
struct LinePartShown<'a> {
    part: &'a Option<LinePart>,
}

impl fmt::Display for LinePartShown<'_> {
    ghost use Rattle.std.specs.Prelude.{Some, option_map};
    ghost use Rattle.text_import.specs.Part.{line_part_of};
    ghost use Rattle.cli_reports.specs.Hint.{line_part_text};

    ghost output = { λ line. Some (line_part_text (option_map line_part_of line.part.now)) };

    fn fmt<W: fmt::Write>(&self, f: &mut fmt::Formatter<W>) -> fmt::Result {
        match self.part {
            None => Ok(()),
            Some(LinePart::Value(part)) => {
                let path = PathShown {
                    path: shown(part.path.as_bytes()),
                    reason: part.reason,
                };
                write!(f, "{path}")
            }
            Some(LinePart::Count { items, columns }) => {
                let counts = Counts {
                    whole: "record",
                    part: "field",
                    parts: *items,
                    columns: *columns,
                };
                write!(f, "{counts}")
            }
            Some(LinePart::Name { name }) => {
                let name = NameShown {
                    name: shown(name.as_bytes()),
                };
                write!(f, "{name}")
            }
            Some(LinePart::RepeatedName { name }) => {
                let name = RepeatedShown {
                    name: shown(name.as_bytes()),
                };
                write!(f, "{name}")
            }
        }
    }
}

/// A part of the input, as far as it may be shown.
#[derive(Drop)]
pub(crate) struct PartShown<'a> {
    pub(crate) part: &'a RefusedPart,
}

impl fmt::Display for PartShown<'_> {
    ghost use Rattle.std.specs.Prelude.{Some};
    ghost use Rattle.text_import.specs.Part.{part_of};
    ghost use Rattle.cli_reports.specs.Hint.{part_text};

    ghost output = { λ shown. Some (part_text (part_of shown.part.now)) };

    #[tactic(auto, unfolding(crate::specs::Hint::part_text))]
    fn fmt<W: fmt::Write>(&self, f: &mut fmt::Formatter<W>) -> fmt::Result {
        match self.part {
            RefusedPart::NestedColumn { name } => {
                let name = NestedShown {
                    name: shown(name.as_bytes()),
                };
                write!(f, "{name}")
            }
            RefusedPart::HeaderName { found, wanted } => {
                let names = NamesShown {
                    found: shown(found),
                    wanted: shown(wanted.as_bytes()),
                };
                write!(f, "{names}{}", name_form(found))
            }
            RefusedPart::HeaderCount { names, columns } => {
                let counts = HeaderCounts {
                    names: *names,
                    columns: *columns,
                };
                write!(f, "{counts}")
            }
            RefusedPart::RecordCount { fields, columns } => {
                let counts = Counts {
                    whole: "record",
                    part: "field",
                    parts: *fields,
                    columns: *columns,
                };
                write!(f, "{counts}")
            }
            RefusedPart::Field { name, text, .. } => {
                let field = FieldShown {
                    name: shown(name.as_bytes()),
                    text: shown(text),
                };
                write!(f, "{field}")
            }
            RefusedPart::Line { part, text } => {
                let line = LineShown { text: shown(text) };
                let part = LinePartShown { part };
                write!(f, "{line}{}{part}", line_form(text))
            }
        }
    }
}
