// Laws about the definitions. The functions do nothing: their contracts are the laws.
ghost use Rattle.std.specs.Prelude.{◌≡◌, ℕ, List, Some, Ok, Err};
ghost use Rattle.std.specs.List.{AllPass};
ghost use Rattle.civil_days.specs.declared.date_form.DateForm.{DateForm};
ghost use Rattle.arrow_schema.specs.Column.{PlainSchema};
ghost use Rattle.cells.specs.Cell.{Cell};
ghost use Rattle.cells.specs.Row.{is_row};
ghost use Rattle.text_import.specs.declared.form.TextForm.{TextForm};
ghost use Rattle.text_import.specs.declared.refusal.Refused.{Refused};
ghost use Rattle.text_import.specs.Records.{csv_rows_of};
ghost use Rattle.text_import.specs.Objects.{jsonl_rows_of};
ghost use Rattle.text_import.specs.Form.{rows_of_text};
ghost use Rattle.text_import.specs.Part.{PlainPart, refused_part};
ghost use Rattle.text_import.specs.Cause.{IsCause};
ghost use Rattle.text_import.specs.Place.{IsAtItsPlace};
ghost use Rattle.text_import.specs.FieldForm.{PlainFieldForm};

/// The rows of a text are rows that a table of the schema accepts, each by itself: every cell fits, no row is too heavy, and none fills a dictionary.
pub fn rows_of_texts_are_rows()
    ensures csv { (s : PlainSchema) (form : PlainFieldForm) (text : List ℕ) (rows : List (List Cell)) → csv_rows_of s form text ≡ Ok rows
        → AllPass (is_row s) rows }
    ensures jsonl { (date_form : DateForm) (s : PlainSchema) (text : List ℕ) (rows : List (List Cell)) → jsonl_rows_of date_form s text ≡ Ok rows
        → AllPass (is_row s) rows }
{}

/// The part of a refused text is the cause of the refusal: for CSV a column of this name is a list or a struct; a name in the header differs from that of
/// the table's column, or their numbers differ; the record has another number of fields, or the text of a field is refused for a column of its name; or
/// the line is refused, and if a part of it is named, that is the cause: another number of items, a name that two columns have, an unknown name, or what
/// is at the end of a path through its lists and structs. The place that the part names is the place where it is: the field there, by index, is the one
/// for which a text or a value is refused with this refusal.
pub fn refused_parts_are_causes()
    ensures cause { (form : TextForm) (s : PlainSchema) (text : List ℕ) (r : Refused) (part : PlainPart) → rows_of_text form s text ≡ Err r
        → refused_part form s text r.number ≡ Some part → IsCause form s text part r.refusal }
    ensures place { (form : TextForm) (s : PlainSchema) (text : List ℕ) (r : Refused) (part : PlainPart) → rows_of_text form s text ≡ Err r
        → refused_part form s text r.number ≡ Some part → IsAtItsPlace form s.columns part r.refusal }
{}
