// Laws of the definitions for the crates above: the functions do nothing, and their contracts are the laws.
ghost use Rattle.std.specs.Prelude.{◌≡◌, ◌≤◌, ◌*◌, ◌++◌, ℕ, true, List, length, map, Some};
ghost use Rattle.std.specs.List.{Contains, list_all};
ghost use Rattle.facts.specs.Bytes.{AreBytes};
ghost use Rattle.catalogue.specs.declared.entry.Segment.{Segment};
ghost use Rattle.catalogue.specs.declared.entry.SegmentForm.{SegmentForm};
ghost use Rattle.catalogue.specs.declared.limits.TheConstants.{MAX_TABLES, MAX_SEGMENTS, MAX_SEGMENT_ROWS};
ghost use Rattle.catalogue.specs.Schemas.{is_within_limits};
ghost use Rattle.catalogue.specs.Entries.{PlainEntry, PlainCatalogue, PlainRoot, bare, is_name, is_segment, ascends, root_names, row_count, has_digests, has_form, runs_of, IsTable, IsRoot, IsCatalogue};
ghost use Rattle.catalogue.specs.Edits.{entry_of, with_entry, without};
ghost use Rattle.catalogue.specs.Counts.{HasMore, HasSame, HasFewer};
ghost use Rattle.catalogue.specs.Text.{list_text, list_size, table_text, table_size, root_text, root_size};
ghost use Rattle.catalogue.specs.Reading.{catalogue_at, page_at, root_at};
ghost use Rattle.catalogue.specs.inner.Messages.{AllAgain};

// The message of a schema is read back, and its length fits in 32 bits.
fn schemas_are_read_again()
    ensures { AllAgain }
{
    ipc_write::schema_message_is_read_again();
    ipc_write::metadata_is_within_its_limit();
}

/// Each catalogue has one text, and in each form each text has one catalogue. `kept`: what is decoded is a catalogue; `formed`: it has the form in
/// which it is decoded; `found`: the bytes are its text; `again`: a text is decoded to the catalogue it was written from, without the pages, which a
/// list does not have; `pageless`: a decoded catalogue has no pages; `apart`: no text begins another one of its form.
pub fn one_text_each()
    ensures kept { (form : SegmentForm) (bytes : List ℕ) (c : PlainCatalogue) → catalogue_at form bytes ≡ Some c → IsCatalogue c }
    ensures formed { (form : SegmentForm) (bytes : List ℕ) (c : PlainCatalogue) → catalogue_at form bytes ≡ Some c → has_form form c ≡ true }
    ensures found { (form : SegmentForm) (bytes : List ℕ) (c : PlainCatalogue) → AreBytes bytes → catalogue_at form bytes ≡ Some c
        → bytes ≡ list_text c }
    ensures again { (form : SegmentForm) (c : PlainCatalogue) → IsCatalogue c → has_form form c ≡ true
        → catalogue_at form (list_text c) ≡ Some (map bare c) }
    ensures pageless { (form : SegmentForm) (bytes : List ℕ) (c : PlainCatalogue) → catalogue_at form bytes ≡ Some c → map bare c ≡ c }
    ensures apart { (form : SegmentForm) (c d : PlainCatalogue) (x y : List ℕ) → IsCatalogue c → IsCatalogue d
        → has_form form c ≡ true → has_form form d ≡ true → list_text c ++ x ≡ list_text d ++ y → map bare c ≡ map bare d }
{
    schemas_are_read_again();
}

/// Each table has one page text, and each page text has one table, up to its name. The clauses are those of [`one_text_each`]; `size`: the size of
/// the text in bytes.
pub fn one_page_each()
    ensures kept { (form : SegmentForm) (most : ℕ) (bytes : List ℕ) (e : PlainEntry) → page_at form most bytes ≡ Some (e.schema, e.segments)
        → (is_within_limits e.schema ≡ true) × (list_all is_segment e.segments ≡ true) × (length e.segments ≤ most) }
    ensures formed { (form : SegmentForm) (most : ℕ) (bytes : List ℕ) (e : PlainEntry) → page_at form most bytes ≡ Some (e.schema, e.segments)
        → has_digests form e.segments ≡ true }
    ensures found { (form : SegmentForm) (most : ℕ) (bytes : List ℕ) (e : PlainEntry) → AreBytes bytes
        → page_at form most bytes ≡ Some (e.schema, e.segments) → bytes ≡ table_text e }
    ensures again { (form : SegmentForm) (most : ℕ) (e : PlainEntry) → IsTable e → has_digests form e.segments ≡ true → length e.segments ≤ most
        → page_at form most (table_text e) ≡ Some (e.schema, e.segments) }
    ensures apart { (form : SegmentForm) (e f : PlainEntry) (x y : List ℕ) → IsTable e → IsTable f → has_digests form e.segments ≡ true
        → has_digests form f.segments ≡ true → table_text e ++ x ≡ table_text f ++ y → (e.schema ≡ f.schema) × (e.segments ≡ f.segments) }
    ensures size { (e : PlainEntry) → length (table_text e) ≡ table_size e }
{
    schemas_are_read_again();
}

/// Each root has one text, and each text has one root. The clauses are those of [`one_page_each`].
pub fn one_root_each()
    ensures kept { (bytes : List ℕ) (rs : List PlainRoot) → root_at bytes ≡ Some rs
        → (list_all (λ (r : PlainRoot). is_name r.name) rs ≡ true) × (ascends (root_names rs) ≡ true) × (length rs ≤ MAX_TABLES) }
    ensures found { (bytes : List ℕ) (rs : List PlainRoot) → AreBytes bytes → root_at bytes ≡ Some rs → bytes ≡ root_text rs }
    ensures again { (rs : List PlainRoot) → IsRoot rs → root_at (root_text rs) ≡ Some rs }
    ensures apart { (rs ss : List PlainRoot) (x y : List ℕ) → IsRoot rs → IsRoot ss → root_text rs ++ x ≡ root_text ss ++ y → rs ≡ ss }
    ensures size { (rs : List PlainRoot) → length (root_text rs) ≡ root_size rs }
{}

/// The size of a text in bytes. It does not depend on where runs start.
pub fn texts_have_these_sizes()
    ensures { (c : PlainCatalogue) → length (list_text c) ≡ list_size c }
{}

/// The numbers of tables and segments after a change.
pub fn counts_after_changes()
    ensures put { (c : PlainCatalogue) (e : PlainEntry) → HasMore c e (with_entry c e) }
    ensures replaced { (c : PlainCatalogue) (e old : PlainEntry) → IsCatalogue c → entry_of c e.name ≡ Some old → HasSame c old e (with_entry c e) }
    ensures removed { (c : PlainCatalogue) (name : List ℕ) (e : PlainEntry) → entry_of c name ≡ Some e → HasFewer c e (without c name) }
{}

/// The runs that a catalogue names include the run of each segment.
pub fn runs_are_named()
    ensures { (c : PlainCatalogue) (e : PlainEntry) (s : Segment) → Contains c e → Contains e.segments s → Contains (runs_of c) s.place.run }
{}

/// A table has at most 268,435,456 rows: those of all the segments that a catalogue may have.
pub fn rows_are_few()
    ensures { (c : PlainCatalogue) (e : PlainEntry) → IsCatalogue c → Contains c e → row_count e ≤ MAX_SEGMENTS * MAX_SEGMENT_ROWS }
{}
