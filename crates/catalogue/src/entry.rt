// A table as the catalogue keeps it.
ghost use Rattle.std.specs.Prelude.{◌≡◌, ◌<◌, ◌^◌, ◌++◌, true, false, string_bytes, IfOk, OnErr};
ghost use Rattle.std.specs.List.{list_all};
ghost use Rattle.arrow_schema.specs.View.{schema_of};
ghost use Rattle.catalogue.specs.Schemas.{is_within_limits};
ghost use Rattle.catalogue.specs.Edits.{named};
ghost use Rattle.catalogue.specs.Entries.{is_digest, is_segment, is_page, is_entry, plain_entry, row_count, runs_in_segments};
ghost use Rattle.catalogue.specs.Reading.{entry_from};
ghost use Rattle.catalogue.specs.laws.Sums.{refilled};

use crate::edits::put_runs;
use crate::limits::MAX_SEGMENT_ROWS;
use crate::names::is_name;
use arrow_schema::Schema;
use segments::{Extent, Run};
use std::alloc::{AllocError, Global};
use std::rc::Rc;

/// How a text lists segments.
#[derive(Clone, Copy, Debug, PartialEq, Eq)]
pub enum SegmentForm {
    /// Without digests.
    Bare,
    /// Each with the digest of its bytes.
    Digested,
}

/// A run that holds one stream of a table, the number of its rows, and the SHA-256 of its bytes (FIPS 180-4) if the text that names it has digests.
#[derive(Clone, Copy)]
pub struct Segment {
    pub place: Extent,
    pub rows: u64,
    pub digest: Option<[u8; 32]>,
}

// The name, schema and segments of a table, which copies of an entry share.
#[derive(Drop)]
struct ListedTable {
    name: String,
    schema: Schema,
    segments: Vec<Segment>,
}

/// A table: its name, its schema, and the segments of its rows in order. Copies of an entry share these.
#[derive(Drop)]
pub struct TableEntry {
    table: Rc<ListedTable>,
    /// Where the text of the table lies, if it has a page of its own.
    pub page: Option<Extent>,
}

/// A table in a root: its name, and where its page lies.
#[derive(Drop)]
pub struct RootEntry<'a> {
    pub name: &'a str,
    pub page: Extent,
}

impl Segment {
    /// Returns whether a catalogue may name the segment: it has at least one byte, exactly the sectors that its bytes need, and 1 to 4,096 rows.
    pub fn is_sound(self) -> bool
        ensures { result ≡ is_segment self }
    {
        self.place.bytes >= 1
            && self.place.fills_its_run()
            && self.rows >= 1
            && self.rows <= MAX_SEGMENT_ROWS
            && is_digest(self.digest)
    }
}

// Returns whether a digest, if there is one, has 32 bytes, as every array of this type has.
fn is_digest(digest: Option<[u8; 32]>) -> bool
    ensures { result ≡ is_digest digest }
{
    match digest {
        Some(digest) => digest.as_slice().len() == 32,
        None => true,
    }
}

// Returns whether a catalogue may name the page, if there is one: it has at least the bytes of its two numbers, and exactly the sectors that its
// bytes need.
fn is_page(page: Option<Extent>) -> bool
    ensures { result ≡ is_page page }
{
    match page {
        Some(page) => page.bytes >= 8 && page.fills_its_run(),
        None => true,
    }
}

// Returns whether the schema is within the limits.
#[tactic(auto, using(crate::specs::laws::Kept::passes_limits, crate::specs::laws::Kept::fails_limits))]
pub(crate) fn is_within_limits(schema: &Schema) -> bool
    ensures { result ≡ is_within_limits (schema_of schema.now) }
{
    match schema.check() {
        Ok(()) => true,
        Err(_) => false,
    }
}

pub(crate) fn are_sound(segments: &[Segment]) -> bool
    ensures { result ≡ list_all is_segment segments.now }
{
    for segment in segments {
        if !segment.is_sound() {
            return false;
        }
    }
    true
}

impl TableEntry {
    /// Creates a table of this name, schema and segments, whose text lies in `page`, if it has one of its own.
    ///
    /// # Errors
    /// `AllocError` if memory was refused. The parts are then freed.
    pub fn new(
        alloc: Global,
        name: String,
        schema: Schema,
        segments: Vec<Segment>,
        page: Option<Extent>,
    ) -> Result<TableEntry, AllocError>
        ensures { IfOk result (λ e. plain_entry e ≡ entry_from (string_bytes name) page (schema_of schema, segments.items)) }
    {
        let table = ListedTable {
            name,
            schema,
            segments,
        };
        Ok(TableEntry {
            table: Rc::new(alloc, table)?,
            page,
        })
    }

    /// Returns the name.
    pub fn name(&self) -> &str
        ensures { result.now ≡ (plain_entry self.now).name }
    {
        &self.table.name
    }

    /// Returns the schema.
    pub fn schema(&self) -> &Schema
        ensures { schema_of result.now ≡ (plain_entry self.now).schema }
    {
        &self.table.schema
    }

    /// Returns the segments in order.
    pub fn segments(&self) -> &[Segment]
        ensures { result.now ≡ (plain_entry self.now).segments }
    {
        &self.table.segments
    }

    // Returns the allocator of the entry.
    pub(crate) fn alloc(&self) -> Global {
        *self.table.segments.allocator()
    }

    /// Returns the number of rows in all segments.
    pub fn rows(&self) -> u64
        requires { row_count (plain_entry self.now) < 2 ^ 64 }
        ensures { result ≡ row_count (plain_entry self.now) }
    {
        let mut rows = 0;
        for segment in self.segments() {
            rows += segment.rows;
        }
        rows
    }

    /// Returns the runs of the segments in order.
    ///
    /// # Errors
    /// `AllocError` if memory was refused.
    pub fn runs(&self, alloc: Global) -> Result<Vec<Run>, AllocError>
        ensures { IfOk result (λ runs. runs.items ≡ runs_in_segments (plain_entry self.now).segments) }
    {
        let mut runs = Vec::new(alloc);
        put_runs(&mut runs, self.segments())?;
        Ok(runs)
    }

    /// Returns whether the entry may be in a catalogue.
    pub fn is_sound(&self) -> bool
        ensures { result ≡ is_entry (plain_entry self.now) }
    {
        is_name(self.name())
            && is_within_limits(self.schema())
            && are_sound(self.segments())
            && is_page(self.page)
    }

    // Copies the table under another name. It keeps its page, whose text does not have the name.
    pub(crate) fn named(&self, name: String) -> Result<TableEntry, AllocError>
        ensures { IfOk result (λ e. plain_entry e ≡ named (string_bytes name) (plain_entry self.now)) }
    {
        let alloc = self.alloc();
        let schema = self.schema().copy(alloc)?;
        let segments = Vec::from_slice(alloc, self.segments())?;
        TableEntry::new(alloc, name, schema, segments, self.page)
    }

    // Copies the table with other segments and without its page, whose text does not list them.
    pub(crate) fn refilled(&self, segments: Vec<Segment>) -> Result<TableEntry, AllocError>
        ensures { IfOk result (λ e. plain_entry e ≡ refilled (plain_entry self.now) segments.items) }
    {
        let alloc = self.alloc();
        let name = String::from_str(alloc, self.name())?;
        let schema = self.schema().copy(alloc)?;
        TableEntry::new(alloc, name, schema, segments, None)
    }

    // Appends segments where no copy shares the table, which then loses its page. Returns whether it did.
    pub(crate) fn append_own(&mut self, more: &[Segment]) -> Result<bool, AllocError>
        ensures appended { IfOk result (λ done. done ≡ true
            → plain_entry self.new ≡ refilled (plain_entry self.old) ((plain_entry self.old).segments ++ more.now)) }
        ensures shared { IfOk result (λ done. done ≡ false → plain_entry self.new ≡ plain_entry self.old) }
        ensures err { OnErr result (plain_entry self.new ≡ plain_entry self.old) }
    {
        match Rc::get_mut(&mut self.table) {
            Some(table) => {
                table.segments.extend_from_slice(more)?;
                self.page = None;
                Ok(true)
            }
            None => Ok(false),
        }
    }

    /// Copies the entry. Everything but the page is shared, and no memory is allocated.
    ///
    /// # Errors
    /// `AllocError` if it already has as many copies as can be counted.
    pub fn copy(&self) -> Result<TableEntry, AllocError>
        ensures { IfOk result (λ e. plain_entry e ≡ plain_entry self.now) }
    {
        Ok(TableEntry {
            table: self.table.clone()?,
            page: self.page,
        })
    }
}
