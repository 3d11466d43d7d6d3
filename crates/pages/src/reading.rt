// Reads pages from a device.
ghost use Rattle.std.specs.Prelude.{◌≡◌, ◌≢◌, ◌≤◌, true, Some, Ok, length, map, OnOk, IfOk, IfErr};
ghost use Rattle.std.specs.List.{list_all};
ghost use Rattle.sector_dev.specs.Time.{OnlyReads};
ghost use Rattle.arrow_schema.specs.View.{schema_of};
ghost use Rattle.catalogue.specs.declared.limits.TheConstants.{MAX_SEGMENTS};
ghost use Rattle.catalogue.specs.Schemas.{is_within_limits};
ghost use Rattle.catalogue.specs.Entries.{plain_entry, plain_root, is_name, is_segment, is_filled, is_entry, is_catalogue, has_digests, has_form};
ghost use Rattle.catalogue.specs.Reading.{entry_from};
ghost use Rattle.commit.specs.Standing.{is_size};
ghost use Rattle.commit.specs.Opening.{CountsOpen, TellsCause};
ghost use Rattle.pages.specs.Stored.{page_shown, pages_shown, AreTables};

use arrow_schema::Schema;
use catalogue::{
    DecodeError, MAX_SEGMENTS, RootEntry, Segment, SegmentForm, TableEntry, decode_page,
    one_page_each,
};
use commit::{Cause, OpenError, read_extent};
use sector_dev::SectorDevice;
use segments::Extent;
use std::alloc::{AllocError, Global};

// Reads the page in this extent, which is of this form and has at most `most` segments.
fn read_page<D: SectorDevice>(
    alloc: Global,
    device: &mut D,
    form: SegmentForm,
    most: u64,
    page: Extent,
) -> Result<(Schema, Vec<Segment>), OpenError>
    requires { is_size (D.size device.old) ≡ true }
    ensures size { D.size device.new ≡ D.size device.old }
    ensures count { CountsOpen (D.failed device.old) (D.failed device.new) result }
    ensures moments { D.tells ≡ true → OnlyReads (D.story device.old) (D.story device.new) }
    ensures found { IfOk result (λ x. D.tells ≡ true
        → page_shown form (D.size device.old) (D.story device.old) most page ≡ Ok (schema_of x.0, x.1.items)) }
    ensures damaged { IfErr result (λ e. D.tells ≡ true → TellsCause e (page_shown form (D.size device.old) (D.story device.old) most page)) }
    ensures a_store { IfErr result (λ e. e ≢ OpenError.NotAStore) }
    // These also hold for a device that does not tell its story.
    ensures few { IfOk result (λ x. length x.1.items ≤ most) }
    ensures schema { IfOk result (λ x. is_within_limits (schema_of x.0) ≡ true) }
    ensures segments { IfOk result (λ x. list_all is_segment x.1.items ≡ true) }
    ensures form { IfOk result (λ x. has_digests form x.1.items ≡ true) }
    ensures page { OnOk result (is_filled 8 page ≡ true) }
{
    one_page_each();
    match read_extent(alloc, device, 8, page) {
        Ok(bytes) => match decode_page(alloc, form, most, &bytes) {
            Ok(body) => Ok(body),
            Err(DecodeError::NoText) => Err(OpenError::Damaged(Cause::CatalogueText)),
            Err(DecodeError::OutOfMemory) => Err(OpenError::OutOfMemory),
        },
        Err(error) => Err(error),
    }
}

// Returns a table of a root with the contents of its page.
fn table_of(
    alloc: Global,
    root: &RootEntry<'_>,
    schema: Schema,
    segments: Vec<Segment>,
) -> Result<TableEntry, AllocError>
    ensures { IfOk result (λ e. plain_entry e ≡ entry_from ((plain_root root.now).name) (Some root.now.page) (schema_of schema, segments.items)) }
{
    let name = String::from_str(alloc, root.name)?;
    TableEntry::new(alloc, name, schema, segments, Some(root.page))
}

// Reads a table of a root.
fn read_table<D: SectorDevice>(
    alloc: Global,
    device: &mut D,
    form: SegmentForm,
    most: u64,
    root: &RootEntry<'_>,
) -> Result<TableEntry, OpenError>
    requires { is_size (D.size device.old) ≡ true }
    ensures size { D.size device.new ≡ D.size device.old }
    ensures count { CountsOpen (D.failed device.old) (D.failed device.new) result }
    ensures moments { D.tells ≡ true → OnlyReads (D.story device.old) (D.story device.new) }
    ensures found { IfOk result (λ e. D.tells ≡ true
        → page_shown form (D.size device.old) (D.story device.old) most root.now.page ≡ Ok ((plain_entry e).schema, (plain_entry e).segments)) }
    ensures damaged { IfErr result (λ e. D.tells ≡ true
        → TellsCause e (page_shown form (D.size device.old) (D.story device.old) most root.now.page)) }
    ensures a_store { IfErr result (λ e. e ≢ OpenError.NotAStore) }
    ensures few { IfOk result (λ e. length (plain_entry e).segments ≤ most) }
    ensures entry { IfOk result (λ e. plain_entry e
        ≡ entry_from ((plain_root root.now).name) (Some root.now.page) ((plain_entry e).schema, (plain_entry e).segments)) }
    ensures sound { IfOk result (λ e. is_name ((plain_root root.now).name) ≡ true → is_entry (plain_entry e) ≡ true) }
    ensures form { IfOk result (λ e. has_digests form (plain_entry e).segments ≡ true) }
{
    match read_page(alloc, device, form, most, root.page) {
        Ok((schema, segments)) => {
            match table_of(alloc, root, schema, segments) {
                Ok(entry) => Ok(entry),
                Err(_) => Err(OpenError::OutOfMemory),
            }
        }
        Err(error) => Err(error),
    }
}

// Reads the pages in the order of the root, up to the first one that can't be read.
pub(crate) fn read_pages<D: SectorDevice>(
    alloc: Global,
    device: &mut D,
    form: SegmentForm,
    roots: &[RootEntry<'_>],
) -> Result<Vec<TableEntry>, OpenError>
    requires size { is_size (D.size device.old) ≡ true }
    requires root { AreTables (map plain_root roots.now) }
    ensures size { D.size device.new ≡ D.size device.old }
    ensures count { CountsOpen (D.failed device.old) (D.failed device.new) result }
    ensures moments { D.tells ≡ true → OnlyReads (D.story device.old) (D.story device.new) }
    ensures found { IfOk result (λ entries. D.tells ≡ true
        → pages_shown form (D.size device.old) (D.story device.old) MAX_SEGMENTS (map plain_root roots.now) ≡ Ok (map plain_entry entries.items)) }
    ensures damaged { IfErr result (λ e. D.tells ≡ true
        → TellsCause e (pages_shown form (D.size device.old) (D.story device.old) MAX_SEGMENTS (map plain_root roots.now))) }
    ensures a_store { IfErr result (λ e. e ≢ OpenError.NotAStore) }
    ensures sound { IfOk result (λ entries. is_catalogue (map plain_entry entries.items) ≡ true) }
    // This also holds for a device that does not tell its story.
    ensures form { IfOk result (λ entries. has_form form (map plain_entry entries.items) ≡ true) }
{
    let mut entries = Vec::new(alloc);
    let mut left = MAX_SEGMENTS;
    for root in roots {
        match read_table(alloc, device, form, left, root) {
            Ok(entry) => {
                left -= entry.segments().len() as u64;
                match entries.push(entry) {
                    Ok(()) => {}
                    Err(_) => return Err(OpenError::OutOfMemory),
                }
            }
            Err(error) => return Err(error),
        }
    }
    Ok(entries)
}
