// How a catalogue is stored: whole in its list, or each table in a page.
ghost use Rattle.std.specs.Prelude.{◌≡◌, ◌<◌, ◌+◌, ◌^◌, ◌++◌, ◌∷◌, [], None, true, map, flat_map, length, drop, vec_len, OnOk, IfOk};
ghost use Rattle.segments.specs.Pieces.{bytes_of_parts};
ghost use Rattle.commit.specs.Placing.{plain_contents};
ghost use Rattle.catalogue.specs.Entries.{PlainEntry, plain_entry, plain_root, is_entry, page_runs, bare, IsRoot};
ghost use Rattle.catalogue.specs.Text.{table_text, table_size, list_size, root_text};
ghost use Rattle.catalogue.specs.View.{catalogue_of};
ghost use Rattle.pages.specs.Paging.{is_whole, kind_of, pageless, page_sizes, root_bytes, text_size, with_pages, AreFilled, ArePageRuns, settled, dropped_pages, page_texts, root_of, settled_text};

use catalogue::{
    Catalogue, RootEntry, TableEntry, encode, encode_page, encode_root, one_page_each, page_size,
    texts_have_these_sizes,
};
use commit::CatalogueKind;
use segments::{Extent, PiecePart, Run};
use std::alloc::{AllocError, Global};

/// How a catalogue is to be stored: its kind, the size in bytes of each page to be written, in the order of the names, and that of the list or root
/// after them.
#[derive(Drop)]
pub struct Layout {
    pub kind: CatalogueKind,
    pub pages: Vec<u64>,
    pub text_bytes: usize,
    /// The runs of the pages that are given up if the catalogue is stored whole.
    pub dropped: Vec<Run>,
}

// The maximum size in bytes of a list that is stored whole: that of a sector.
const MOST_LIST_BYTES: u64 = 512;

// Returns whether the list is short enough to be stored whole. Stops at the first table that exceeds the limit.
fn is_whole(alloc: Global, list: &Catalogue) -> Result<bool, AllocError>
    ensures { IfOk result (λ whole. whole ≡ is_whole (catalogue_of list.now)) }
{
    let entries = list.entries();
    let mut size = 4;
    for entry in entries {
        size += 4 + entry.name().len() as u64 + page_size(alloc, entry)?;
        if size > MOST_LIST_BYTES {
            return Ok(false);
        }
    }
    Ok(true)
}

// Returns the size in bytes of the page of each table that has none.
fn page_sizes(alloc: Global, list: &Catalogue) -> Result<Vec<u64>, AllocError>
    ensures { IfOk result (λ sizes. sizes.items ≡ map table_size (pageless (catalogue_of list.now))) }
{
    let entries = list.entries();
    let mut sizes = Vec::new(alloc);
    for entry in entries {
        if entry.page.is_none() {
            sizes.push(page_size(alloc, entry)?)?;
        }
    }
    Ok(sizes)
}

// Returns the size of the root in bytes, which does not depend on where the pages lie.
fn root_bytes(list: &Catalogue) -> usize
    ensures { result ≡ root_bytes (catalogue_of list.now) }
{
    let entries = list.entries();
    let mut bytes = 4;
    for entry in entries {
        bytes += 28 + entry.name().len();
    }
    bytes
}

fn runs_of_pages(alloc: Global, list: &Catalogue) -> Result<Vec<Run>, AllocError>
    ensures { IfOk result (λ runs. runs.items ≡ flat_map (λ (e : PlainEntry). page_runs e.page) (catalogue_of list.now)) }
{
    let entries = list.entries();
    let mut runs = Vec::new(alloc);
    for entry in entries {
        if let Some(page) = entry.page {
            runs.push(page.run)?;
        }
    }
    Ok(runs)
}

/// Returns how this catalogue is to be stored. This does not depend on where its segments lie.
///
/// # Errors
/// `AllocError` if memory was refused.
pub fn layout_of(alloc: Global, list: &Catalogue) -> Result<Layout, AllocError>
    ensures kind { IfOk result (λ layout. layout.kind ≡ kind_of (catalogue_of list.now)) }
    ensures pages { IfOk result (λ layout. layout.pages.items ≡ page_sizes (catalogue_of list.now)) }
    ensures text { IfOk result (λ layout. layout.text_bytes ≡ text_size (catalogue_of list.now)) }
    ensures dropped { IfOk result (λ layout. layout.dropped.items ≡ dropped_pages (catalogue_of list.now)) }
{
    texts_have_these_sizes();
    if is_whole(alloc, list)? {
        let text = encode(alloc, list)?;
        return Ok(Layout {
            kind: CatalogueKind::Whole,
            pages: Vec::new(alloc),
            text_bytes: text.len(),
            dropped: runs_of_pages(alloc, list)?,
        });
    }
    Ok(Layout {
        kind: CatalogueKind::Pages,
        pages: page_sizes(alloc, list)?,
        text_bytes: root_bytes(list),
        dropped: Vec::new(alloc),
    })
}

// Appends a text as contents of their own.
fn put_text(
    alloc: Global,
    texts: &mut Vec<Vec<PiecePart<'_>>>,
    text: Vec<u8>,
) -> Result<(), AllocError>
    ensures texts { OnOk result (plain_contents texts.new.items ≡ plain_contents texts.old.items ++ text.items ∷ []) }
    ensures count { OnOk result (vec_len texts.new ≡ vec_len texts.old + 1) }
{
    let mut parts = Vec::new(alloc);
    parts.push(PiecePart::Made(text))?;
    texts.push(parts)?;
    Ok(())
}

// Returns the table with its page: its own, or one in the next of these runs, whose text is appended to the others.
fn with_page(
    alloc: Global,
    entry: TableEntry,
    runs: &[Run],
    texts: &mut Vec<Vec<PiecePart<'_>>>,
) -> Result<TableEntry, AllocError>
    requires sound { is_entry (plain_entry entry) ≡ true }
    requires few { length (plain_entry entry).segments < 2 ^ 32 }
    requires run { entry.page ≡ None → vec_len texts.old < length runs.now }
    ensures entry { IfOk result (λ made. plain_entry made ∷ [] ≡ with_pages (plain_entry entry ∷ []) (drop (vec_len texts.old) runs.now)) }
    ensures texts { OnOk result (plain_contents texts.new.items ≡ plain_contents texts.old.items ++ map table_text (pageless (plain_entry entry ∷ []))) }
{
    one_page_each();
    if entry.page.is_some() {
        return Ok(entry);
    }
    let text = encode_page(alloc, &entry)?;
    let page = Extent {
        run: runs[texts.len()],
        bytes: text.len() as u64,
    };
    put_text(alloc, texts, text)?;
    let mut paged = entry;
    paged.page = Some(page);
    Ok(paged)
}

// Returns the tables with their pages, and the texts of the new pages.
fn with_pages<'a>(
    alloc: Global,
    list: Catalogue,
    runs: &[Run],
) -> Result<(Catalogue, Vec<Vec<PiecePart<'a>>>), AllocError>
    requires { AreFilled (pageless (catalogue_of list)) runs.now }
    ensures catalogue { IfOk result (λ kept. catalogue_of kept.0 ≡ with_pages (catalogue_of list) runs.now) }
    ensures texts { IfOk result (λ kept. plain_contents kept.1.items ≡ map table_text (pageless (catalogue_of list))) }
{
    let mut texts = Vec::new(alloc);
    let mut entries = Vec::with_capacity(alloc, list.len())?;
    for entry in list.into_entries() {
        entries.push(with_page(alloc, entry, runs, &mut texts)?)?;
    }
    Ok((Catalogue::of_entries(entries), texts))
}

// Returns the tables without their pages.
fn without_pages(alloc: Global, list: Catalogue) -> Result<Catalogue, AllocError>
    ensures { IfOk result (λ kept. catalogue_of kept ≡ map bare (catalogue_of list)) }
{
    let mut entries = Vec::with_capacity(alloc, list.len())?;
    for entry in list.into_entries() {
        let mut pageless = entry;
        pageless.page = None;
        entries.push(pageless)?;
    }
    Ok(Catalogue::of_entries(entries))
}

// Returns the root of tables that have pages.
fn root_of(alloc: Global, entries: &[TableEntry]) -> Result<Vec<RootEntry<'_>>, AllocError>
    ensures { IfOk result (λ root. map plain_root root.items ≡ root_of (map plain_entry entries.now)) }
{
    let mut root = Vec::with_capacity(alloc, entries.len())?;
    for entry in entries {
        if let Some(page) = entry.page {
            let name = entry.name();
            root.push(RootEntry { name, page })?;
        }
    }
    Ok(root)
}

// Returns the text of the root of tables that have pages.
fn root_text(alloc: Global, list: &Catalogue) -> Result<Vec<u8>, AllocError>
    requires { IsRoot (root_of (catalogue_of list.now)) }
    ensures { IfOk result (λ text. text.items ≡ root_text (root_of (catalogue_of list.now))) }
{
    let root = root_of(alloc, list.entries())?;
    encode_root(alloc, &root)
}

/// Returns the catalogue as it is stored, with its new pages in these runs in order, and the texts to be written for it: those of the pages, and then
/// its list or its root.
///
/// # Errors
/// `AllocError` if memory was refused.
pub fn settle<'a>(
    alloc: Global,
    list: Catalogue,
    kind: CatalogueKind,
    runs: &[Run],
) -> Result<(Catalogue, Vec<Vec<PiecePart<'a>>>), AllocError>
    requires kind { kind ≡ kind_of (catalogue_of list) }
    requires runs { ArePageRuns (catalogue_of list) runs.now }
    ensures catalogue { IfOk result (λ kept. catalogue_of kept.0 ≡ settled (catalogue_of list) runs.now) }
    ensures texts { IfOk result (λ kept. plain_contents kept.1.items
        ≡ page_texts (catalogue_of list) ++ settled_text (catalogue_of list) runs.now ∷ []) }
{
    match kind {
        CatalogueKind::Whole => {
            let text = encode(alloc, &list)?;
            let mut texts = Vec::new(alloc);
            put_text(alloc, &mut texts, text)?;
            Ok((without_pages(alloc, list)?, texts))
        }
        CatalogueKind::Pages => {
            let (list, mut texts) = with_pages(alloc, list, runs)?;
            let text = root_text(alloc, &list)?;
            put_text(alloc, &mut texts, text)?;
            Ok((list, texts))
        }
    }
}
