// The open exports.
ghost use Rattle.std.specs.Prelude.{◌≡◌, ◌≤◌, ◌==◌, true, false, length};
ghost use Rattle.std.specs.List.{position};
ghost use Rattle.segments.specs.declared.run.Run.{Run};
ghost use Rattle.segments.specs.Usages.{times_among};
ghost use Rattle.catalogue.specs.Entries.{plain_entry, runs_in_segments};
ghost use Rattle.export_book.specs.Book.{IsBook, MayGive, no_exports, runs_kept, is_full, open_at, with_open, with_given, without};
ghost use Rattle.export_book.specs.Plain.{book_in, is_counted, plain_export};
ghost use Rattle.export_book.specs.inner.Props.{book_prop};

use crate::OpenExport;
use catalogue::TableEntry;
use segments::Run;
use std::alloc::{AllocError, Global};

/// The maximum number of open exports.
pub const MAX_EXPORTS: usize = 64;

/// The open exports in the order in which they were opened, and the id of the next one.
#[derive(Drop)]
pub struct ExportBook {
    exports: Vec<OpenExport>,
    // `None` after the last id was used
    next: Option<u64>,
    ghost counted: { is_counted next ≡ true },
    ghost sound: { IsBook (book_in exports.items next) } by { book_prop (book_in exports.items next) },
}

// Returns the place of the export with this id, if it is open.
fn place_of(exports: &[OpenExport], id: u64) -> Option<usize>
    ensures { result ≡ position (λ e. e.id == id) exports.now }
{
    exports.iter().position(|export| export.id == id)
}

impl ExportBook {
    ghost use Rattle.std.specs.Prelude.{option_map, IfOk, OnOk, OnErr};
    ghost use Rattle.catalogue.specs.declared.limits.TheConstants.{MAX_SEGMENTS};
    ghost use Rattle.export_book.specs.View.{book_of};

    /// Creates a book without open exports, whose first id is 0.
    pub fn new(alloc: Global) -> Self
        ensures { book_of result ≡ no_exports }
    {
        ExportBook {
            exports: Vec::new(alloc),
            next: Some(0),
        }
    }

    /// Returns whether no further export can be opened: 64 are open, or the last id was used.
    pub fn is_full(&self) -> bool
        ensures full { result ≡ is_full (book_of self.now) }
        ensures sound { IsBook (book_of self.now) }
    {
        self.exports.len() >= MAX_EXPORTS || self.next.is_none()
    }

    /// Returns the export with this id, if it is open.
    pub fn get(&self, id: u64) -> Option<&OpenExport>
        ensures export { option_map (λ e. plain_export e.now) result ≡ open_at (book_of self.now) id }
        ensures sound { IsBook (book_of self.now) }
    {
        match place_of(&self.exports, id) {
            Some(place) => Some(&self.exports[place]),
            None => None,
        }
    }

    /// Returns the runs that the exports protect from being overwritten, each as often as exports name it.
    ///
    /// # Errors
    /// `AllocError` if memory was refused.
    pub fn runs(&self, alloc: Global) -> Result<Vec<Run>, AllocError>
        ensures { IfOk result (λ runs. runs.items ≡ runs_kept (book_of self.now).exports) }
    {
        let mut runs = Vec::new(alloc);
        for export in &self.exports {
            runs.extend_from_slice(&export.runs)?;
        }
        Ok(runs)
    }

    /// Opens an export of the table of this entry, and returns its id.
    ///
    /// # Errors
    /// `AllocError` if memory was refused; the book is then unchanged.
    pub fn open(&mut self, alloc: Global, entry: TableEntry) -> Result<u64, AllocError>
        requires room { is_full (book_of self.old) ≡ false }
        requires short { length (plain_entry entry).segments ≤ MAX_SEGMENTS }
        requires once { (run : Run) → times_among (runs_in_segments (plain_entry entry).segments) run ≤ 1 }
        ensures id { IfOk result (λ id. id ≡ (book_of self.old).next) }
        ensures opened { OnOk result (book_of self.new ≡ with_open (plain_entry entry).schema (plain_entry entry).segments (book_of self.old)) }
        ensures err { OnErr result (book_of self.new ≡ book_of self.old) }
    {
        let id = self.next.unwrap();
        let runs = entry.runs(alloc)?;
        let export = OpenExport {
            id,
            entry,
            runs,
            given: 0,
        };
        self.exports.push(export)?;
        let next = id.checked_add(1);
        self.next = next;
        Ok(id)
    }

    /// Counts one more piece of this export as given. Does nothing if it is not open.
    pub fn give(&mut self, id: u64)
        requires { MayGive (open_at (book_of self.old) id) }
        ensures { book_of self.new ≡ with_given id (book_of self.old) }
    {
        match place_of(&self.exports, id) {
            Some(place) => {
                let export = &mut self.exports[place];
                export.given += 1;
            }
            None => {}
        }
    }

    /// Closes the export with this id and returns it. Allocates no memory.
    pub fn close(&mut self, id: u64) -> Option<OpenExport>
        ensures closed { book_of self.new ≡ without id (book_of self.old) }
        ensures export { option_map plain_export result ≡ open_at (book_of self.old) id }
    {
        match place_of(&self.exports, id) {
            Some(place) => Some(self.exports.remove(place)),
            None => None,
        }
    }
}
