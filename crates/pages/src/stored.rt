// The catalogue of a store as commits see it.
ghost use Rattle.catalogue.specs.Entries.{PlainCatalogue, has_form};
ghost use Rattle.catalogue.specs.View.{catalogue_of};
ghost use Rattle.std.specs.Prelude.{◌≡◌, true};
ghost use Rattle.pages.specs.Stored.{form_of, stored_reading};
ghost use Rattle.pages.specs.laws.Local.{stored_is_local};

use crate::reading::read_pages;
use catalogue::{
    Catalogue, DecodeError, SegmentForm, decode, decode_root, one_root_each, one_text_each,
};
use commit::{CatalogueKind, Cause, Commit, FormatVersion, OpenError, ReadCatalogue};
use sector_dev::SectorDevice;
use segments::Run;
use std::alloc::{AllocError, Global};

// Returns the form of the texts in a version: version 2 has a digest for each segment.
fn form_of(version: FormatVersion) -> SegmentForm
    ensures { result ≡ form_of version }
{
    match version {
        FormatVersion::One => SegmentForm::Bare,
        FormatVersion::Two => SegmentForm::Digested,
    }
}

/// A catalogue of either kind: its tables in order, each with its page if it has one.
#[derive(Drop)]
pub struct StoredCatalogue {
    pub list: Catalogue,
}

impl ReadCatalogue for StoredCatalogue {
    ghost Plain = { PlainCatalogue };

    ghost plain_of = { λ stored. catalogue_of stored.list };

    ghost reading = { stored_reading };

    ghost fits_commit = { λ k c. has_form (form_of k.version) c ≡ true };

    fn read<D: SectorDevice>(
        alloc: Global,
        device: &mut D,
        commit: Commit,
        text: &[u8],
    ) -> Result<Self, OpenError> {
        one_text_each();
        one_root_each();
        let form = form_of(commit.version);
        match commit.kind {
            CatalogueKind::Whole => match decode(alloc, form, text) {
                Ok(list) => Ok(StoredCatalogue { list }),
                Err(DecodeError::NoText) => Err(OpenError::Damaged(Cause::CatalogueText)),
                Err(DecodeError::OutOfMemory) => Err(OpenError::OutOfMemory),
            },
            CatalogueKind::Pages => match decode_root(alloc, text) {
                Ok(roots) => match read_pages(alloc, device, form, &roots) {
                    Ok(entries) => Ok(StoredCatalogue {
                        list: Catalogue::of_entries(entries),
                    }),
                    Err(error) => Err(error),
                },
                Err(DecodeError::NoText) => Err(OpenError::Damaged(Cause::CatalogueText)),
                Err(DecodeError::OutOfMemory) => Err(OpenError::OutOfMemory),
            },
        }
    }

    fn runs(&self, alloc: Global) -> Result<Vec<Run>, AllocError> {
        self.list.runs(alloc)
    }

    ghost local = { stored_is_local };
}
