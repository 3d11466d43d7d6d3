// Publishes a new commit in place of the one that rules.
ghost use Rattle.std.specs.Prelude.{◌≡◌, ◌<◌, ◌+◌, ◌^◌, ◌++◌, ℕ, true, OnOk, OnErr, IfErr, vec_len};
ghost use Rattle.sector_dev.specs.Disk.{Counts};
ghost use Rattle.segments.specs.Pieces.{plain_pieces};
ghost use Rattle.segments.specs.Writing.{runs_of};
ghost use Rattle.commit.specs.Placing.{HasRoom, contents_of, plain_contents};
ghost use Rattle.commit.specs.Publishing.{IsPlan, next_commit, Publishes, EndsPublished};
ghost use Rattle.commit.specs.InOrder.{AreDone, OneFails, publishing_calls};
ghost use Rattle.commit.specs.Replacing.{change_of, Replaces, LeavesEither, KeepsAgreement, EndsReplaced};

use crate::placing::pieces_of;
use crate::sector::commit_sector;
use crate::{CatalogueKind, Commit, FormatVersion, Opened, Places, ReadCatalogue};
use sector_dev::{DevError, SectorDevice};
use segments::{Extent, Piece, PiecePart, Run, write_runs};

/// What is to be published: the next commit, its catalogue, and the bytes that are written for it.
#[derive(Drop)]
pub struct Plan<'a, C> {
    pub commit: Commit,
    pub catalogue: C,
    pub pieces: Vec<Piece<'a>>,
    /// The runs of the pieces, in order. If the plan is not published, they must be given back.
    pub runs: Vec<Run>,
}

/// Plans the next commit: the pieces that were placed, then the texts of pages, and then the text of its catalogue, which has `text_bytes` bytes.
/// Allocates no memory.
pub fn plan_next<'a, C>(
    old: Commit,
    version: FormatVersion,
    kind: CatalogueKind,
    catalogue: C,
    places: Places<'a>,
    texts: Vec<Vec<PiecePart<'a>>>,
    text_bytes: u64,
) -> Plan<'a, C>
    requires epoch { old.epoch + 1 < 2 ^ 64 }
    requires room { (pages : ℕ) × (vec_len texts ≡ pages + 1) × HasRoom pages places }
    ensures commit { result.commit ≡ next_commit old version kind places.entry.text text_bytes }
    ensures catalogue { result.catalogue ≡ catalogue }
    ensures contents { contents_of (plain_pieces result.pieces.items) ≡ contents_of (plain_pieces places.entry.pieces.items) ++ plain_contents texts.entry.items }
    ensures placed { runs_of (plain_pieces result.pieces.items) ≡ places.entry.runs.items }
    ensures runs { result.runs ≡ places.entry.runs }
{
    let Places { pieces, text, runs } = places;
    let pieces = pieces_of(texts, &runs, pieces);
    let commit = Commit {
        epoch: old.epoch + 1,
        catalogue: Extent {
            run: text,
            bytes: text_bytes,
        },
        device_sectors: old.device_sectors,
        version,
        kind,
    };
    Plan {
        commit,
        catalogue,
        pieces,
        runs,
    }
}

// Writes and syncs the pieces, and then the commit.
fn write_and_commit<D: SectorDevice>(
    device: &mut D,
    old: Commit,
    new: Commit,
    pieces: &[Piece<'_>],
) -> Result<(), DevError>
    requires { IsPlan (D.size device.old) old new (plain_pieces pieces.now) }
    ensures size { D.size device.new ≡ D.size device.old }
    ensures count { Counts (D.failed device.old) (D.failed device.new) result }
    ensures error { IfErr result (λ e. e ≡ DevError.Failed) }
    ensures moments { D.tells ≡ true → Publishes old new (plain_pieces pieces.now) (D.story device.old) (D.story device.new) }
    ensures published { OnOk result (D.tells ≡ true → EndsPublished old new (plain_pieces pieces.now) (D.story device.old) (D.story device.new)) }
    ensures order { OnOk result (D.tells ≡ true → AreDone (publishing_calls new (plain_pieces pieces.now)) (D.story device.old) (D.story device.new)) }
    ensures cut_short { OnErr result (D.tells ≡ true → OneFails (publishing_calls new (plain_pieces pieces.now)) (D.story device.old) (D.story device.new)) }
{
    write_runs(device, pieces)?;
    device.sync()?;
    let sector = commit_sector(new);
    device.write(new.epoch % 2, &sector)?;
    device.sync()?;
    Ok(())
}

/// Writes the pieces into their runs, syncs, writes the new commit into the sector of its epoch, and syncs. A crash at any moment leaves the old
/// store, or the new one with all of its pieces.
///
/// # Errors
/// `Failed` only: the device failed. The store is the old one or the new one.
pub fn publish<C: ReadCatalogue, D: SectorDevice>(
    device: &mut D,
    old: &Opened<C>,
    plan: &Plan<'_, C>,
) -> Result<(), DevError>
    requires { IsPlan (D.size device.old) old.now.commit plan.now.commit (plain_pieces plan.now.pieces.items) }
    ensures size { D.size device.new ≡ D.size device.old }
    ensures count { Counts (D.failed device.old) (D.failed device.new) result }
    ensures error { IfErr result (λ e. e ≡ DevError.Failed) }
    // At each moment a crash leaves the old store or the new one, and nothing else is changed.
    ensures moments { D.tells ≡ true →
        Replaces C.reading (D.size device.old) (change_of C.plain_of old.now plan.now) (D.story device.old) (D.story device.new) }
    ensures left { D.tells ≡ true →
        LeavesEither C.reading (D.size device.old) (change_of C.plain_of old.now plan.now) (D.story device.old) (D.story device.new) }
    // If the commit sectors agreed, they do so in each image that a crash may leave.
    ensures agree { D.tells ≡ true →
        KeepsAgreement C.reading (D.size device.old) (change_of C.plain_of old.now plan.now) (D.story device.old) (D.story device.new) }
    // After `Ok` the new store is in place, and everything is synced.
    ensures published { OnOk result
        (D.tells ≡ true → EndsReplaced C.reading (D.size device.old) (change_of C.plain_of old.now plan.now) (D.story device.old) (D.story device.new)) }
    // Each sector of the pieces is written once, in order, then comes a sync, then the commit, then a sync, and no other call; after an error, those
    // before the call that failed.
    ensures order { OnOk result
        (D.tells ≡ true → AreDone (publishing_calls plan.now.commit (plain_pieces plan.now.pieces.items)) (D.story device.old) (D.story device.new)) }
    ensures cut_short { OnErr result
        (D.tells ≡ true → OneFails (publishing_calls plan.now.commit (plain_pieces plan.now.pieces.items)) (D.story device.old) (D.story device.new)) }
{
    write_and_commit(device, old.commit, plan.commit, &plan.pieces)
}
