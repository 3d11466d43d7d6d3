// Answers queries of the tables of an open store. One segment is decoded at a time.
ghost use Rattle.std.specs.Prelude.{◌≡◌, true, IfOk, IfErr};
ghost use Rattle.sector_dev.specs.Disk.{now, shown_image};
ghost use Rattle.cells.specs.Cell.{PlainTable};
ghost use Rattle.catalogue.specs.Entries.{is_entry, plain_entry, runs_in_segments};
ghost use Rattle.commit.specs.Standing.{is_size, all_on_device};
ghost use Rattle.query.specs.View.{query_in};
ghost use Rattle.store_runs.specs.Reading.{IsRead, Unreads, OnlyReadsDevice, ended};
ghost use Rattle.store.specs.Selecting.{AnswersQuery};

use crate::Store;
use crate::reading::halts;
use crate::taking::{TakesRows, take_entry};
use catalogue::TableEntry;
use query::{Query, QueryError, RowForm};
use sector_dev::SectorDevice;
use selection::LinePrinter;
use std::alloc::{AllocError, Global};
use store_changes::{table_laws, weigh_entry};
use tables::Refusal;
use values::Table;

// The lines of the rows so far, and the printer of those that follow.
#[derive(Drop)]
struct LinesSoFar {
    text: Vec<u8>,
    printer: LinePrinter,
}

impl TakesRows for LinesSoFar {
    ghost use Rattle.selection.specs.LinePrinter.{PrintsOf, printer_in};
    ghost use Rattle.store.specs.inner.Selecting.{HasLines};
    ghost use Rattle.store.specs.laws.Taking.{no_lines};

    ghost takes = { λ l s. PrintsOf (printer_in l.printer) s.columns };

    ghost has_taken = { HasLines };

    fn take(self, alloc: Global, next: &Table) -> Result<Self, AllocError> {
        let LinesSoFar {
            mut text,
            mut printer,
        } = self;
        printer.push_lines(alloc, &mut text, next)?;
        Ok(LinesSoFar { text, printer })
    }

    ghost begins = { no_lines };
}

// Answers a query of the table of an entry. All of its segments are read, also if the query is refused.
fn answer_query<D: SectorDevice>(
    alloc: Global,
    device: &mut D,
    entry: &TableEntry,
    query: &Query,
    form: RowForm,
) -> Result<Result<Vec<u8>, QueryError>, Refusal>
    requires size { is_size (D.size device.old) ≡ true }
    requires placed { all_on_device (D.size device.old) (runs_in_segments (plain_entry entry.now).segments) ≡ true }
    requires sound { is_entry (plain_entry entry.now) ≡ true }
    ensures reads { OnlyReadsDevice D.size D.story D.failed D.tells (ended result) device.old device.new }
    ensures answers { IfOk result (λ answer. (t : PlainTable) × IsRead D.tells (shown_image (now (D.story device.old))) (plain_entry entry.now) t
        × AnswersQuery form t (query_in query.now) answer) }
    ensures unread { IfErr result (Unreads D.tells (shown_image (now (D.story device.old))) (plain_entry entry.now)) }
{
    match LinePrinter::new(alloc, entry.schema(), query, form) {
        Ok(printer) => {
            let text = Vec::new(alloc);
            let start = LinesSoFar { text, printer };
            match take_entry(alloc, device, entry, start) {
                Ok(lines) => Ok(Ok(lines.text)),
                Err(refusal) => Err(refusal),
            }
        }
        Err(error) => match weigh_entry(alloc, device, entry) {
            Ok(_) => Ok(Err(error)),
            Err(refusal) => Err(refusal),
        },
    }
}

impl<D: SectorDevice> Store<D> {
    ghost use Rattle.catalogue.specs.Edits.{entry_of};
    ghost use Rattle.tables.specs.Tables.{Tables};
    ghost use Rattle.store_runs.specs.Calls.{read_call, table_is, refused};
    ghost use Rattle.store_runs.specs.Machine.{Machine};
    ghost use Rattle.store.specs.Fits.{StoreFits, device_of, listed_in, is_halted};
    ghost use Rattle.store.specs.Applying.{GoesOn};
    ghost use Rattle.store_runs.specs.Reading.{RefusesRead, ReadsTable};
    ghost use Rattle.store.specs.Reading.{OnlyReadsStore};

    // Answers a query of the table with this name, on any store.
    fn lines_named(
        &mut self,
        alloc: Global,
        name: &str,
        query: &Query,
        form: RowForm,
    ) -> Result<Result<Vec<u8>, QueryError>, Refusal>
        ensures answers { IfOk result (λ answer. (t : PlainTable) × ReadsTable (is_halted self.old) D.tells
            (shown_image (now (D.story (device_of self.old)))) (entry_of (listed_in self.old) name.now) t × AnswersQuery form t (query_in query.now) answer) }
        ensures told { IfErr result (RefusesRead (is_halted self.old) D.tells (shown_image (now (D.story (device_of self.old))))
            (entry_of (listed_in self.old) name.now)) }
        ensures reads { OnlyReadsStore D.size D.story D.failed D.tells (ended result) self.old self.new }
    {
        if self.halted {
            return Err(Refusal::Halted);
        }
        let opened = &self.opened;
        match opened.catalogue.list.get(name) {
            Some(entry) => {
                let answer = answer_query(alloc, &mut self.device, entry, query, form);
                self.halted = halts(&answer);
                answer
            }
            None => Err(Refusal::NoTable),
        }
    }

    /// Returns a line in this form for each row that a query selects from the table with this name, or why the query is refused. Only reads. The whole
    /// table is read in either case, and one segment of it is decoded at a time.
    ///
    /// ```
    /// let conditions = vec![in alloc; Condition::parse(alloc, "millidegrees < 0")?]?;
    /// let cold = Query { columns: Vec::new(alloc), conditions, limit: None, dates: DateForm::Numbers };
    /// let form = RowForm { shape: RowShape::Array, dates: DateForm::Numbers };
    /// let lines = store.selected_lines(alloc, "readings", &cold, form)??;
    /// ```
    ///
    /// # Errors
    /// Those of [`Store::read`]; and within, those of `selection::push_selected_lines`.
    pub fn selected_lines(
        &mut self,
        alloc: Global,
        name: &str,
        query: &Query,
        form: RowForm,
    ) -> Result<Result<Vec<u8>, QueryError>, Refusal>
        // On a store that represents a machine, it is the answer of the table of the settled commands, which a read returns.
        ensures goes { IfOk result (λ answer. D.tells ≡ true → (base : Tables) (m : Machine) → StoreFits D.size D.story base m self.old
            → (t : PlainTable) × AnswersQuery form t (query_in query.now) answer
            × GoesOn D.size D.story D.failed base m (read_call name.now) (table_is t) self.old self.new) }
        ensures refused { IfErr result (λ e. D.tells ≡ true → (base : Tables) (m : Machine) → StoreFits D.size D.story base m self.old
            → GoesOn D.size D.story D.failed base m (read_call name.now) (refused e) self.old self.new) }
        // On any store, it is the answer of the table that reads show of the entry in the catalogue.
        ensures answers { IfOk result (λ answer. (t : PlainTable) × ReadsTable (is_halted self.old) D.tells
            (shown_image (now (D.story (device_of self.old)))) (entry_of (listed_in self.old) name.now) t × AnswersQuery form t (query_in query.now) answer) }
        ensures told { IfErr result (RefusesRead (is_halted self.old) D.tells (shown_image (now (D.story (device_of self.old))))
            (entry_of (listed_in self.old) name.now)) }
        ensures reads { OnlyReadsStore D.size D.story D.failed D.tells (ended result) self.old self.new }
    {
        table_laws();
        match self.lines_named(alloc, name, query, form) {
            Ok(answer) => Ok(answer),
            Err(refusal) => Err(refusal),
        }
    }
}
