// Laws of books. The functions do nothing: their contracts are the laws.
ghost use Rattle.std.specs.Prelude.{◌≡◌, ◌≤◌, ◌<◌, ◌+◌, ℕ, List, None, Some};
ghost use Rattle.std.specs.List.{AllByRecursion};
ghost use Rattle.segments.specs.declared.run.Run.{Run};
ghost use Rattle.segments.specs.Usages.{times_among};
ghost use Rattle.export_book.specs.declared.book.TheConstants.{MAX_EXPORTS};
ghost use Rattle.arrow_schema.specs.Column.{PlainSchema};
ghost use Rattle.catalogue.specs.declared.entry.Segment.{Segment};
ghost use Rattle.catalogue.specs.Entries.{runs_in_segments};
ghost use Rattle.export_book.specs.Book.{PlainExport, PlainBook, IsBook, runs_kept, open_at, with_open, with_given, without};
ghost use Rattle.export_book.specs.Steps.{AreSteps};

/// Each export names a run at most once, so the pins of the run can be counted.
pub fn runs_are_kept_few_times()
    ensures { (b : PlainBook) (run : Run) → IsBook b → times_among (runs_kept b.exports) run ≤ MAX_EXPORTS }
{}

/// How often runs are named after each change: opening adds the runs of the segments, and closing removes them.
pub fn kept_runs_after_changes()
    ensures opened { (b : PlainBook) (schema : PlainSchema) (segments : List Segment) (run : Run)
        → times_among (runs_kept (with_open schema segments b).exports) run
        ≡ times_among (runs_kept b.exports) run + times_among (runs_in_segments segments) run }
    ensures given { (b : PlainBook) (id : ℕ) → runs_kept (with_given id b).exports ≡ runs_kept b.exports }
    ensures closed { (b : PlainBook) (id : ℕ) (e : PlainExport) (run : Run) → IsBook b → open_at b id ≡ Some e
        → times_among (runs_kept (without id b).exports) run + times_among (runs_in_segments e.segments) run
        ≡ times_among (runs_kept b.exports) run }
{}

/// The next id is that of no open export, and then that of the export that is opened. It never decreases, and a closed export is never open again.
pub fn ids_are_given_once()
    ensures new { (b : PlainBook) → IsBook b → open_at b b.next ≡ None }
    ensures opened { (b : PlainBook) (schema : PlainSchema) (segments : List Segment) → IsBook b
        → open_at (with_open schema segments b) b.next ≡ Some (record { id = b.next; schema = schema; segments = segments; given = 0 }) }
    ensures up { (b : PlainBook) (later : List PlainBook) → AreSteps b later → AllByRecursion (λ c. b.next ≤ c.next) later }
    ensures once { (b : PlainBook) (later : List PlainBook) (id : ℕ) → AreSteps b later → id < b.next → open_at b id ≡ None
        → AllByRecursion (λ c. open_at c id ≡ None) later }
{}
