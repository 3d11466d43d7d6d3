// Laws of the definitions. The functions do nothing: their contracts are the laws.
ghost use Rattle.std.specs.Prelude.{◌≡◌, ◌≢◌, ◌↔◌, List, Some, IsTrue};
ghost use Rattle.std.specs.List.{AllPairs};
ghost use Rattle.cells.specs.Cell.{Cell};
ghost use Rattle.cells.specs.Dictionary.{is_entry, entry_in, entries_of};
ghost use Rattle.cells.specs.Entries.{AreEntries};

/// Two values, one of which is neither a null nor a list nor a struct, are the same dictionary entry if and only if they are equal.
pub fn one_entry_is_one_value()
    ensures { (a b : Cell) → entry_in a ≡ Some a → (IsTrue (is_entry a b) ↔ (a ≡ b)) }
{}

/// The entries of a dictionary column are its distinct values in order of first occurrence, and no other list is.
pub fn entries_are_the_distinct_values()
    ensures values { (cells : List Cell) → AreEntries cells (entries_of cells) }
    ensures distinct { (cells : List Cell) → AllPairs (λ a b. a ≢ b) (entries_of cells) }
    ensures only { (cells entries : List Cell) → AreEntries cells entries → entries ≡ entries_of cells }
{}
