// Laws about the definitions. The functions do nothing: their contracts are the laws.
ghost use Rattle.std.specs.Prelude.{◌≡◌, ◌≢◌, ℕ, ◌+◌, take, slice_get, List, [], ◌∷◌, ◌++◌, Option, Some, None, Result, Ok, Err, IfOk, codes};
ghost use Rattle.std.specs.List.{Contains};
ghost use Rattle.arrow_schema.specs.Column.{PlainSchema};
ghost use Rattle.facts.specs.Bytes.{AreBytes};
ghost use Rattle.cells.specs.Cell.{Cell, PlainTable};
ghost use Rattle.cells.specs.Weight.{table_weight};
ghost use Rattle.tables.specs.declared.refusal.Refusal.{Refusal};
ghost use Rattle.tables.specs.declared.refusal.Refusal.TheVariants.{NoTable, NameTaken, BadName};
ghost use Rattle.tables.specs.Tables.{Tables, no_tables, table_at, with_table, without_table, AreTables};
ghost use Rattle.ipc_message.specs.Header.{supported_codes};
ghost use Rattle.ipc_stream.specs.Meaning.{meaning};
ghost use Rattle.query.specs.Query.{PlainQuery};
ghost use Rattle.query.specs.Selection.{selection};
ghost use Rattle.tables.specs.Commands.{PlainCommand, create, append_stream, append_rows, save_as, rename, drop_table, all_of, PlainCommands, commands_of};
ghost use Rattle.tables.specs.Commands.{changed_names, BringsTables, BringTables};
ghost use Rattle.tables.specs.Verdict.{verdict, refused_line, step, after, joined, empty_table};
ghost use Rattle.tables.specs.View.{command_of, list_of};

use crate::command::Command;
use ipc_stream::meaning_is_a_table;
use query::selection_is_a_table;
use values::{accepted_rows_are_a_table, tables_are_joined_and_cut};

/// A refused command leaves the tables as they are.
pub fn a_refused_command_changes_nothing()
    ensures { (t : Tables) (c : PlainCommand) (r : Refusal) → verdict t c ≡ Err r → step t c ≡ t }
{}

/// A command changes only the tables at its own names.
pub fn a_command_changes_its_names_alone()
    ensures { (t : Tables) (c : PlainCommand) (name : List ℕ) → ¬ Contains (changed_names c) name → table_at (step t c) name ≡ table_at t name }
{}

/// Executing a list of commands is executing its first part and then the rest.
pub fn commands_in_turn()
    ensures { (t : Tables) (cs ds : List PlainCommand) → after t (cs ++ ds) ≡ after (after t cs) ds }
{}

/// Several commands as one: if each is accepted on the tables that the ones before it leave, the tables after the list are those after all of them
/// (`accepted`). Otherwise the list is refused with the first refusal (`refused`), at its place (`line`), and as any refused command it changes nothing.
pub fn a_list_is_its_commands_in_turn()
    ensures accepted { (t u : Tables) (cs : List PlainCommand) → verdict t (all_of (commands_of cs)) ≡ Ok u → u ≡ after t cs }
    ensures refused { (t : Tables) (cs : PlainCommands) (r : Refusal) → verdict t (all_of cs) ≡ Err r → (n : ℕ) × (refused_line t (all_of cs) ≡ Some (n, r)) }
    ensures line { (t : Tables) (cs : List PlainCommand) (n : ℕ) (r : Refusal) → refused_line t (all_of (commands_of cs)) ≡ Some (n, r)
        → (verdict t (all_of (commands_of cs)) ≡ Err r)
        × ((c : PlainCommand) × (slice_get cs n ≡ Some c) × (verdict (after t (take n cs)) c ≡ Err r)) }
{}

/// The weight of joined rows is the sum of their weights.
pub fn joined_rows_weigh_together()
    ensures { (s : PlainSchema) (a b : List (List Cell)) → table_weight s (a ++ b) ≡ table_weight s a + table_weight s b }
{}

/// If all tables satisfy `IsTable`, they still do after commands that bring only such tables.
pub fn tables_stay_tables()
    ensures one { (t : Tables) (c : PlainCommand) → AreTables t → BringsTables c → AreTables (step t c) }
    ensures all { (t : Tables) (cs : List PlainCommand) → AreTables t → BringTables cs → AreTables (after t cs) }
{
    meaning_is_a_table();
    selection_is_a_table();
    accepted_rows_are_a_table();
    tables_are_joined_and_cut();
}

// Gives a contract that every element of a slice of bytes is below 256.
fn are_bytes(bytes: &[u8])
    ensures { AreBytes bytes.now }
{}

/// A `Command` satisfies `BringsTables`: its schema is within the limits, and its stream consists of bytes.
pub fn commands_bring_tables(command: &Command)
    ensures { BringsTables (command_of command.now) }
{
    match command {
        Command::ImportStream { bytes, .. } => are_bytes(bytes),
        _ => {}
    }
}

/// A list of commands satisfies `BringsTables`.
pub fn lists_bring_tables(commands: &[Command])
    ensures { BringsTables (list_of commands.now) }
{
    for command in commands {
        commands_bring_tables(command);
    }
}

/// The effect of single commands: appended rows, given directly or as a stream, follow all rows of the table; a saved query becomes the table at its
/// name; a created table is empty; a table is found at the name where it was put, and not after its removal; and three refusals.
pub fn worked_commands()
    ensures appended { (t u : Tables) (name : List ℕ) (table : PlainTable) (rows : List (List Cell)) → table_at t name ≡ Some table
        → verdict t (append_rows name rows) ≡ Ok u → u ≡ with_table t name (joined table rows) }
    ensures streamed { (t u : Tables) (name bytes : List ℕ) (table new : PlainTable) → table_at t name ≡ Some table
        → meaning supported_codes bytes ≡ Ok new
        → verdict t (append_stream name bytes) ≡ Ok u → u ≡ with_table t name (joined table new.rows) }
    ensures saved { (t u : Tables) (from to : List ℕ) (query : PlainQuery) (table selected : PlainTable) → table_at t from ≡ Some table
        → selection table query ≡ Ok selected → verdict t (save_as from to query) ≡ Ok u → u ≡ with_table t to selected }
    ensures created { (t u : Tables) (name : List ℕ) (s : PlainSchema) → verdict t (create name s) ≡ Ok u → u ≡ with_table t name (empty_table s) }
    ensures found { (t : Tables) (name : List ℕ) (table : PlainTable) → table_at (with_table t name table) name ≡ Some table }
    ensures away { (t : Tables) (name : List ℕ) → table_at (without_table t name) name ≡ None }
    ensures renamed_to_itself { (t : Tables) (table : PlainTable) → table_at t (codes "t") ≡ Some table
        → verdict t (rename (codes "t") (codes "t")) ≡ Err NameTaken }
    ensures dropped_twice { (t : Tables) → verdict (without_table t (codes "t")) (drop_table (codes "t")) ≡ Err NoTable }
    ensures bad_name { (t : Tables) (s : PlainSchema) → verdict t (create (codes "a b") s) ≡ Err BadName }
{}
