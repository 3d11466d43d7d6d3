// The parameters of each command of a store, as `clap` parses them.
ghost use Rattle.std.specs.Prelude.{◌≡◌, false, codes, IfOk};
ghost use Rattle.clap.specs.Words.{app_of, new_app, rule_of, with_rule};
ghost use Rattle.clap.specs.declared.builder.value_parser.ValueParser.{ValueParser};
ghost use Rattle.cli_requests.specs.Apps.{required_rule, flag_rule, sectors_rule, sectors_if_any_rule, version_rule, repeated_rule, option_rule, form_rule, null_rule, dates_rule, query_dates_rule, limit_rule, steps_rule};
ghost use Rattle.cli_requests.specs.Apps.{store_app, info_app, compact_app, send_app, receive_app, format_app, new_file_app, copy_app, table_app, apply_app, import_app, rename_app, fields_app, schema_app, create_app, append_app, conditions_app, selection_app, query_app};
ghost use Rattle.cli_requests.specs.Apps.{AreForms, AreDateForms, other_parameters, parameters_of, IsOwnApp};
ghost use Rattle.cli_requests.specs.Operands.{names_file, names_table};

use crate::command_help::{COMMANDS, CommandHelp, texts_of};
use crate::replaying::with_faults;
use clap::builder::ValueParser;
use clap::{Arg, ArgAction, Command};
use std::alloc::{AllocError, Global};

// The input forms of `append`.
const FORMS: [&str; 3] = ["stream", "csv", "jsonl"];

// How dates and times may stand in texts.
const DATES: [&str; 2] = ["number", "iso"];

// What a command takes after the file of the store.
#[derive(Clone, Copy)]
enum Parameters {
    Nothing,
    FileAndForm,
    FileAndSteps,
    FileAndDigests,
    FileAndDeletion,
    Sectors,
    NewStore,
    Script,
    Table,
    TableToDescribe,
    TableToImport,
    TableAndFields,
    TableAndRows,
    TableAndNewName,
    TableAndQuery,
    ScriptAndFaults,
}

pub(crate) fn required<'a>(alloc: Global, id: &'a str, help: &'a str) -> Arg<'a>
    ensures { (rule_of result ≡ required_rule id.entry.now) × (result.global ≡ false) }
{
    Arg::new(alloc, id).required(true).help(help)
}

// Makes a parameter that takes any number of words.
fn repeated<'a>(alloc: Global, id: &'a str, help: &'a str) -> Arg<'a>
    ensures { (rule_of result ≡ repeated_rule id.entry.now) × (result.global ≡ false) }
{
    Arg::new(alloc, id).num_args(0..).help(help)
}

pub(crate) fn option<'a>(alloc: Global, id: &'a str, value: &'a str, help: &'a str) -> Arg<'a>
    ensures { (rule_of result ≡ option_rule id.entry.now) × (result.global ≡ false) }
{
    Arg::new(alloc, id).long(id).value_name(value).help(help)
}

// Makes an option without a value.
fn flag<'a>(alloc: Global, id: &'a str, help: &'a str) -> Arg<'a>
    ensures { (rule_of result ≡ flag_rule id.entry.now) × (result.global ≡ false) }
{
    Arg::new(alloc, id)
        .long(id)
        .action(ArgAction::SetTrue)
        .help(help)
}

fn sectors<'a>(alloc: Global) -> Arg<'a>
    ensures { (rule_of result ≡ sectors_rule) × (result.global ≡ false) }
{
    required(
        alloc,
        "SECTORS",
        "The number of sectors of 512 bytes, 16 to 4194304",
    )
    .value_parser(ValueParser::unsigned(0, u64::MAX))
}

// A block device has a number of sectors of its own.
fn sectors_if_any<'a>(alloc: Global) -> Arg<'a>
    ensures { (rule_of result ≡ sectors_if_any_rule) × (result.global ≡ false) }
{
    Arg::new(alloc, "SECTORS")
        .help(
            "The number of sectors of 512 bytes, 16 to 4194304; a block device is taken whole, and may do without it",
        )
        .value_parser(ValueParser::unsigned(0, u64::MAX))
}

pub(crate) fn format_version<'a>(alloc: Global) -> Arg<'a>
    ensures { (rule_of result ≡ version_rule) × (result.global ≡ false) }
{
    option(
        alloc,
        "format-version",
        "V",
        "The version of the store: 2, with a digest of each segment, is the default; 1 is without digests",
    )
    .value_parser(ValueParser::unsigned(1, 2))
}

fn form<'a>(alloc: Global) -> Arg<'a>
    ensures { ((forms : ValueParser) × AreForms forms × (rule_of result ≡ form_rule forms)) × (result.global ≡ false) }
{
    option(
        alloc,
        "as",
        "FORM",
        "The form of the input: csv begins with a line of the names of the columns, jsonl has a row on each line",
    )
    .value_parser(ValueParser::Names(&FORMS))
    .default_value("stream")
}

fn null_text<'a>(alloc: Global) -> Arg<'a>
    ensures { (rule_of result ≡ null_rule) × (result.global ≡ false) }
{
    option(
        alloc,
        "null",
        "TEXT",
        "In CSV, the text that means null in a column that allows nulls; by default the empty text; ignored in other forms; write --null=TEXT if it begins with a hyphen",
    )
    .default_value("")
    .hide_default_value(true)
}

fn dates<'a>(alloc: Global) -> Arg<'a>
    ensures { ((dates : ValueParser) × AreDateForms dates × (rule_of result ≡ dates_rule dates)) × (result.global ≡ false) }
{
    option(
        alloc,
        "dates",
        "HOW",
        "How dates and timestamps stand in CSV and JSON Lines: number is the number of days, seconds, .. since 1970-01-01; iso is as in 2026-11-30 or 2026-11-30T12:34:56Z",
    )
    .value_parser(ValueParser::Names(&DATES))
    .default_value("number")
}

// How dates stand in what a query is given and prints.
fn query_dates<'a>(alloc: Global) -> Arg<'a>
    ensures { ((dates : ValueParser) × AreDateForms dates × (rule_of result ≡ query_dates_rule dates)) × (result.global ≡ false) }
{
    option(
        alloc,
        "dates",
        "HOW",
        "How dates and timestamps stand in the conditions and in the lines: number, the default, is the number of days, seconds, .. since 1970-01-01; iso is as in 2026-11-30 or 2026-11-30T12:34:56Z",
    )
    .value_parser(ValueParser::Names(&DATES))
}

fn limit<'a>(alloc: Global) -> Arg<'a>
    ensures { (rule_of result ≡ limit_rule) × (result.global ≡ false) }
{
    option(alloc, "limit", "N", "The maximum number of rows").value_parser(ValueParser::unsigned(
        0,
        u64::MAX,
    ))
}

fn steps<'a>(alloc: Global) -> Arg<'a>
    ensures { (rule_of result ≡ steps_rule) × (result.global ≡ false) }
{
    option(
        alloc,
        "steps",
        "N",
        "The maximum number of steps; without it there are steps until nothing is left to do",
    )
    .value_parser(ValueParser::unsigned(0, u64::MAX))
}

#[tactic(auto, unfolding(crate::specs::Operands::names_file))]
fn names_file(word: &str) -> bool
    ensures { result ≡ names_file word.now }
{
    matches!(word, "tables" | "check" | "upgrade" | "have")
}

#[tactic(auto, unfolding(crate::specs::Operands::names_table))]
fn names_table(word: &str) -> bool
    ensures { result ≡ names_table word.now }
{
    matches!(word, "drop" | "export" | "salvage")
}

#[tactic(auto, unfolding(crate::specs::Apps::other_parameters))]
fn other_parameters(word: &str) -> Parameters
    ensures { result ≡ other_parameters word.now }
{
    match word {
        "format" => Parameters::Sectors,
        "copy" => Parameters::NewStore,
        "create" => Parameters::TableAndFields,
        "append" => Parameters::TableAndRows,
        "replay" => Parameters::ScriptAndFaults,
        "info" => Parameters::FileAndForm,
        "import" => Parameters::TableToImport,
        "schema" => Parameters::TableToDescribe,
        "apply" => Parameters::Script,
        "compact" => Parameters::FileAndSteps,
        "send" => Parameters::FileAndDigests,
        "receive" => Parameters::FileAndDeletion,
        _ => Parameters::TableAndQuery,
    }
}

#[tactic(auto, unfolding(crate::specs::Apps::parameters_of))]
fn parameters_of(word: &str) -> Parameters
    ensures { result ≡ parameters_of word.now }
{
    if names_file(word) {
        Parameters::Nothing
    } else if names_table(word) {
        Parameters::Table
    } else if word == "rename" {
        Parameters::TableAndNewName
    } else {
        other_parameters(word)
    }
}

// Makes a command with its help and its first operand.
pub(crate) fn with_operand<'a>(
    alloc: Global,
    name: &'a str,
    id: &'a str,
    help: &'a str,
) -> Result<Command<'a>, AllocError>
    ensures { IfOk result (λ c. app_of c ≡ with_rule (new_app name.now) (required_rule id.now)) }
{
    let (about, example) = texts_of(name);
    Command::new(alloc, name)
        .about(about)
        .after_help(example)
        .arg(required(alloc, id, help))
}

fn with_file<'a>(alloc: Global, name: &'a str) -> Result<Command<'a>, AllocError>
    ensures { IfOk result (λ c. app_of c ≡ store_app name.now) }
{
    with_operand(alloc, name, "STORE", "The file of the store")?.arg(flag(
        alloc,
        "wait",
        "Waits for other commands on the store, instead of being refused",
    ))
}

// Makes a command that takes `--json`.
fn with_form<'a>(alloc: Global, name: &'a str) -> Result<Command<'a>, AllocError>
    ensures { IfOk result (λ c. app_of c ≡ info_app name.now) }
{
    with_file(alloc, name)?.arg(flag(alloc, "json", "Prints one JSON object on one line"))
}

// Makes a command that takes a maximum number of steps.
fn with_steps<'a>(alloc: Global, name: &'a str) -> Result<Command<'a>, AllocError>
    ensures { IfOk result (λ c. app_of c ≡ compact_app name.now) }
{
    with_file(alloc, name)?.arg(steps(alloc))
}

// Makes a command that takes the digests that a receiver has.
fn with_digests<'a>(alloc: Global, name: &'a str) -> Result<Command<'a>, AllocError>
    ensures { IfOk result (λ c. app_of c ≡ send_app name.now) }
{
    with_file(alloc, name)?.arg(option(
        alloc,
        "have",
        "FILE",
        "The digests of the segments that the receiver has, as have prints them: these segments are left out; - reads them from standard input",
    ))
}

// Makes a command that takes `--delete`.
fn with_deletion<'a>(alloc: Global, name: &'a str) -> Result<Command<'a>, AllocError>
    ensures { IfOk result (λ c. app_of c ≡ receive_app name.now) }
{
    with_file(alloc, name)?.arg(flag(
        alloc,
        "delete",
        "Drops the tables that are not in the archive",
    ))
}

fn with_script<'a>(alloc: Global, name: &'a str) -> Result<Command<'a>, AllocError>
    ensures { IfOk result (λ c. app_of c ≡ apply_app name.now) }
{
    with_file(alloc, name)?.arg(required(
        alloc,
        "SCRIPT",
        "The file of the script; - reads the script from standard input",
    ))
}

fn with_table<'a>(alloc: Global, name: &'a str) -> Result<Command<'a>, AllocError>
    ensures { IfOk result (λ c. app_of c ≡ table_app name.now) }
{
    with_file(alloc, name)?.arg(required(alloc, "NAME", "The name of the table"))
}

// Makes a command that takes `--fields`.
fn with_description<'a>(alloc: Global, name: &'a str) -> Result<Command<'a>, AllocError>
    ensures { IfOk result (λ c. app_of c ≡ schema_app name.now) }
{
    with_table(alloc, name)?.arg(flag(
        alloc,
        "fields",
        "Prints each field as create takes it, or refuses if a field can't be typed in",
    ))
}

fn complete<'a>(alloc: Global) -> Arg<'a>
    ensures { (rule_of result ≡ flag_rule (codes "complete")) × (result.global ≡ false) }
{
    flag(
        alloc,
        "complete",
        "Refuses a stream without its end-of-stream marker, as one whose writer ended early; not for CSV and JSON Lines",
    )
}

// Makes a command that takes `--new` and `--complete`.
fn with_import<'a>(alloc: Global, name: &'a str) -> Result<Command<'a>, AllocError>
    ensures { IfOk result (λ c. app_of c ≡ import_app name.now) }
{
    with_table(alloc, name)?
        .arg(flag(
            alloc,
            "new",
            "Replaces no table: the name of a table is refused before the input is read",
        ))?
        .arg(complete(alloc))
}

fn with_new_name<'a>(alloc: Global, name: &'a str) -> Result<Command<'a>, AllocError>
    ensures { IfOk result (λ c. app_of c ≡ rename_app name.now) }
{
    with_table(alloc, name)?.arg(required(alloc, "NEW", "Its new name"))
}

/// Makes a command that takes a number of sectors, a format version, and whether a block device is overwritten.
pub(crate) fn with_sectors<'a>(alloc: Global, name: &'a str) -> Result<Command<'a>, AllocError>
    ensures { IfOk result (λ c. app_of c ≡ format_app name.now) }
{
    with_file(alloc, name)?
        .arg(sectors_if_any(alloc))?
        .arg(format_version(alloc))?
        .arg(flag(
            alloc,
            "over",
            "Makes the store over whatever is on a block device, even over a store",
        ))
}

fn with_new_file<'a>(alloc: Global, name: &'a str) -> Result<Command<'a>, AllocError>
    ensures { IfOk result (λ c. app_of c ≡ new_file_app name.now) }
{
    with_file(alloc, name)?.arg(required(alloc, "NEW", "The file of the new store"))
}

fn with_new_store<'a>(alloc: Global, name: &'a str) -> Result<Command<'a>, AllocError>
    ensures { IfOk result (λ c. app_of c ≡ copy_app name.now) }
{
    with_new_file(alloc, name)?.arg(sectors(alloc))
}

fn with_fields<'a>(alloc: Global, name: &'a str) -> Result<Command<'a>, AllocError>
    ensures { IfOk result (λ c. app_of c ≡ fields_app name.now) }
{
    with_table(alloc, name)?.arg(repeated(
        alloc,
        "FIELD",
        "The fields, each as NAME:TYPE, followed by ? if nulls are allowed",
    ))
}

// Makes a command that takes fields, or a table that has them.
pub(crate) fn with_new_table<'a>(alloc: Global, name: &'a str) -> Result<Command<'a>, AllocError>
    ensures { IfOk result (λ c. app_of c ≡ create_app name.now) }
{
    with_fields(alloc, name)?.arg(option(
        alloc,
        "like",
        "TABLE",
        "Takes the fields of this table of the store, with its metadata, instead of a FIELD",
    ))
}

// Makes a command that takes the form of its input, and whether a stream must have its end.
pub(crate) fn with_rows<'a>(alloc: Global, name: &'a str) -> Result<Command<'a>, AllocError>
    ensures { IfOk result (λ c. (forms : ValueParser) × AreForms forms × (dates : ValueParser) × AreDateForms dates
        × (app_of c ≡ append_app forms dates name.now)) }
{
    with_table(alloc, name)?
        .arg(form(alloc))?
        .arg(null_text(alloc))?
        .arg(dates(alloc))?
        .arg(complete(alloc))
}

fn with_conditions<'a>(alloc: Global, name: &'a str) -> Result<Command<'a>, AllocError>
    ensures { IfOk result (λ c. app_of c ≡ conditions_app name.now) }
{
    with_table(alloc, name)?.arg(repeated(
        alloc,
        "CONDITION",
        "What each row must meet: 'NAME OP LITERAL' with OP one of = != < <= > >=, 'NAME is null' or 'NAME is not null', with single spaces between the parts",
    ))
}

// Makes a command that takes a selection of rows, and whether to print them as objects or a name to save them under.
fn with_selection<'a>(alloc: Global, name: &'a str) -> Result<Command<'a>, AllocError>
    ensures { IfOk result (λ c. app_of c ≡ selection_app name.now) }
{
    let columns = option(
        alloc,
        "columns",
        "A,B",
        "The columns, in this order; by default all columns",
    );
    let save = option(
        alloc,
        "save",
        "NEW",
        "Saves the rows as a new table NEW, instead of printing them",
    );
    let objects = flag(
        alloc,
        "objects",
        "Prints each row as an object with the names of the columns, which must all differ",
    );
    with_conditions(alloc, name)?
        .arg(columns)?
        .arg(limit(alloc))?
        .arg(save)?
        .arg(objects)
}

/// Makes a command that takes a query, and how to print the rows or a name to save them under.
pub(crate) fn with_query<'a>(alloc: Global, name: &'a str) -> Result<Command<'a>, AllocError>
    ensures { IfOk result (λ c. (dates : ValueParser) × AreDateForms dates × (app_of c ≡ query_app dates name.now)) }
{
    with_selection(alloc, name)?.arg(query_dates(alloc))
}

fn command<'a>(alloc: Global, name: &'a str) -> Result<Command<'a>, AllocError>
    ensures { IfOk result (λ c. IsOwnApp name.now (app_of c)) }
{
    match parameters_of(name) {
        Parameters::Nothing => with_file(alloc, name),
        Parameters::FileAndForm => with_form(alloc, name),
        Parameters::FileAndSteps => with_steps(alloc, name),
        Parameters::FileAndDigests => with_digests(alloc, name),
        Parameters::FileAndDeletion => with_deletion(alloc, name),
        Parameters::Table => with_table(alloc, name),
        Parameters::TableToDescribe => with_description(alloc, name),
        Parameters::TableToImport => with_import(alloc, name),
        Parameters::TableAndNewName => with_new_name(alloc, name),
        Parameters::Sectors => with_sectors(alloc, name),
        Parameters::NewStore => with_new_store(alloc, name),
        Parameters::Script => with_script(alloc, name),
        Parameters::TableAndFields => with_new_table(alloc, name),
        Parameters::TableAndRows => with_rows(alloc, name),
        Parameters::TableAndQuery => with_query(alloc, name),
        Parameters::ScriptAndFaults => with_faults(alloc, name),
    }
}

// Makes one command by itself, whose usage shows the name that the program was called by.
pub(crate) fn own_command<'a>(
    alloc: Global,
    program: &str,
    word: &'a str,
) -> Result<Command<'a>, AllocError>
    ensures { IfOk result (λ c. IsOwnApp word.now (app_of c)) }
{
    let name = format!(in alloc; "{program} {word}")?;
    command(alloc, word)?.bin_name(name.as_str())
}

fn command_of_help<'a>(alloc: Global, help: &CommandHelp) -> Result<Command<'a>, AllocError> {
    command(alloc, help.name)
}

// Returns the commands in the order of the help.
fn commands_of_stores<'a>(alloc: Global) -> Result<Vec<Command<'a>>, AllocError> {
    let mut commands = Vec::new(alloc);
    for help in &COMMANDS {
        commands.push(command_of_help(alloc, help)?)?;
    }
    Ok(commands)
}

/// Returns the program with all commands of stores.
///
/// # Errors
/// `AllocError` if memory is refused.
pub fn cli_commands<'a>(alloc: Global) -> Result<Command<'a>, AllocError> {
    let commands = commands_of_stores(alloc)?;
    Command::new(alloc, "arrowstore")
        .subcommand_required(true)
        .subcommands(commands)
}
