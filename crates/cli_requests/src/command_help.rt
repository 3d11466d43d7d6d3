// What the help says about each command of a store: its name, what it does, and an example.
use cli_reports::abouts;

// A command as its help shows it.
pub(crate) struct CommandHelp {
    pub(crate) name: &'static str,
    about: &'static str,
    example: &'static str,
}

// In the order of the help.
pub(crate) const COMMANDS: [CommandHelp; 21] = [
    CommandHelp {
        name: "format",
        about: abouts::FORMAT,
        example: "Example: arrowstore format store 4096

The size is fixed, and every sector is written now, so that no later change lacks space
on the disk: 4096 sectors are 2 MiB, and the maximum, 4194304, is 2 GiB. `copy` makes a
larger store of one that is full. A block device gets a store on all of its sectors, and
needs no number. Something may be at its front only with --over.",
    },
    CommandHelp {
        name: "create",
        about: abouts::CREATE,
        example: "Example: arrowstore create store measurements id:uint64 'value:int32?'

A TYPE is null, bool, int8 to int64, uint8 to uint64, utf8, large_utf8, binary,
large_binary, fixed_binary(N), date_day, date_ms, timestamp_s, timestamp_ms,
timestamp_us, timestamp_ns, list<ITEM>, large_list<ITEM>, fixed_list(N,ITEM),
struct<FIELD,..> or dict<INDEX,TYPE>, for example dict<int8,utf8>. A timestamp may
have a timezone, as in timestamp_ms(UTC). An ITEM is a TYPE, followed by ? if nulls
are allowed, as in 'tags:list<utf8?>'. A column of the type null needs the ?, as in
n:null?, to accept rows. There are no floats, decimals and times. Without a FIELD the
table has no columns. With --like it has those of another table, and its metadata.",
    },
    CommandHelp {
        name: "import",
        about: abouts::IMPORT,
        example: "Example: arrowstore import store measurements < readings.arrows

With --new, a table of this name is not replaced: it is refused (S2 NameTaken), and
nothing is read. With --complete, the stream must end with its end-of-stream marker
(F30 NoEnd). For CSV and JSON Lines use create, and then append with --as.",
    },
    CommandHelp {
        name: "append",
        about: abouts::APPEND,
        example: "Example: arrowstore append store measurements --as csv --null NA < readings.csv
where readings.csv begins with the line id,value

With --dates iso, dates are written as in 2026-11-30, and timestamps as in
2026-11-30T12:34:56.789Z, with an offset only if the column has a timezone.

A table of up to 1 MiB, and some others, are read first. Each append makes a segment. So append many rows at once.",
    },
    CommandHelp {
        name: "query",
        about: abouts::QUERY,
        example: "Example: arrowstore query store measurements 'value >= 7' --columns id,value --limit 10

A LITERAL has no quotation marks, as in 'city = New York': it is all that follows the
operator and one space. Bytes are pairs of hexadecimal digits, and bools are true or
false. Dates and timestamps are the stored integers: the number of days, seconds, ..
since 1970-01-01; with --dates iso they are as in 2026-11-30 or
2026-11-30T12:34:56.789Z, in the conditions and in the lines.",
    },
    CommandHelp {
        name: "export",
        about: abouts::EXPORT,
        example: "Example: arrowstore export store measurements > readings.arrows",
    },
    CommandHelp {
        name: "rename",
        about: abouts::RENAME,
        example: "Example: arrowstore rename store measurements readings",
    },
    CommandHelp {
        name: "drop",
        about: abouts::DROP,
        example: "Example: arrowstore drop store measurements",
    },
    CommandHelp {
        name: "apply",
        about: abouts::APPLY,
        example: "Example: arrowstore apply store script
where each line of script is one of these, with single spaces between the words:
create NAME FIELD .., rename NAME NEW, drop NAME,
import NAME FILE [--complete], append NAME FILE [--complete],
append NAME FILE [--as stream|csv|jsonl] [--null TEXT] [--dates number|iso] or
save NAME NEW [--columns A,B] [--limit N] [--] CONDITION ..
A word with spaces stands in quotation marks, and a mark in it is written twice.

The lines see what the lines before them have done. So this script deletes rows:
save readings kept \"value >= 7\"
drop readings
rename kept readings

All files are read before the store is opened. A text is read for the fields that its
table has at its line. If a line is refused, so is the whole script, with the number of
the line, as in T1 Line 3 S2 NameTaken, or T1 Line 3 X4 NotANumber 5 for record 5 of the
file of line 3. It prints ok once.",
    },
    CommandHelp {
        name: "tables",
        about: abouts::TABLES,
        example: "Example: arrowstore tables store",
    },
    CommandHelp {
        name: "schema",
        about: abouts::SCHEMA,
        example: "Example: arrowstore schema store measurements

With --fields it prints what create takes, a field a line. A table with metadata, or with
names that create does not take, is refused then (P3 NoText).",
    },
    CommandHelp {
        name: "check",
        about: abouts::CHECK,
        example: "Example: arrowstore check store

Only a user that may write the file makes sure of the last change: the commits are then
written again. Others, and a read-only disk, only have the tables read.",
    },
    CommandHelp {
        name: "salvage",
        about: abouts::SALVAGE,
        example: "Example: arrowstore salvage store measurements > rescued.arrows

It is for a table that check and export refuse. Each segment that can't be read is left
out and reported on standard error, and the status is then 1. The store is not changed.",
    },
    CommandHelp {
        name: "info",
        about: abouts::INFO,
        example: "Example: arrowstore info store --json

A sector has 512 bytes. The used sectors are those of the two commits, of the catalogue
and of the tables. The number of kept sectors is always 0 here: only a program that uses
the library keeps sectors, for its readers. The epoch grows by one with each change; each
step of compact is a change. Segments are the pieces in which a table is stored. If
commits_agree is false, something other than this program has changed a commit, and the
last command may be undone. The device is file, or block if it is a block device.",
    },
    CommandHelp {
        name: "compact",
        about: abouts::COMPACT,
        example: "Example: arrowstore compact store --steps 1000

The tables keep their rows, even if it is interrupted. Each append adds a segment, and a
store has at most 65,536 of them. Merged segments are also read faster. Each step is a
commit, and of many small segments each takes longer: with --steps it stops after so many,
and the next compact goes on. If it prints a lower number, nothing is left to do.",
    },
    CommandHelp {
        name: "upgrade",
        about: abouts::UPGRADE,
        example: "Example: arrowstore upgrade store

The tables keep their rows, even if it is interrupted. With version 2 the program notices
if the disk has changed a segment. Programs that know only version 1 can't read it.",
    },
    CommandHelp {
        name: "copy",
        about: abouts::COPY,
        example: "Example: arrowstore copy store larger 65536

If it is interrupted, no command opens the new file as a store: delete that file, and
copy again.",
    },
    CommandHelp {
        name: "have",
        about: abouts::HAVE,
        example: "Example: arrowstore have store > digests

Each digest is a line of 64 hexadecimal digits: the SHA-256 of the stream of a segment.
They are in the order of the tables and of their rows, each once. `send` leaves out the
segments whose digests it is given. A store of version 1 has no digests in it, and is
read whole; `upgrade` adds them.",
    },
    CommandHelp {
        name: "send",
        about: abouts::SEND,
        example: "Example: arrowstore send store --have digests > changes.tar

An archive has all tables of the store, as they are at one commit, and the segments that
the receiver lacks: all of them without --have, and with it those whose digests are not
in FILE. It is a tar archive, so `tar -x` unpacks it. The same tables of the same epoch
give the same archive. If a segment can't be read, part of the archive may be written; it
has no end then, and `check` names the table.",
    },
    CommandHelp {
        name: "receive",
        about: abouts::RECEIVE,
        example: "Example: arrowstore receive copy --delete < changes.tar

The archive is read before the store is opened. Its tables take the place of those with
their names, in one commit: all of them, or none. A table of which the store has the
first segments gets only the others. What the archive leaves out must be in the store
(A4 LacksSegment). Without --delete other tables stay. If all is there already, nothing
is written.",
    },
    CommandHelp {
        name: "replay",
        about: abouts::REPLAY,
        example: "Example: arrowstore replay script --sectors 16 --stop 8 --choice new
where each line of script is one of these, with single spaces between the words:
create NAME FIELD .., import NAME FILE [--complete], append NAME FILE [--complete],
rename NAME NEW, drop NAME,
save NAME NEW [--columns A,B] [--limit N] [--] CONDITION .., compact (one step), upgrade,
reopen, begin or commit. A word with spaces stands in quotation marks, and a mark in it
is written twice. The lines between begin and commit are one commit, as a script of
apply is. It prints ok or a refusal for each other line, and for each commit. Writes and
syncs of the device are counted from 1, after the formatting. No line may be empty, and
none may append CSV or JSON Lines (G3 BadScript), as a line of apply may.",
    },
];

// Returns what the help of a command says it does, and an example.
pub(crate) fn texts_of(name: &str) -> (&'static str, &'static str) {
    for help in &COMMANDS {
        if help.name == name {
            return (help.about, help.example);
        }
    }
    ("", "")
}
