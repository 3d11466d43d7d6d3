// The page of refusals.
ghost use Rattle.std.specs.Prelude.{◌≡◌, string_bytes, IfOk};
ghost use Rattle.cli_reports.specs.Page.{file_refusals, table_refusals, refusals_page};

use crate::remedies::{
    BLANK_DEVICE, BYTES_OF_THE_TYPE, CHECK_FILES, CLOSE_AN_EXPORT, CLOSE_QUOTATION_MARKS,
    CONVERT_COLUMN, DONE_ALREADY, EARLIER_COPY, ESCAPE_CONTROLS, FEWER_FIELDS, FEWER_ROWS,
    FEWER_SEGMENTS, FEWER_TABLES, FEWER_VALUES, FIELDS_OF_ANOTHER, FIELDS_OF_THE_TABLE,
    FILE_OF_A_STORE, FIX_ROW, FOLDER_OF_A_NEW_FILE, FORM_OF_A_CONDITION, FORM_OF_A_DATE,
    FORM_OF_A_FIELD, FORM_OF_A_NAME, GIVE_A_NUMBER, GIVE_A_STREAM, GIVE_A_VALUE, GIVE_ALL,
    GIVE_AN_ARCHIVE, GIVE_ARRAYS, GIVE_JSON_LINES, GIVE_LESS, GIVE_THE_NAME, IMPORT_AGAIN,
    ITEMS_OF_A_LINE, KIND_OF_THE_TYPE, LATER_PROGRAM, LEAVE_OUT_MESSAGES, LENGTH_OF_THE_STORE,
    LINES_OF_A_SCRIPT, LINES_OF_DIGESTS, LITTLE_ENDIAN, LOOK_AGAIN, MORE_MEMORY, MORE_ROOM,
    NAME_OF_A_TABLE, NAMES_FIRST, NAMES_OF_COLUMNS, NAMES_OF_THE_SCHEMA, NEW_OUTPUT, NEW_PATH,
    NEW_STORE, NO_COMPRESSION, NO_FOLDER, NUMBER_OF_SECTORS, OFFSET_OF_THE_ZONE, ONE_STREAM,
    OTHER_NAME, OTHER_TABLE, PATH_AND_RIGHTS, READ_INPUT, READABLE_FILE, ROOM_FOR_THE_NEW_FILE,
    ROOM_ON_THE_DISK, ROW_ON_A_LINE, SCHEMA_FIRST, SEND_AGAIN, SEND_WHAT_IS_LACKED,
    SHORTER_BATCHES, SHORTER_VALUES, SIZE_OF_THE_DEVICE, SMALLER_FIELDS, TEST_FOR_NULL, TRY_AGAIN,
    UNFINISHED_COPY, WAIT, WHOLE_FILE, WHOLE_STREAM, WITHIN_THE_RANGE, WRITE_A_BOOLEAN,
    WRITE_AGAIN, WRITE_DIGITS, WRITE_HEXADECIMAL, WRITE_UTF_8, WRITE_V5,
};
use std::alloc::{AllocError, Global};

/// The pieces of the page of which its first sections are made: what each refusal of a stream, a file, a store, a field text or an archive means and what
/// to do about it, among them the sentences of `remedies`. The file `docs/refusals.md` has the same bytes as the page.
pub const FILE_REFUSALS: [&str; 103] = [
    "# What each refusal means

A refusal is one line on standard error: `refused`, a code, a name, and for some of them a detail, as in
`refused S8 NoRoom 13`. The exit status is then 1. It is 0 if everything is done, and 2 if the command
line is wrong. `replay` prints the refusals of the lines of its script on standard output, and ends with
status 0. `arrowstore help S8` prints what this page says of S8, and so for each code.

On a terminal a second line gives the advice of this page. It first says what is refused, if that is known
and can be shown: a word or a number of the command line; the file, the input or the output, with the
system's message; an empty input; a field of a stream; a part of a text; a line of a script; or the table
that can't be read. For a part of a text it shows the column that is a list or a struct, the name in the
header and the one that the table has, the number of fields of a record, a field with its text, or a line
and what is refused in it. In a line, `p.x[3]` is the fourth item of the list `x` in the struct `p`: items
are counted from 0. It also says if a line begins with a byte order mark or, in a script, ends with a
carriage return, if the header has a tab, a semicolon or the mark of UTF-16, and if the text begins as a
file that gzip has compressed. Where a type is the cause, it shows the field of the table, or its range. It
gives the line on which a record of CSV begins, if quotation marks or empty lines before it have moved that
and if it is within the first 65,536 bytes. And it says what is wrong with a condition or with the text of a
new field.

A refused command has changed no table, except as S9 and G1 say. It has written no output, except as G1
says. `salvage` writes one segment after another, so it may have written some before S9 and OutOfMemory
too. If `salvage` leaves out segments that can't be read, this is not a refusal: it reports each of them
in a line, as in `left out segment 2 with 4096 rows`, and ends with status 1. `send` writes one segment after
another too: if it is refused for one of them (S9, S13, S15, OutOfMemory), the archive has no end.

## F: the input is not a stream that can be read

The first faulty message is reported. After `S5 Import` the fault is in the stream that was to be imported
or appended. If no advice follows a fault, the cause is the program that wrote the stream.
",
    WRITE_AGAIN,
    "

- F1 Truncated: the input ends within a message. ",
    GIVE_ALL,
    "
- F2 NoContinuation: a message does not begin with the bytes FF FF FF FF.
  ",
    GIVE_A_STREAM,
    "
- F3 MetadataSize: the metadata of a message has a negative size, or more than 16,777,216 bytes.
- F4 FlatBounds: something in the metadata is outside its bounds, or a part of it is missing.
- F5 FlatBudget: the metadata of a message has more than 20,000 tables, or tables nested more than 40 deep.
- F6 MetadataVersion: the metadata has a version other than V5.
  ",
    WRITE_V5,
    "
- F7 HeaderKind: a message is not a schema, dictionary batch or record batch.
  ",
    LEAVE_OUT_MESSAGES,
    "
- F8 BodyLength: the body of a message has a negative length.
- F9 NoSchema: the input is empty, or it ends before a schema, or a batch comes before the schema.
  ",
    SCHEMA_FIRST,
    "
- F10 SecondSchema: there is a second schema. ",
    ONE_STREAM,
    "
- F11 BigEndian: the numbers are big-endian. ",
    LITTLE_ENDIAN,
    "
- F12 TypeNotHeld TYPE: a column has a type that no table can have. ",
    CONVERT_COLUMN,
    "
- F13 BadParameter: a type has a width, size, unit or number of children that is not allowed.
- F14 SchemaLimit: there are more than 2,048 fields, a field nested more than 32 deep, more than 4,096
  pairs of metadata, or more than 4,194,304 bytes of names, timezones, keys and values. ",
    FEWER_FIELDS,
    "
- F15 NotUtf8: a name, a key, a value, a timezone or a text is not UTF-8.
- F16 Compressed: a batch is compressed. ",
    NO_COMPRESSION,
    "
- F17 LayoutCount: a batch has more or fewer nodes or buffers than its columns need.
- F18 BufferRange: a buffer is outside the body of its message.
- F19 BufferShort: a buffer is shorter than its array needs.
- F20 RowCount: a length is negative, over 16,777,216, or not the required one.
  ",
    SHORTER_BATCHES,
    "
- F21 NullCount: a null count is not the number of nulls.
- F22 Offsets: offsets of texts, binaries or lists decrease, or are past the end of their data.
- F23 NullForbidden: a column that is not nullable has a null.
- F24 DictionaryId: no field has the id of a dictionary, or fields with the same id have different types.
- F25 DeltaWithoutBase: a delta of a dictionary comes before the dictionary.
- F26 DictionaryIndex: an index is outside its dictionary.
- F27 DictionaryOfNested: a dictionary has lists or structs.
- F28 TooHeavy: a row weighs more than 16,777,216, or all rows together more than 268,435,456. A
  row of n integers weighs 1 + n. ",
    FEWER_ROWS,
    "
- F29 AfterEnd: bytes follow the end of the stream. ",
    ONE_STREAM,
    "
- F30 NoEnd: the input is whole messages, but the end-of-stream marker is not after them. Only `import` and
  `append` with `--complete` ask for it.
  ",
    WHOLE_STREAM,
    "

## G: a file, the input or the output

- G1 Io: a read or a write failed; or the file of the store does not exist, may not be opened, or is
  locked by another program; or a file to be made exists already. If the output failed, a part of it may
  have been written, and a command that makes or changes a store is done. If only the reader of the output
  is gone, as `head` once it has its lines, nothing is reported, unless the command makes or changes a
  store.
  ",
    CHECK_FILES,
    "
  If a terminal shows what failed, it gives one of these in place of that.
  For the input: ",
    READ_INPUT,
    "
  For the output of a command that makes or changes a store: ",
    DONE_ALREADY,
    "
  For the output of another command:
  ",
    NEW_OUTPUT,
    "
  For a file that is locked:
  ",
    WAIT,
    "
  For a file to be made that exists: ",
    NEW_PATH,
    "
  For a file that can't be made: ",
    FOLDER_OF_A_NEW_FILE,
    "
  For another file that can't be opened: ",
    PATH_AND_RIGHTS,
    "
  For a file that can't be read: ",
    READABLE_FILE,
    "
  For a file that can't be written or synced: ",
    ROOM_ON_THE_DISK,
    "
  For the new file of `format` or `copy` that can't be written or synced:
  ",
    ROOM_FOR_THE_NEW_FILE,
    "
  For a folder, a named pipe or a device that is not a disk: ",
    NO_FOLDER,
    "
  For a block device that does not have the given number of sectors:
  ",
    SIZE_OF_THE_DEVICE,
    "
  For a block device that something is on:
  ",
    BLANK_DEVICE,
    "
- G2 BadSize: a store has 16 to 4,194,304 sectors, and its file has exactly 512 bytes for each of them.
  The given number of sectors, or the length of the file, is not possible. Such a file is not a store, or
  it was cut short or made longer, or a `copy` into it was interrupted: until its end, a copy has one byte
  more than its sectors, and may lack tables. A folder, a named pipe, or a device that is not a disk is
  refused in the same way, if it is to be read as a store. A terminal shows the length of the file, and the
  length that it should have, if it begins as a store does.
  ",
    WHOLE_FILE,
    "
  If a terminal shows what is refused, it gives one of these in place of that.
  For the number of sectors: ",
    NUMBER_OF_SECTORS,
    "
  For a file with one byte more than the store that it begins with:
  ",
    UNFINISHED_COPY,
    "
  For a file of another length than the store that it begins with:
  ",
    LENGTH_OF_THE_STORE,
    "
  For a file that does not begin as a store does:
  ",
    FILE_OF_A_STORE,
    "
  For a block device on which no number of sectors makes a store:
  ",
    SIZE_OF_THE_DEVICE,
    "
  For a folder, a named pipe or a device that is not a disk: ",
    NO_FOLDER,
    "
- G3 BadScript N: `replay` or `apply` cannot play line N of the script, counted from 1. Single spaces
  separate the words of a line, and a word with spaces stands in quotation marks. Either these words are not
  a command of a script, or the text of a field (P), the form of a condition (Q2) or the number of a `--limit`
  is refused. `apply` takes only commands on tables, and so does `replay` between `begin` and `commit`; each
  `begin` has its `commit`. `replay` takes no `append` with `--as csv` or `--as jsonl`. A script of `apply`
  has a line, and its last one a line feed: if not, it may be cut off, or what should write it failed. No name
  of a table begins with `--`, unless `--` stands before the names: so a forgotten name is noticed.
  ",
    LINES_OF_A_SCRIPT,
    "

## C: the store cannot be opened

- C1 NotAStore: the file does not contain a store, or contains one of a version that the program does not
  know. If it held a store before, its first block was lost, where both commits are: keep the file, and use
  an earlier copy.
  ",
    FILE_OF_A_STORE,
    "
  For a store of a later version: ",
    LATER_PROGRAM,
    "
- C3 Damaged CAUSE: the file contains a store that cannot be used: the file was cut short or made longer,
  some of its bytes were changed, or it was copied while a command changed it. The causes are:
  DeviceSize: the file is shorter or longer than its store says. A terminal shows both lengths. `replay`,
  which makes a device of its own, reports this if no store can have the number of sectors of `--sectors`.
  A file with one byte more is refused as G2 BadSize, since a copy that was interrupted lacks tables.
  CatalogueRange: the place of the list of tables is past the end of the file or in its first two sectors,
  or its length is impossible.
  CatalogueUnreadable: a sector of the list of tables can't be read.
  CatalogueText: the bytes at that place are not a list of tables.
  RunRange: the place of some rows is past the end of the file or in its first two sectors.
  RunOverlap: the place of some rows overlaps that of other rows or of the list of tables.
  ",
    EARLIER_COPY,
    "
  For a file of another length than its store:
  ",
    LENGTH_OF_THE_STORE,
    "
  For the number of sectors: ",
    NUMBER_OF_SECTORS,
    "
- C4 Device: the file could not be read or synced while it was opened; or `format` or `copy` could not
  read, write or sync the file that it made, and has removed it. A store is not changed. If it could not be
  synced, a program was killed before, and `check` shows whether its last change was done: it brings to the
  disk what it reads, or is refused.
  If the disk can't read a sector of the file, `dd bs=512 iflag=direct conv=noerror,sync` makes a copy with
  zeros in its place.
  ",
    TRY_AGAIN,
    "
  For the new file of `format` or `copy` that can't be written or synced:
  ",
    ROOM_FOR_THE_NEW_FILE,
    "

## P: the fields of `create`

- P1 BadText N: the field text N, counted from 1, does not describe a field: its form is wrong, or its type
  is unknown.
  ",
    FORM_OF_A_FIELD,
    "
- P2 Limit: a number in a field text is more than 2,147,483,647, or the fields exceed a limit of F14.
  ",
    SMALLER_FIELDS,
    "
- P3 NoText N: no field text makes the field N of the table, counted from 1, so `schema --fields` prints
  nothing. A name in it is empty or has a space or one of the characters `:,<>()?\"`, the item of a list is
  not named `item`, a timezone has a space, a parenthesis or a quotation mark, or a field has metadata. With
  N = 0 the table itself has metadata. Or a terminal can't be shown a name in it.
  ",
    FIELDS_OF_ANOTHER,
    "

## A: an archive, or a list of digests

The archive, or the list, is read before the store is opened.

- A1 NotADigest N: line N of the list that `send --have` reads, counted from 1, is not the digest of a segment.
  ",
    LINES_OF_DIGESTS,
    "
- A2 NotAnArchive: the input of `receive` does not begin with the list of tables that `send` writes.
  ",
    GIVE_AN_ARCHIVE,
    "
- A3 BadMember MEMBER: the archive was cut off or altered at this member: the segment of this name, `end`, or
  `member N`, counted from 0, which has another name than one of these. `manifest.jsonl`: the list of tables has
  another digest than the one in `end`; either was altered.
  ",
    SEND_AGAIN,
    "
- A4 LacksSegment DIGEST: a table of the archive has this segment, which neither the archive nor the store has.
  The archive was made for a receiver that has it.
  ",
    SEND_WHAT_IS_LACKED,
    "
",
];

/// The pieces of the page of which the other sections are made: refusals of a text, of a query and of an open store.
pub const TABLE_REFUSALS: [&str; 87] = [
    "
## X: a text that was to be appended

N is the number of the first refused record. Records are counted from 1, in CSV after the line of names,
in JSON Lines without blank lines. N is 0 if the text as a whole is refused. No row of the input is
appended. After `T1 Line` the text is in the file of that line of a script.

- X1 Header 0: the first line does not consist of the names of the columns, separated by commas.
  ",
    NAMES_FIRST,
    "
- X2 Width N: the record has more or fewer fields than the table has columns, or an array has more or
  fewer items than its struct or its list of fixed size.
  ",
    CLOSE_QUOTATION_MARKS,
    "
  For a line of JSON:
  ",
    ITEMS_OF_A_LINE,
    "
- X3 NotUtf8 N: a text, or a line of JSON, is not UTF-8. ",
    WRITE_UTF_8,
    "
- X4 NotANumber N: a value is not an integer, which is written as digits, with or without a `-` before
  them. Dates and timestamps are integers too. In JSON `-0`, `1.0` and integers of more than 64 bits are
  also refused.
  ",
    WRITE_DIGITS,
    "
  For a field of CSV that a terminal says is empty:
  ",
    GIVE_A_NUMBER,
    "
- X5 OutOfRange N: an integer is outside the range of its type.
  ",
    WITHIN_THE_RANGE,
    "
- X6 NotABool N: a value is neither `true` nor `false`.
  ",
    WRITE_A_BOOLEAN,
    "
- X7 NotHex N: bytes are not written as pairs of hexadecimal digits.
  ",
    WRITE_HEXADECIMAL,
    "
- X8 NullMismatch N: there is a null where none is allowed, or another value in a column of nulls.
  ",
    GIVE_A_VALUE,
    "
- X9 Nested 0: the table has lists or structs, which CSV cannot express. ",
    GIVE_JSON_LINES,
    "
- X10 Json N: the line is not a JSON value, or it is nested more than 127 deep, or it has a number that is
  too large for a float, or half of a surrogate pair without the other half.
  ",
    ROW_ON_A_LINE,
    "
  For a line with a control character:
  ",
    ESCAPE_CONTROLS,
    "
- X11 UnknownName N: an object has a name that is not a column or field.
  ",
    NAMES_OF_THE_SCHEMA,
    "
- X12 MissingName N: an object lacks the name of a column or field that does not allow nulls.
  ",
    GIVE_THE_NAME,
    "
- X13 AmbiguousNames N: two columns or fields have the same name. ",
    GIVE_ARRAYS,
    "
- X14 FixedWidth N: a value has more or fewer bytes than its type.
  ",
    BYTES_OF_THE_TYPE,
    "
- X15 TooHeavy N: the row weighs more than 16,777,216 (F28).
  ",
    CLOSE_QUOTATION_MARKS,
    "
  For a line of JSON: ",
    SHORTER_VALUES,
    "
- X16 DictionaryFull N: within the row, a column has more distinct values than its dictionary can number:
  indices of uint8 number 256 values, of int8 128, of uint16 65,536 and of int16 32,768.
  ",
    FEWER_VALUES,
    "
- X17 WrongKind N: the type takes another kind of JSON value.
  ",
    KIND_OF_THE_TYPE,
    "
- X18 NotADate N: with `--dates iso`, a value is no date or time, or has more digits behind the second than
  its unit. Dates that are numbers are also refused. A date that its type does not hold is X5.
  ",
    FORM_OF_A_DATE,
    "
- X19 WrongOffset N: with `--dates iso`, a time has an offset where the column has no time zone, or has none
  where the time zone is not UTC: the time would be wrong by the offset.
  ",
    OFFSET_OF_THE_ZONE,
    "

## Q: a query

- Q1 UnknownColumn: the query names a column that does not exist, or a name that two columns have, or
  `--columns` lists a name twice. With `--objects` also: two of the chosen columns have the same name.
  ",
    NAMES_OF_COLUMNS,
    "
- Q2 BadCondition: a condition has a wrong form, or its literal is not a value of the column's type. Single
  spaces separate the parts of a condition.
  ",
    FORM_OF_A_CONDITION,
    "
- Q3 NotComparable: lists, structs and columns of nulls cannot be compared.
  ",
    TEST_FOR_NULL,
    "

## S: the store is open, and the command is refused

- S1 NoTable: no table has this name. ",
    NAME_OF_A_TABLE,
    "
- S2 NameTaken: a table has this name already. ",
    OTHER_NAME,
    "
- S3 BadName: a table cannot have this name. ",
    FORM_OF_A_NAME,
    "
- S4 SchemaMismatch: the fields of the rows to be appended differ from those of the table.
  ",
    FIELDS_OF_THE_TABLE,
    "
- S5 Import FAULT: the input is not a stream that can be read, because of this fault (F).
- S6 RowUnfit N: the new row N, counted from 0, is the first that the table does not accept.
  ",
    FIX_ROW,
    "
- S7 TooMany WHAT: a limit would be exceeded.
  Bytes: 2,147,483,647 of an input. ",
    GIVE_LESS,
    " For an archive of more, a copy of
  the file of the store can stand in for the first one.
  Tables: 1,024. ",
    FEWER_TABLES,
    "
  Segments: 65,536 of all tables together, of up to 4,096 rows each. ",
    FEWER_SEGMENTS,
    "
  Weight: 268,435,456 of a table (F28). ",
    OTHER_TABLE,
    "
  Epochs: the store has had as many changes as it can number. ",
    NEW_STORE,
    "
  Exports: 64 that are open at once, which only the library opens. ",
    CLOSE_AN_EXPORT,
    "
- S8 NoRoom N: a change writes one or more parts. One of them needs N contiguous free sectors, and there
  were not as many. The parts before it count as used, so `info` may show a longer free run. For `copy`
  this is about the new store. A copy needs fewer sectors than a store with gaps or small segments.
  ",
    MORE_ROOM,
    "
- S9 Device: the file could not be read, written or synced. The command is done as a whole or not at all,
  and so is each step of a `compact`. Until a `check` or another change has succeeded, what commands show
  may be undone by a power cut. For a sector that the disk can't read, see C4.
  ",
    LOOK_AGAIN,
    "
  For the new file of a `copy` that can't be written or synced:
  ",
    ROOM_FOR_THE_NEW_FILE,
    "
- S10 Halted: the device failed before, so the store accepts no command until it is opened again. Only
  `replay` reports this, for the lines of its script between a failure and `reopen`.
- S12 Query REASON: the query of `query --save` is refused for this reason (Q).
- S13 SegmentUnread N: segment N of the table, counted from 0, can't be read: its bytes were changed.
  `check` reads all tables, in byte order of their names, and reports the first that can't be read. On a
  terminal it names each of them. There `copy`, `compact`, `upgrade`, `have` and `send` name the table that
  they can't read, if only one is possible. Otherwise an `export` of each table shows which one it is.
  ",
    IMPORT_AGAIN,
    "
- S15 SegmentDamaged N: the bytes of segment N of the table, counted from 0, were changed: their SHA-256 is
  not the one that the store keeps. `check` reports this in the same way as S13.
  ",
    IMPORT_AGAIN,
    "

## T: a script that is one commit

- T1 Line N REFUSAL: line N of a script of `apply`, counted from 1, is refused for this reason, and so are all
  of its lines: no table is changed. Either the store refuses the line (S), or the text that it appends is
  refused for the schema that its table has at this line (X). The advice is that of the reason; to append the
  text again means to apply the whole script again. What is refused of the script as a whole, as S8 and S9, is
  reported without T1.

## A store that does not open

`C3 Damaged` means that bytes of the list of tables or of a commit were changed, or that the file has
another length. Use an earlier copy of the file. If there is none, try this on a copy of the file, here
named `copy`, and run `check` on that after it:

- DeviceSize: give the copy its length again, 512 bytes for each sector that `format` was given, with
  `truncate -s`. A terminal shows this length, also after G2 if the file begins as a store does. If `check`
  answers `ok`, `copy` it: what `truncate` adds are holes, and a file with holes may lack room later. A file with
  one byte more may be the new file of a `copy` that was interrupted, which lacks tables: if so, copy again,
  to another path. If it was a store at this path before, something has appended a byte to it (`echo >> store`
  does): cut the byte off in the copy, and look whether all tables are there.
- Another cause: write zeros over the commit with the greater epoch. The store may then open as it was
  before its last command. `od -An -tu8 -j8 -N8 copy` prints the epoch in sector 0, and `-j520` in place of
  `-j8` the one in sector 1. `dd if=/dev/zero of=copy bs=512 count=1 conv=notrunc` writes zeros over sector
  0, and with `seek=1` over sector 1.

## Memory

- OutOfMemory: memory was refused.
  ",
    MORE_MEMORY,
    "

## Words for scripts

With `ARROWSTORE_ADVICE=1` in the environment a refused command writes both lines to standard error, also
if it is no terminal. The second line then begins with one of these words and a colon. A word never changes
its meaning, and is never used again for another one; words may be added. The sentences behind it may
change.

    word=$(ARROWSTORE_ADVICE=1 arrowstore drop s t 2>&1 >/dev/null | sed -n '2s/:.*//p')

G1 has eight words, which say whether the command was done:

- `locked`: another program holds the file. The command was not done; it can be run again later, or with `--wait`.
- `missing`: the file, or the folder of a file to be made, does not exist. The command was not done.
- `denied`: the system does not permit it, for lack of rights or since the file system is only read. The
  command was not done.
- `exists`: something is at the path of a file to be made. The command was not done.
- `input`: the input can't be read, or is closed. The command was not done.
- `output-before`: the output of a command that changes nothing failed: `query` without `--save`, `export`,
  `salvage`, `tables`, `schema`, `check`, `info`, `have`, `send`, `recode`, `replay`, or help. A part of the
  output may be written.
- `output-after`: the output failed after `format`, `copy`, `create`, `import`, `append`, `query --save`,
  `rename`, `drop`, `apply`, `receive`, `compact` or `upgrade` was done. Do not run the command again.
- `other`: another call on a file failed. The command was not done, and a file that was to be made is
  removed.

Each other code has one word. After S5 it is the word of the fault (F), after S12 that of the query (Q), and
after T1 that of the reason (S or X).

- F1 `truncated`, F2 `no-stream`, F3 `metadata-size`, F4 `metadata-bounds`, F5 `metadata-budget`,
  F6 `metadata-version`, F7 `header-kind`, F8 `body-length`, F9 `no-schema`, F10 `second-schema`,
  F11 `big-endian`, F12 `type-not-held`, F13 `bad-parameter`, F14 `schema-limit`,
  F15 `stream-not-utf8`, F16 `compressed`, F17 `layout-count`, F18 `buffer-range`, F19 `buffer-short`,
  F20 `row-count`, F21 `null-count`, F22 `offsets`, F23 `null-forbidden`, F24 `dictionary-id`,
  F25 `delta-without-base`, F26 `dictionary-index`, F27 `dictionary-of-nested`, F28 `stream-too-heavy`,
  F29 `after-end`, F30 `no-end`.
- G2 `bad-size`, G3 `bad-script`.
- C1 `not-a-store`, C3 `damaged`, C4 `device-at-opening`.
- P1 `bad-field`, P2 `field-limit`, P3 `no-text`.
- A1 `not-a-digest`, A2 `not-an-archive`, A3 `bad-member`, A4 `lacks-segment`.
- X1 `header`, X2 `width`, X3 `text-not-utf8`, X4 `not-a-number`, X5 `out-of-range`, X6 `not-a-bool`,
  X7 `not-hex`, X8 `null-mismatch`, X9 `nested-columns`, X10 `not-json`, X11 `unknown-name`,
  X12 `missing-name`, X13 `ambiguous-names`, X14 `fixed-width`, X15 `row-too-heavy`,
  X16 `dictionary-full`, X17 `wrong-kind`, X18 `not-a-date`, X19 `wrong-offset`.
- Q1 `unknown-column`, Q2 `bad-condition`, Q3 `not-comparable`.
- S1 `no-table`, S2 `name-taken`, S3 `bad-name`, S4 `schema-mismatch`, S6 `row-unfit`, S7 `too-many`,
  S8 `no-room`, S9 `device`, S10 `halted`, S13 `segment-unread`, S15 `segment-damaged`,
  and `out-of-memory`.

After `device` the command is done as a whole or not at all. After every other word but `output-after` no
table is changed, except that the steps of a `compact` before the refused one are done. Wrong arguments,
with status 2, have no word, and neither has a `salvage` that leaves segments out.
",
];

#[tactic(auto, unfolding(crate::specs::Page::file_refusals))]
fn file_refusals(alloc: Global) -> Result<String, AllocError>
    ensures { IfOk result (λ text. string_bytes text ≡ file_refusals) }
{
    FILE_REFUSALS.concat(alloc)
}

#[tactic(auto, unfolding(crate::specs::Page::table_refusals))]
fn table_refusals(alloc: Global) -> Result<String, AllocError>
    ensures { IfOk result (λ text. string_bytes text ≡ table_refusals) }
{
    TABLE_REFUSALS.concat(alloc)
}

/// Returns the page: the pieces of both parts, joined.
///
/// # Errors
/// `AllocError` if memory is refused.
#[tactic(auto, unfolding(crate::specs::Page::refusals_page))]
pub fn refusals_page(alloc: Global) -> Result<String, AllocError>
    ensures { IfOk result (λ text. string_bytes text ≡ refusals_page) }
{
    let mut page = file_refusals(alloc)?;
    page.push_str(&table_refusals(alloc)?)?;
    Ok(page)
}
