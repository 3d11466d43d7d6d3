//! What each command does: its line in the help of the program, and the first line of its own help.

pub const FORMAT: &str = "Makes a file of the given number of sectors, with an empty store in it";

pub const CREATE: &str = "Makes a table without rows";

pub const IMPORT: &str =
    "Reads an Arrow IPC stream from standard input, and stores it as the table NAME, which it replaces if it exists";

pub const APPEND: &str = "Reads rows from standard input, and appends them to a table";

pub const QUERY: &str =
    "Prints the rows of a table that meet all conditions, each as a line of JSON";

pub const EXPORT: &str = "Writes a table as an Arrow IPC stream to standard output";

pub const RENAME: &str = "Gives a table another name";

pub const DROP: &str = "Removes a table with all its rows";

pub const APPLY: &str = "Applies the lines of a script as one commit: all of them, or none";

pub const TABLES: &str = "Prints a line for each table: its name and its number of rows";

pub const SCHEMA: &str = "Prints a line for each field of a table";

pub const CHECK: &str =
    "Makes sure that the last change is on the disk, reads all tables, and prints ok if all can be read";

pub const SALVAGE: &str =
    "Writes the readable rows of a damaged table as an Arrow IPC stream, and reports what is left out";

pub const INFO: &str = "Prints the size of the store, its free sectors, and other numbers";

pub const COMPACT: &str =
    "Merges small segments, moves the last ones forward, and prints the number of steps";

pub const UPGRADE: &str =
    "Adds a digest to each segment of a store of version 1, and makes it version 2";

pub const COPY: &str =
    "Copies all tables of a store into a new store of the given number of sectors";

pub const HAVE: &str = "Prints the digest of each segment, a line each";

pub const SEND: &str =
    "Writes an archive of all tables to standard output, without the segments that its receiver has";

pub const RECEIVE: &str =
    "Reads an archive from standard input, and makes its tables those of the store in one commit";

pub const REPLAY: &str =
    "Plays a script on a device in memory that fails or stops, and prints what a crash leaves";

pub const RECODE: &str =
    "Reads an Arrow IPC stream from standard input, and writes the same rows as a stream in canonical form";
