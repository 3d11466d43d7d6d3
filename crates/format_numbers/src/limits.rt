// The limits of readers and writers and of the store (docs/formats/reading.md, docs/formats/store.md).
ghost use Rattle.std.specs.Prelude.{◌≡◌};
ghost use Rattle.arrays.specs.declared.limits.TheConstants.{MAX_SLOTS};
ghost use Rattle.arrow_schema.specs.declared.limits.TheConstants.{MAX_DEPTH, MAX_FIELDS, MAX_PAIRS, MAX_TEXT_BYTES, NUMBER_END};
ghost use Rattle.catalogue.specs.declared.limits.TheConstants.{MAX_NAME_BYTES, MAX_SEGMENTS, MAX_SEGMENT_ROWS, MAX_TABLES};
ghost use Rattle.cells.specs.declared.limits.TheConstants.{MAX_PIECE_ROWS, MAX_PIECE_WEIGHT, MAX_ROW_WEIGHT, MAX_TABLE_WEIGHT};
ghost use Rattle.cli_commands.specs.declared.input.TheConstants.{LARGEST_INPUT};
ghost use Rattle.export_book.specs.declared.book.TheConstants.{MAX_EXPORTS};
ghost use Rattle.flatbuf.specs.declared.limits.TheConstants.{MAX_BUFFER_BYTES, MAX_BUFFER_TABLES, MAX_LEVELS};
ghost use Rattle.ipc_write.specs.declared.contents.TheConstants.{MAX_BATCH_BUFFERS, MAX_BATCH_NODES};
ghost use Rattle.sector_dev.specs.declared.device.TheConstants.{SECTOR_BYTES};
ghost use Rattle.sector_dev.specs.declared.file.TheConstants.{LEAST_SECTORS, MOST_SECTORS};
ghost use Rattle.tables.specs.declared.limits.TheConstants.{MAX_IMPORT_BYTES};

/// The limits of a message's metadata: its bytes, its tables and their depth, and those of a schema and a batch.
pub fn limits_of_metadata()
    ensures metadata_bytes { MAX_BUFFER_BYTES ≡ 16777216 }
    ensures tables { MAX_BUFFER_TABLES ≡ 20000 }
    ensures levels { MAX_LEVELS ≡ 40 }
    ensures fields { MAX_FIELDS ≡ 2048 }
    ensures depth { MAX_DEPTH ≡ 32 }
    ensures pairs { MAX_PAIRS ≡ 4096 }
    ensures text_bytes { MAX_TEXT_BYTES ≡ 4194304 }
    ensures numbers { NUMBER_END ≡ 2147483648 }
    ensures nodes { MAX_BATCH_NODES ≡ 2048 }
    ensures buffers { MAX_BATCH_BUFFERS ≡ 65536 }
{}

/// The limits of a table, its batches and its pieces.
pub fn limits_of_tables()
    ensures slots { MAX_SLOTS ≡ 16777216 }
    ensures row_weight { MAX_ROW_WEIGHT ≡ 16777216 }
    ensures table_weight { MAX_TABLE_WEIGHT ≡ 268435456 }
    ensures piece_rows { MAX_PIECE_ROWS ≡ 4096 }
    ensures piece_weight { MAX_PIECE_WEIGHT ≡ 16777216 }
{}

/// The limits of a store and of its inputs.
pub fn limits_of_stores()
    ensures sector_bytes { SECTOR_BYTES ≡ 512 }
    ensures least_sectors { LEAST_SECTORS ≡ 16 }
    ensures most_sectors { MOST_SECTORS ≡ 4194304 }
    ensures name_bytes { MAX_NAME_BYTES ≡ 64 }
    ensures segment_rows { MAX_SEGMENT_ROWS ≡ 4096 }
    ensures tables { MAX_TABLES ≡ 1024 }
    ensures segments { MAX_SEGMENTS ≡ 65536 }
    ensures import_bytes { MAX_IMPORT_BYTES ≡ 2147483647 }
    ensures exports { MAX_EXPORTS ≡ 64 }
{}

/// The limit of what a command of the program reads: an input, a text or a script.
pub fn limits_of_programs()
    ensures largest_input { LARGEST_INPUT ≡ 2147483647 }
{}
