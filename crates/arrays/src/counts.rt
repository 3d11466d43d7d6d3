// How many nodes, buffers and dictionaries columns take.
ghost use Rattle.std.specs.Prelude.{◌≡◌, ◌+◌, map, length};
ghost use Rattle.arrow_schema.specs.Column.{columns_of};
ghost use Rattle.arrow_schema.specs.View.{kind_of, column_of};
ghost use Rattle.columns.specs.Array.{empty_array, no_array};
ghost use Rattle.columns.specs.Tests.{arrays_below, every_array};
ghost use Rattle.columns.specs.FromBuffers.{node_count, buffer_count, dictionary_count};
ghost use Rattle.columns.specs.Buffers.{kind_buffers};
ghost use Rattle.arrays.specs.inner.Counted.{capped, buffers_among, dictionaries_among};

use arrow_schema::{DataType, Field};

/// As far as a number of 64 bits counts: no slice is longer.
#[derive(Clone, Copy)]
pub(crate) struct Counts {
    pub(crate) nodes: usize,
    pub(crate) buffers: usize,
    pub(crate) dictionaries: usize,
}

fn sum(a: Counts, b: Counts) -> Counts
    ensures nodes { result.nodes ≡ capped (a.nodes + b.nodes) }
    ensures buffers { result.buffers ≡ capped (a.buffers + b.buffers) }
    ensures dictionaries { result.dictionaries ≡ capped (a.dictionaries + b.dictionaries) }
{
    Counts {
        nodes: a.nodes.saturating_add(b.nodes),
        buffers: a.buffers.saturating_add(b.buffers),
        dictionaries: a.dictionaries.saturating_add(b.dictionaries),
    }
}

// The buffers of an array without a dictionary, without those of its children.
fn own_buffers(data_type: &DataType) -> usize
    ensures { result ≡ length (kind_buffers (kind_of data_type.now) empty_array) }
{
    match data_type {
        DataType::Null => 0,
        DataType::Bool => 2,
        DataType::Int(_) => 2,
        DataType::Date(_) => 2,
        DataType::Timestamp(_, _) => 2,
        DataType::Utf8 => 3,
        DataType::LargeUtf8 => 3,
        DataType::Binary => 3,
        DataType::LargeBinary => 3,
        DataType::FixedSizeBinary(_) => 2,
        DataType::List(_) => 2,
        DataType::LargeList(_) => 2,
        DataType::FixedSizeList(_, _) => 1,
        DataType::Struct(_) => 1,
    }
}

/// What a column takes, with all below it.
#[tactic(auto, unfolding(columns::specs::Tests::arrays_at))]
#[cycle(counts)]
pub(crate) fn column_counts(field: &Field) -> Counts
    ensures nodes { result.nodes ≡ capped (node_count (column_of field.now)) }
    ensures buffers { result.buffers ≡ capped (buffer_count (column_of field.now)) }
    ensures dictionaries { result.dictionaries ≡ capped (dictionary_count (column_of field.now)) }
{
    match &field.dictionary {
        Some(_) => Counts {
            nodes: 1,
            buffers: 2,
            dictionaries: 1,
        },
        None => {
            let own = Counts {
                nodes: 1,
                buffers: own_buffers(&field.data_type),
                dictionaries: 0,
            };
            sum(own, counts_below(&field.data_type))
        }
    }
}

// What is below an array.
#[tactic(auto, using(arrow_schema::specs::declared::types::Field::the_lemmas), unfolding(columns::specs::Tests::arrays_below))]
#[cycle(counts)]
fn counts_below(data_type: &DataType) -> Counts
    ensures nodes { result.nodes ≡ capped (length (arrays_below (kind_of data_type.now) empty_array)) }
    ensures buffers { result.buffers ≡ capped (buffers_among (arrays_below (kind_of data_type.now) empty_array)) }
    ensures dictionaries { result.dictionaries ≡ capped (dictionaries_among (arrays_below (kind_of data_type.now) empty_array)) }
{
    match data_type {
        DataType::List(item) => column_counts(item),
        DataType::LargeList(item) => column_counts(item),
        DataType::FixedSizeList(_, item) => column_counts(item),
        DataType::Struct(fields) => counts_of(fields),
        _ => Counts {
            nodes: 0,
            buffers: 0,
            dictionaries: 0,
        },
    }
}

/// What columns take.
#[tactic(auto, using(crate::proofs::Counted::next_nodes, crate::proofs::Counted::next_buffers, crate::proofs::Counted::next_dictionaries), unfolding(columns::specs::Tests::every_array))]
#[cycle(counts)]
pub(crate) fn counts_of(fields: &[Field]) -> Counts
    ensures nodes { result.nodes ≡ capped (length (every_array (columns_of (map column_of fields.now)) no_array)) }
    ensures buffers { result.buffers ≡ capped (buffers_among (every_array (columns_of (map column_of fields.now)) no_array)) }
    ensures dictionaries { result.dictionaries ≡ capped (dictionaries_among (every_array (columns_of (map column_of fields.now)) no_array)) }
{
    let mut all = Counts {
        nodes: 0,
        buffers: 0,
        dictionaries: 0,
    };
    for field in fields {
        all = sum(all, column_counts(field));
    }
    all
}
