//! Keeps tables in a store: on a device in memory, and then in the new file that the argument names.
//! One of the tables is the Arrow stream on standard input.
#![tactic(auto)]

use anyhow::{Result, bail};
use arrow_schema::Schema;
use cells::{Row, Value};
use field_texts::parse_fields;
use query::{Condition, DateForm, Query, RowForm, RowShape};
use sector_dev::{FileDevice, ModelDevice, SectorDevice};
use std::alloc::Global;
use std::env;
use std::io::{Read, Write};
use store::Store;
use tables::{Command, NewTable};

// Creates a table of three columns, and appends a row.
fn note<D: SectorDevice + Drop>(alloc: Global, store: &mut Store<D>) -> Result<()> {
    let texts = ["at:timestamp_s(UTC)", "value:int64", "note:utf8?"];
    let fields = parse_fields(alloc, &texts)?;
    let schema = Schema {
        fields,
        pairs: Vec::new(alloc),
    };
    let name = String::from_str(alloc, "notes")?;
    store.apply(alloc, Command::Create(NewTable { name, schema }))?;
    let cells = vec![in alloc; Value::Int(1_700_000_000), Value::Int(-250), Value::Null]?;
    let rows = vec![in alloc; Row { cells }]?;
    let name = String::from_str(alloc, "notes")?;
    store.apply(alloc, Command::AppendRows { name, rows })?;
    Ok(())
}

// Returns the rows with a value below zero, a line of JSON each.
fn below_zero<D: SectorDevice + Drop>(alloc: Global, store: &mut Store<D>) -> Result<Vec<u8>> {
    let query = Query {
        columns: Vec::new(alloc),
        conditions: vec![in alloc; Condition::parse(alloc, "value < 0")?]?,
        limit: Some(10),
        dates: DateForm::Iso,
    };
    let form = RowForm {
        shape: RowShape::Object,
        dates: DateForm::Iso,
    };
    Ok(store.selected_lines(alloc, "notes", &query, form)??)
}

// Each change is safe once its call has returned Ok.
fn keep<D: SectorDevice + Drop>(rt: &HostRuntime, device: D, stream: &[u8]) -> Result<()> {
    let alloc = rt.alloc();
    let mut store = Store::format(alloc, device).map_err(|(refusal, _device)| refusal)?;
    let (mut first, mut again) = (stream, stream);
    store.import_from(alloc, "readings", &mut first)?;
    store.append_from(alloc, "readings", &mut again)?;
    let rows = store.read(alloc, "readings")?.len();
    let exported = store.export_bytes(alloc, "readings")?;
    println!(rt; "{rows} rows, exported as {} bytes", exported.len())?;
    note(alloc, &mut store)?;
    rt.stdout().write_all(&below_zero(alloc, &mut store)?)?;
    let _device = store.close();
    Ok(())
}

fn main(rt: HostRuntime) -> Result<()> {
    let mut stream = Vec::new(rt.alloc());
    rt.reader().read_to_end(&mut stream)?;
    keep(&rt, ModelDevice::new(rt.alloc(), 64)?, &stream)?;
    let words: Vec<String> = env::args(&rt)?.collect(rt.alloc())?;
    let Some(path) = words.get(1) else {
        bail!("usage: library_example FILE < STREAM");
    };
    keep(&rt, FileDevice::create(&rt, path.as_str(), 64)?, &stream)
}
