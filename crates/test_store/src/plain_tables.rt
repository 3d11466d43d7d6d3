// Tables and exports as plain values, and the answer to each call, to compare a store with. Each table has one column `a` of 32 or 64 bits.
use crate::chance::drawn_commands;
use crate::inputs::Input;
use crate::made::NotMade;
use crate::snapshot::Snapshot;
use crate::steps::{Asked, Step, add_comma, says};
use std::alloc::Global;
use store::Reply;

/// The possible names of tables, in byte order.
pub const NAMES: &[&str] = &["s", "t", "u", "v"];

/// The condition of a query that has one.
pub const FROM_TWENTY: &[&str] = &["a >= 20"];

// The rows of a table.
#[derive(Drop)]
struct Rows {
    wide: bool,
    values: Vec<i32>,
}

/// The tables by the places of their names, and the exports by their ids.
#[derive(Drop)]
pub struct Plain {
    tables: Vec<Option<Rows>>,
    exports: Vec<Snapshot>,
}

// Returns the place of a name among these, or their number if it is not there.
fn place_of(name: &str) -> usize {
    for (place, other) in NAMES.iter().enumerate() {
        if *other == name {
            return place;
        }
    }
    NAMES.len()
}

fn is_wide(columns: &[&str]) -> bool {
    match columns.first() {
        Some(text) => *text == "a:int64",
        None => false,
    }
}

// Appends the values of an input.
fn add_input(values: &mut Vec<i32>, input: Input) -> Result<(), NotMade> {
    let Input::Range(_, first, count) = input else {
        return Err(NotMade);
    };
    let mut value = first;
    for _ in 0..count {
        values.push(value)?;
        value = value.wrapping_add(1);
    }
    Ok(())
}

// Returns the rows of an input.
fn rows_of(alloc: Global, input: Input) -> Result<Rows, NotMade> {
    let Input::Range(columns, ..) = input else {
        return Err(NotMade);
    };
    let mut values = Vec::new(alloc);
    add_input(&mut values, input)?;
    Ok(Rows {
        wide: is_wide(columns),
        values,
    })
}

// Returns whether a query keeps a value.
fn is_kept(asked: Asked, value: i32) -> bool {
    asked.1.is_empty() || value >= 20
}

// Appends the values that a query keeps, up to its limit.
fn add_kept(values: &mut Vec<i32>, asked: Asked, rows: &Rows) -> Result<(), NotMade> {
    let most = asked.2.unwrap_or(u64::MAX);
    for value in &rows.values {
        if is_kept(asked, *value) && (values.len() as u64) < most {
            values.push(*value)?;
        }
    }
    Ok(())
}

fn kept(alloc: Global, asked: Asked, rows: &Rows) -> Result<Rows, NotMade> {
    let mut values = Vec::new(alloc);
    add_kept(&mut values, asked, rows)?;
    Ok(Rows {
        wide: rows.wide,
        values,
    })
}

fn copied(rows: &Rows) -> Result<Rows, NotMade> {
    Ok(Rows {
        wide: rows.wide,
        values: rows.values.clone()?,
    })
}

fn add_schema(text: &mut String, rows: &Rows) -> Result<(), NotMade> {
    let column = if rows.wide {
        "\"a\":int64"
    } else {
        "\"a\":int32?"
    };
    Ok(text.push_str(column)?)
}

fn add_values(text: &mut String, rows: &Rows) -> Result<(), NotMade> {
    for value in &rows.values {
        write!(text, " {value}")?;
    }
    Ok(())
}

// Appends a table, as `"a":int64: 7 -1`.
fn add_table(text: &mut String, rows: &Rows) -> Result<(), NotMade> {
    add_schema(text, rows)?;
    text.push_str(":")?;
    add_values(text, rows)
}

impl Plain {
    /// Makes no table and no export.
    pub fn new(alloc: Global) -> Result<Plain, NotMade> {
        let mut tables = Vec::new(alloc);
        for _ in NAMES {
            tables.push(None)?;
        }
        Ok(Plain {
            tables,
            exports: Vec::new(alloc),
        })
    }

    fn get(&self, name: &str) -> Option<&Rows> {
        match self.tables.get(place_of(name)) {
            Some(Some(rows)) => Some(rows),
            _ => None,
        }
    }

    fn put(&mut self, name: &str, rows: Option<Rows>) {
        if let Some(place) = self.tables.get_mut(place_of(name)) {
            *place = rows;
        }
    }

    fn take(&mut self, name: &str) -> Option<Rows> {
        match self.tables.get_mut(place_of(name)) {
            Some(place) => place.take(),
            None => None,
        }
    }

    fn create(&mut self, alloc: Global, name: &str, columns: &[&str]) -> &'static str {
        if self.get(name).is_some() {
            return "S2 NameTaken";
        }
        let rows = Rows {
            wide: is_wide(columns),
            values: Vec::new(alloc),
        };
        self.put(name, Some(rows));
        "ok"
    }

    fn append(
        &mut self,
        name: &str,
        input: Input,
        of_any_schema: bool,
    ) -> Result<&'static str, NotMade> {
        let Input::Range(columns, ..) = input else {
            return Err(NotMade);
        };
        match self.tables.get_mut(place_of(name)) {
            Some(Some(rows)) => {
                if rows.wide != is_wide(columns) && !of_any_schema {
                    return Ok("S4 SchemaMismatch");
                }
                add_input(&mut rows.values, input)?;
                Ok("ok")
            }
            _ => Ok("S1 NoTable"),
        }
    }

    fn save(
        &mut self,
        alloc: Global,
        from: &str,
        to: &str,
        asked: Asked,
    ) -> Result<&'static str, NotMade> {
        let Some(rows) = self.get(from) else {
            return Ok("S1 NoTable");
        };
        if self.get(to).is_some() {
            return Ok("S2 NameTaken");
        }
        let new = kept(alloc, asked, rows)?;
        self.put(to, Some(new));
        Ok("ok")
    }

    fn rename(&mut self, from: &str, to: &str) -> &'static str {
        if self.get(from).is_none() {
            return "S1 NoTable";
        }
        if self.get(to).is_some() {
            return "S2 NameTaken";
        }
        let rows = self.take(from);
        self.put(to, rows);
        "ok"
    }

    fn remove(&mut self, name: &str) -> &'static str {
        match self.take(name) {
            Some(_) => "ok",
            None => "S1 NoTable",
        }
    }

    /// Executes a command and returns the answer, if there is room.
    pub fn change(&mut self, alloc: Global, step: Step) -> Result<&'static str, NotMade> {
        match step {
            Step::Create(name, columns) => Ok(self.create(alloc, name, columns)),
            Step::Import(name, input) => {
                let rows = rows_of(alloc, input)?;
                self.put(name, Some(rows));
                Ok("ok")
            }
            Step::Append(name, input) => self.append(name, input, false),
            Step::GiveTable(name, input) => self.append(name, input, true),
            Step::Save(from, to, asked) => self.save(alloc, from, to, asked),
            Step::Rename(from, to) => Ok(self.rename(from, to)),
            Step::Remove(name) => Ok(self.remove(name)),
            _ => Err(NotMade),
        }
    }

    // Copies the tables.
    fn copied(&self, alloc: Global) -> Result<Vec<Option<Rows>>, NotMade> {
        let mut tables = Vec::new(alloc);
        for table in &self.tables {
            tables.push(match table {
                Some(rows) => Some(copied(rows)?),
                None => None,
            })?;
        }
        Ok(tables)
    }

    // Executes commands one after another, up to the first one that is refused. Returns its place and its answer.
    fn change_in_turn(
        &mut self,
        alloc: Global,
        steps: &[Step],
    ) -> Result<Option<(usize, &'static str)>, NotMade> {
        for (place, step) in steps.iter().enumerate() {
            let answer = self.change(alloc, *step)?;
            if answer != "ok" {
                return Ok(Some((place, answer)));
            }
        }
        Ok(None)
    }

    /// Executes the commands that a number draws: all of them or none. Returns the place of the first one that is refused, and its answer.
    pub fn change_together(
        &mut self,
        alloc: Global,
        seed: u64,
    ) -> Result<Option<(usize, &'static str)>, NotMade> {
        let steps = drawn_commands(alloc, seed)?;
        let before = self.copied(alloc)?;
        self.tables = self.copied(alloc)?;
        let refused = self.change_in_turn(alloc, &steps)?;
        if refused.is_some() {
            self.tables = before;
        }
        Ok(refused)
    }

    fn add_counts(&self, text: &mut String) -> Result<(), NotMade> {
        for name in NAMES {
            if let Some(rows) = self.get(name) {
                add_comma(text, text.len())?;
                let count = rows.values.len();
                write!(text, "{name} {count}")?;
            }
        }
        Ok(())
    }

    fn add_contents(&self, text: &mut String) -> Result<(), NotMade> {
        for name in NAMES {
            if let Some(rows) = self.get(name) {
                add_comma(text, text.len())?;
                write!(text, "{name}:")?;
                add_values(text, rows)?;
            }
        }
        Ok(())
    }

    /// Returns the values of each table, as `contents` shows those of a device.
    pub fn contents(&self, alloc: Global) -> Result<String, NotMade> {
        let mut text = String::new(alloc);
        self.add_contents(&mut text)?;
        Ok(text)
    }

    fn add_reading(&self, text: &mut String, step: Step) -> Result<(), NotMade> {
        let (Step::Read(name) | Step::Export(name) | Step::Schema(name)) = step else {
            return self.add_counts(text);
        };
        match (self.get(name), step) {
            (None, _) => Ok(text.push_str("S1 NoTable")?),
            (Some(rows), Step::Schema(_)) => add_schema(text, rows),
            (Some(rows), Step::Export(_)) => {
                text.push_str("stream of ")?;
                add_table(text, rows)
            }
            (Some(rows), _) => add_table(text, rows),
        }
    }

    /// Returns the answer to a reading.
    pub fn reading(&self, alloc: Global, step: Step) -> Result<String, NotMade> {
        let mut text = String::new(alloc);
        self.add_reading(&mut text, step)?;
        Ok(text)
    }

    // Returns what an export of a table must mean.
    fn found(&self, alloc: Global, name: &str) -> Result<Option<Snapshot>, NotMade> {
        let Some(rows) = self.get(name) else {
            return Ok(None);
        };
        let mut text = String::new(alloc);
        add_table(&mut text, rows)?;
        Ok(Some(Snapshot::new(alloc, text)))
    }

    /// Returns whether opening an export is answered rightly: with the next id.
    pub fn opens(&mut self, alloc: Global, name: &str, reply: &Reply) -> Result<bool, NotMade> {
        match self.found(alloc, name)? {
            Some(snapshot) => {
                let next = self.exports.len() as u64;
                self.exports.push(snapshot)?;
                Ok(matches!(reply, Reply::Export(id) if *id == next))
            }
            None => says(alloc, reply, "S1 NoTable"),
        }
    }

    /// Returns whether the answer is the next piece of an export.
    pub fn gives(&mut self, alloc: Global, id: u64, reply: &Reply) -> Result<bool, NotMade> {
        match (self.exports.get_mut(id as usize), reply) {
            (Some(snapshot), Reply::Piece(piece)) => snapshot.takes(alloc, piece),
            (Some(snapshot), reply) => Ok(
                !snapshot.is_open() && says(alloc, reply, "S11 NoExport")?,
            ),
            (None, reply) => says(alloc, reply, "S11 NoExport"),
        }
    }

    /// Returns whether closing an export is answered rightly.
    pub fn closes(&mut self, alloc: Global, id: u64, reply: &Reply) -> Result<bool, NotMade> {
        match self.exports.get_mut(id as usize) {
            Some(snapshot) if snapshot.is_open() => {
                snapshot.close();
                says(alloc, reply, "ok")
            }
            _ => says(alloc, reply, "S11 NoExport"),
        }
    }

    /// Returns how many exports were opened.
    pub fn exports_opened(&self) -> u64 {
        self.exports.len() as u64
    }

    /// Notes that the store was opened again: no export is open any more.
    pub fn is_opened_again(&mut self) {
        self.exports.clear();
    }
}
