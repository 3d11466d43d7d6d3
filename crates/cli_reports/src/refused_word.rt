use std::fmt;

/// What a word of the command line names.
#[derive(Clone, Copy)]
pub enum Role {
    /// The file of a store.
    File,
    /// A table.
    Name,
    /// A field of a new table.
    Field,
    /// A condition of a query.
    Condition,
    /// A column of a query.
    Column,
}

impl fmt::Display for Role {
    ghost use Rattle.std.specs.Prelude.{Some};
    ghost use Rattle.cli_reports.specs.RefusedWord.{role_text};

    ghost output = { λ role. Some (role_text role) };

    fn fmt<W: fmt::Write>(&self, f: &mut fmt::Formatter<W>) -> fmt::Result {
        f.write_str(match self {
            Role::File => "file",
            Role::Name => "name",
            Role::Field => "field",
            Role::Condition => "condition",
            Role::Column => "column",
        })
    }
}

/// A refused word of the command line.
#[derive(Clone, Copy)]
pub struct Word<'a> {
    pub role: Role,
    pub text: &'a str,
}
