// Pseudo-random commands.
use crate::inputs::Input;
use crate::made::NotMade;
use crate::plain_tables::{FROM_TWENTY, NAMES};
use crate::steps::{Asked, Step};
use Step::{Append, Create, GiveTable, Import, Remove, Rename, Save};
use std::alloc::Global;

const NARROW: &[&str] = &["a:int32?"];

const WIDE: &[&str] = &["a:int64"];

/// Pseudo-random numbers: the upper bits of a linear congruential generator.
#[derive(Clone, Copy)]
pub struct Chance {
    pub state: u64,
    /// The number of exports that were opened, or asked for, since the store was opened.
    pub exports: u64,
}

impl Chance {
    /// Returns a number below this one.
    pub fn below(&mut self, count: u64) -> u64 {
        self.state = self
            .state
            .wrapping_mul(6_364_136_223_846_793_005)
            .wrapping_add(1_442_695_040_888_963_407);
        (self.state >> 33).checked_rem(count).unwrap_or(0)
    }

    /// Returns the name of a table.
    pub fn name(&mut self) -> &'static str {
        match NAMES.get(self.below(4) as usize) {
            Some(name) => name,
            None => "",
        }
    }

    fn columns(&mut self) -> &'static [&'static str] {
        if self.below(4) == 0 { WIDE } else { NARROW }
    }

    // Mostly few rows; now and then more than fit into one sector.
    fn input(&mut self) -> Input {
        let columns = self.columns();
        let first = match self.below(3) {
            0 => -4,
            1 => 18,
            _ => 2_147_483_600,
        };
        let count = match self.below(8) {
            0 => 0,
            1..=4 => 2,
            5 | 6 => 9,
            _ => 700,
        };
        Input::Range(columns, first, count)
    }

    fn query(&mut self) -> Asked {
        let conditions: &'static [&'static str] = if self.below(2) == 0 {
            FROM_TWENTY
        } else {
            &[]
        };
        let most = self.below(40);
        (&[], conditions, if most > 9 { Some(most) } else { None })
    }

    /// Returns a command.
    pub fn change(&mut self) -> Step {
        match self.below(14) {
            0 => Create(self.name(), self.columns()),
            1..=3 => Import(self.name(), self.input()),
            4..=7 => Append(self.name(), self.input()),
            8 | 9 => GiveTable(self.name(), self.input()),
            10 => Save(self.name(), self.name(), self.query()),
            11 | 12 => Rename(self.name(), self.name()),
            _ => Remove(self.name()),
        }
    }
}

/// Returns the commands that this number draws, one to six.
pub fn drawn_commands(alloc: Global, seed: u64) -> Result<Vec<Step>, NotMade> {
    let mut chance = Chance {
        state: seed,
        exports: 0,
    };
    let mut steps = Vec::new(alloc);
    for _ in 0..=chance.below(6) {
        steps.push(chance.change())?;
    }
    Ok(steps)
}
