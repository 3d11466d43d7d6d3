//! Tests of the public calls of `sector_dev`, `segments` and `commit`: what no clause says and no file shows.
//!
//! A test is a table of rows and one function that executes them.
#![tactic(auto)]

#[cfg(test)]
mod calls;
#[cfg(test)]
mod commits;
#[cfg(test)]
mod damaged_stores;
#[cfg(test)]
mod doubted_file;
#[cfg(test)]
mod failing_file;
#[cfg(test)]
mod failing_row;
#[cfg(test)]
mod faulty_file;
mod few;
#[cfg(test)]
mod file_device;
#[cfg(test)]
mod free_map;
mod life;
#[cfg(test)]
mod model_device;
#[cfg(test)]
mod model_file;
#[cfg(test)]
mod other_devices;
#[cfg(test)]
mod runs;
#[cfg(test)]
mod versions;

pub use few::Few;
pub use life::Life;
