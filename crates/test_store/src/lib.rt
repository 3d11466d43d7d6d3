//! Tests of the public calls of `store` on a device in memory: of what no clause says.
//!
//! A test is a table of rows and one function that plays them: a step is a call of a store, with the text of its reply.
#![tactic(auto)]

#[cfg(test)]
mod archives;
#[cfg(test)]
mod chance;
#[cfg(test)]
mod commands;
#[cfg(test)]
mod compactions;
#[cfg(test)]
mod digests;
#[cfg(test)]
mod disturbed;
#[cfg(test)]
mod exports;
#[cfg(test)]
mod failing_reads;
#[cfg(test)]
mod inputs;
#[cfg(test)]
mod interleavings;
#[cfg(test)]
mod limits;
#[cfg(test)]
mod lists;
#[cfg(test)]
mod lowest_runs;
#[cfg(test)]
mod made;
#[cfg(test)]
mod no_room;
#[cfg(test)]
mod openings;
#[cfg(test)]
mod paged_catalogues;
#[cfg(test)]
mod pieces;
#[cfg(test)]
mod plain_tables;
#[cfg(test)]
mod playing;
#[cfg(test)]
mod read_tables;
#[cfg(test)]
mod receiving;
#[cfg(test)]
mod refused_commands;
#[cfg(test)]
mod salvages;
#[cfg(test)]
mod selections;
#[cfg(test)]
mod shown;
#[cfg(test)]
mod snapshot;
#[cfg(test)]
mod steps;
#[cfg(test)]
mod stops;
#[cfg(test)]
mod summaries;
#[cfg(test)]
mod transactions;
#[cfg(test)]
mod versions;
#[cfg(test)]
mod weights;
#[cfg(test)]
mod without_memory;
