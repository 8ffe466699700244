//! Worked cases of pitches, columns and exercises, of the disk, of the rules, tolls and gauges, of
//! the judge, of what is open behind a column and of the tables of least sums, with answers that
//! were worked out by hand, and settings that are judged column by column and as a whole. They
//! stand in a crate above those that they try, so that what carries the proofs is proved once.
#![tactic(auto)]

#[cfg(test)]
mod agree;
#[cfg(test)]
mod answers;
#[cfg(test)]
mod chords;
#[cfg(test)]
mod disk;
#[cfg(test)]
mod floors;
#[cfg(test)]
mod found;
#[cfg(test)]
mod four_voices;
#[cfg(test)]
mod given;
#[cfg(test)]
mod lines;
#[cfg(test)]
mod meeting;
#[cfg(test)]
mod menus;
#[cfg(test)]
mod mixed;
#[cfg(test)]
mod mixed_rows;
#[cfg(test)]
mod mixed_tables;
#[cfg(test)]
mod notes;
#[cfg(test)]
mod open_parts;
#[cfg(test)]
mod parts;
#[cfg(test)]
mod pieces;
#[cfg(test)]
mod pitches;
#[cfg(test)]
mod pruning;
#[cfg(test)]
mod rows;
#[cfg(test)]
mod settings;
#[cfg(test)]
mod spans;
#[cfg(test)]
mod tables;
#[cfg(test)]
mod three_voices;
#[cfg(test)]
mod two_voices;
#[cfg(test)]
mod words;
