// Tests of the edges: sizes, memory, codes, maps, cuts and files at and beyond their limits, and of what callers may write.
#![tactic(auto)]

#[cfg(test)]
mod callers;
#[cfg(test)]
mod opening;
#[cfg(test)]
mod scales;
#[cfg(test)]
mod sheets_and_files;
