//! What only the library can show of scripts, the loop of lines, and transcripts: readers and writers that fail, and text that is printed.
#![tactic(auto)]

#[cfg(test)]
mod line_loops;
#[cfg(test)]
mod same;
#[cfg(test)]
mod scripts;
#[cfg(test)]
mod transcripts;
