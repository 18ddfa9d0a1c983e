//! Tests of runs of `playrun`: scripts, cue sheets, generated scripts, clips that are converted, digests, and the reports on
//! standard error. They check what no clause states, against values from other programs or worked out by hand.
#![tactic(auto)]

#[cfg(test)]
mod tests;
