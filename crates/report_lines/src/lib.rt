// The lines that the bench program writes, put into a slice one after another.
// The definitions that the contracts cite stand in specs/ReportLines.antt.
#![tactic(auto)]

pub mod lines;
