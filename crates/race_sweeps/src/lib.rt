//! Sweeps that end at the first run that has a data race (JLS 17.4.5).
#![tactic(auto)]

pub mod race_sweeping;
