//! The data races of a run that was recorded (JLS 17.4.5).
#![tactic(auto)]

pub mod record_races;
