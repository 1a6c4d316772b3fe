// The settings of a digestion. What its outcome is, and that of reversal and spelling, stands in specs.
#![tactic(auto)]

mod settings;

pub use settings::Settings;
