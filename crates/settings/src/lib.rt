// The settings of the radio link.
//
// Proved of the settings: what every one of them is when fresh; a setting call is refused exactly
// when a number is outside its range, by the first that is, and then leaves the settings as they
// were; otherwise what it was given stands in the settings, and nothing else has changed.
#![tactic(auto)]

mod checks;
mod neutral;
pub mod refusal;
pub mod settings;
