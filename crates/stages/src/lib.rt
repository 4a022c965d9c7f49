// The stages of a radio link, each in the file of its name: its setting's type, the stage, and in specs/ its formula.
//
// Scaling, gain, DC offset, imbalance and the converter treat each sample on its own, and so does the amplifier. Multipath, the
// frequency offset and the clock offset remember what went before. Noise is a lowest source.
//
// Proved: item k is what the published formula makes of the items below, from whatever state the stage stands in; the
// amplifier's magnitude is the exact root, whatever way it was found; the worked examples follow from the formulas.
#![tactic(auto)]

pub mod amplifier;
pub mod clock_offset;
pub mod converter;
pub mod dc_offset;
pub mod frequency_offset;
pub mod gain;
pub mod imbalance;
pub mod multipath;
pub mod noise;
mod root;
pub mod scaling;
pub mod worked;
