// Conversion: an image of the other edition, written into a second image.
#![tactic(auto)]

pub mod conversion;
