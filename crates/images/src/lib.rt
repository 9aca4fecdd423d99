// The operations on whole images: Format, Recover and Carry out, which write the image themselves, and Convert, which writes a
// second one; and Translate, which turns a script into another memory module's.
#![tactic(auto)]

pub mod apply;
pub mod convert;
pub mod format;
pub mod recover;
pub mod translate;
