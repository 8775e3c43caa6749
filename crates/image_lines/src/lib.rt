//! What is shown of the image of a checkpoint, in lines.
//!
//! It stands on plain_machine, whose definitions say where tasks and channels stand in an image, and on
//! collector, which finds their places. Contracts see the text as the definition of
//! `specs/Shown.antt`, line by line.
#![tactic(auto)]

mod lines;

pub use lines::image_lines;
