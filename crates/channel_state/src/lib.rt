//! The bytes in which a checkpoint's image is kept: `write_image` spells an image, and `read_image` reads it
//! again.
//!
//! It stands on plain_machine, whose definitions say what an image means and how it is spelled, on job_text,
//! since an image holds the text of its job, and on record_spans, as what it saves are records. Contracts see
//! an image by what it holds.
#![tactic(auto)]

mod check;
mod cursor;
mod fault;
mod places;
mod read;
mod write;

pub use fault::{ImageFault, WriteFault};
pub use read::read_image;
pub use write::write_image;

// The most bytes of a job's text in an image.
pub(crate) const TEXT_MOST: usize = 65_536;
