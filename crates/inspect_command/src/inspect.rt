// Shows the last image that a keeper holds.
ghost use Rattle.std.specs.Prelude.{◌≡◌, ◌≤◌, IfOk, IfErr};
ghost use Rattle.outside.specs.Faults.{HasRisen};
ghost use Rattle.outside.specs.Keepers.{image_of};
ghost use Rattle.job_text.specs.JobText.{IsJobText};
ghost use Rattle.job_text.specs.KnownKinds.{every_kind};
ghost use Rattle.command_parts.specs.Causes.{status_of};
ghost use Rattle.command_parts.specs.Held.{HoldsLast};
ghost use Rattle.inspect_command.specs.Inspects.{IsImageIn, IsInspectFault, IsReadFault, Shows};

use channel_state::{ImageFault, read_image};
use command_parts::fault::Fault;
use command_parts::held::ask_last;
use flow_defs::{Bytes, Image, Job};
use image_lines::image_lines;
use job_text::read_grammar;
use outside::{Keeper, Kept};
use std::alloc::Global;

/// The place of an image's number among its bytes.
pub const NUMBER_PLACE: u64 = 5;

/// The lines that are shown of the last image that the keeper holds. It costs the image's length.
pub fn show_last<K: Keeper>(alloc: Global, keeper: &mut K) -> Result<Bytes, Fault>
    ensures shown { IfOk result (λ text. HoldsLast (K.images keeper.old) (Shows (λ lines. text.items ≡ lines))) }
    ensures fault { IfErr result (IsInspectFault (K.images keeper.old)) }
    ensures keeper { IfErr result (λ fault. status_of fault ≡ 5 → HasRisen (K.faults keeper.old) (K.faults keeper.new)) }
    ensures same { K.images keeper.new ≡ K.images keeper.old }
    ensures never_falls { K.faults keeper.old ≤ K.faults keeper.new }
{
    let Some(kept) = ask_last(alloc, keeper)? else {
        return Err(Fault::HoldsNoImage);
    };
    show(alloc, &kept)
}

// The lines that are shown of a kept image.
fn show(alloc: Global, kept: &Kept) -> Result<Bytes, Fault>
    ensures shown { IfOk result (λ text. Shows (λ lines. text.items ≡ lines) (image_of kept.now)) }
    ensures fault { IfErr result (IsReadFault (image_of kept.now)) }
{
    let image = read_kept(alloc, kept)?;
    let job = job_of_image(alloc, &image)?;
    Ok(image_lines(alloc, &job, &image)?)
}

// The image that the bytes spell, where it has the number under which they are kept.
fn read_kept(alloc: Global, kept: &Kept) -> Result<Image, Fault>
    ensures image { IfOk result (IsImageIn (image_of kept.now)) }
    ensures number { IfOk result (λ image. image.number ≡ kept.now.number) }
    ensures fault { IfErr result (IsReadFault (image_of kept.now)) }
{
    let number = kept.number;
    let image = read_spelled(alloc, kept)?;
    if image.number != number {
        let place = NUMBER_PLACE;
        return Err(Fault::NotImage { number, place });
    }
    Ok(image)
}

// The image that the bytes spell.
fn read_spelled(alloc: Global, kept: &Kept) -> Result<Image, Fault>
    ensures image { IfOk result (IsImageIn (image_of kept.now)) }
    ensures fault { IfErr result (IsReadFault (image_of kept.now)) }
{
    let number = kept.number;
    match read_image(alloc, kept.bytes.as_slice()) {
        Ok(image) => Ok(image),
        Err(ImageFault::NotImage { place }) => Err(Fault::NotImage { number, place }),
        Err(ImageFault::Memory) => Err(Fault::Memory),
    }
}

// The job of the image's text. An image's text has no fault, so memory alone may be lacking.
fn job_of_image(alloc: Global, image: &Image) -> Result<Job, Fault>
    ensures job { IfOk result (IsJobText every_kind image.now.text.items) }
    ensures fault { IfErr result (λ fault. fault ≡ Fault.Memory) }
{
    match read_grammar(alloc, image.text.as_slice()) {
        Ok(job) => Ok(job),
        Err(_) => Err(Fault::Memory),
    }
}
