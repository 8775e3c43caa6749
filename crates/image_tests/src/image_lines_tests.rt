// The image of a job with one source and one task that counts.
use fixtures::{counting_job, list_of_one};
use flow_defs::{Bytes, Image, Table, TakeRun};
use image_lines::image_lines;
use std::alloc::{AllocError, Global};
use std::test::Fail;

// Three records of two keys were read, sent and counted.
fn counted_image(alloc: Global) -> Result<Image, AllocError> {
    let mut table = Table::new(alloc);
    table.set(b"a", 2)?;
    table.set(b"b", 1)?;
    let takes = list_of_one(alloc, TakeRun { from: 0, count: 3 })?;
    Ok(Image {
        number: 1,
        final_one: true,
        text: Bytes::new(alloc),
        offsets: list_of_one(alloc, 3)?,
        ended: list_of_one(alloc, true)?,
        emitted: list_of_one(alloc, 3)?,
        tables: list_of_one(alloc, table)?,
        takes: list_of_one(alloc, takes)?,
        saved_in: list_of_one(alloc, Bytes::new(alloc))?,
        saved_out: list_of_one(alloc, Bytes::new(alloc))?,
    })
}

#[test]
fn an_image_is_shown_in_lines(rt: HostRuntime) -> Result<(), Fail> {
    let alloc = rt.alloc();
    let job = counting_job(alloc)?;
    let image = counted_image(alloc)?;
    let text = image_lines(alloc, &job, &image)?;
    assert_eq!(rt;
        str::from_utf8(text.as_slice())?,
        "image 1\n\
         last yes\n\
         source 0 offset 3 ended yes\n\
         task 0 0 emitted 3\n\
         table 0 keys 2\n\
         take 1 0 runs 1 records 3\n\
         channel 0 0 0 in 0 out 0\n"
    );
    Ok(())
}
