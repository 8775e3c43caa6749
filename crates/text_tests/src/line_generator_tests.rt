// Small texts, and the same lines again.
use line_generator::generate;
use std::test::Fail;

#[test]
fn a_seed_gives_these_lines(rt: HostRuntime) -> Result<(), Fail> {
    let alloc = rt.alloc();
    for (lines, seed, text) in [
        (0, 9, ""),
        (1, 0, "w807 w25\n"),
        (1, 1, "w774 w35\n"),
        (3, 7, "w278 w23\nw231 w30\nw753 w13\n"),
        (2, 18_446_744_073_709_551_615, "w488 w51\nw343 w81\n"),
    ] {
        assert_eq!(rt; generate(alloc, lines, seed)?.as_slice(), text.as_bytes());
    }
    Ok(())
}
