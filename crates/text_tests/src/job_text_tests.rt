// Words and texts that are read, beside those that are refused, each with its first fault.
ghost use Rattle.flow_defs.specs.Stages.{IsArgument};

use flow_defs::{AggKind, Bytes, Exchange, ListOf, Stage, StageKind, Word};
use job_text::{Command, JobFault, JobReadFault, RunOptions, read_grammar, read_job, read_words};
use stage_fns::{AggFn, FnTable, StageFn, count, field, keep, words};
use std::alloc::{AllocError, Global};
use std::process::Abort;
use std::test::Fail;

// The words, each on its own.
fn words_of(alloc: Global, line: &[&str]) -> Result<ListOf<Word>, AllocError> {
    let mut words = ListOf::new(alloc);
    for word in line {
        words.push(Word::of(alloc, word)?)?;
    }
    Ok(words)
}

// Words that are no command, and their first faults.
const FAULTY: &[(&[&str], &str)] = &[
    (&[], "usage: no command"),
    (&["go"], "usage: unknown command"),
    (&["", "j"], "usage: unknown command"),
    (&["--fast", "run"], "usage: unknown command"),
    (&["scripts", "s"], "usage: unknown command"),
    (&["run"], "usage: missing operand"),
    (&["run", ""], "usage: missing operand"),
    (&["run", "-j"], "usage: missing operand"),
    (&["run", "-", "--fast"], "usage: missing operand"),
    (&["run", "--pool", "3"], "usage: missing operand"),
    (&["run", "j", "--fast"], "usage: unknown option"),
    (&["run", "j", "-", "k"], "usage: unknown option"),
    (&["run", "j", "--Every", "2"], "usage: unknown option"),
    (&["run", "j", "--pool=3"], "usage: unknown option"),
    (&["run", "j", "--Pool", "3"], "usage: unknown option"),
    (
        &["run", "j", "--pool", "3", "--fast", "--pool"],
        "usage: unknown option",
    ),
    (&["run", "j", "k"], "usage: extra word"),
    (&["run", "j", "", "--fast"], "usage: extra word"),
    (&["run", "j", "--pool", "3", "4"], "usage: extra word"),
    (&["run", "j", "--pool"], "usage: missing value"),
    (&["run", "j", "--links"], "usage: missing value"),
    (&["run", "j", "--every"], "usage: missing value"),
    (&["run", "j", "--mode"], "usage: missing value"),
    (
        &["run", "j", "--pool", "3", "--segment"],
        "usage: missing value",
    ),
    (
        &["run", "j", "--pool", "3", "--pool", "3"],
        "usage: option twice",
    ),
    (
        &["run", "j", "--pool", "3", "--pool"],
        "usage: option twice",
    ),
    (
        &["run", "j", "--pool", "3", "--pool", "x"],
        "usage: option twice",
    ),
    (
        &[
            "run",
            "j",
            "--segment",
            "64",
            "--links",
            "memory",
            "--segment",
            "64",
        ],
        "usage: option twice",
    ),
    (
        &["run", "j", "--links", "memory", "--links", "memory"],
        "usage: option twice",
    ),
    (
        &["run", "j", "--every", "2", "--every", "3"],
        "usage: option twice",
    ),
    (
        &["run", "j", "--mode", "inline", "--mode", "front"],
        "usage: option twice",
    ),
    // Of two faults the first is told.
    (
        &["run", "j", "--every", "0", "--every", "3"],
        "usage: bad value",
    ),
    (&["run", "j", "--every", "--every", "3"], "usage: bad value"),
    (&["run", "j", "--mode", "front", "k"], "usage: bad value"),
    (&["run", "j", "k", "--every", "0"], "usage: extra word"),
];

// Runs with a value that is out of its range or none, and what is told of them.
const FAULTY_VALUES: &[(&[&str], &str)] = &[
    (&["run", "j", "--segment", "63"], "usage: bad value"),
    (&["run", "j", "--segment", "65537"], "usage: bad value"),
    (&["run", "j", "--segment", "4294967360"], "usage: bad value"),
    (&["run", "j", "--segment", "0064"], "usage: bad value"),
    (&["run", "j", "--segment", "64 "], "usage: bad value"),
    (&["run", "j", "--pool", "0"], "usage: bad value"),
    (&["run", "j", "--pool", "16385"], "usage: bad value"),
    (&["run", "j", "--pool", "041"], "usage: bad value"),
    (&["run", "j", "--pool", "-1"], "usage: bad value"),
    (&["run", "j", "--pool", "+4"], "usage: bad value"),
    (&["run", "j", "--pool", ""], "usage: bad value"),
    (&["run", "j", "--pool", "--pool"], "usage: bad value"),
    (&["run", "j", "--pool", "0", "--pool"], "usage: bad value"),
    (&["run", "j", "--every", "0"], "usage: bad value"),
    (&["run", "j", "--every", "05"], "usage: bad value"),
    (
        &["run", "j", "--every", "1099511627777"],
        "usage: bad value",
    ),
    (
        &["run", "j", "--every", "18446744073709551617"],
        "usage: bad value",
    ),
    (&["run", "j", "--every", "+2"], "usage: bad value"),
    (&["run", "j", "--every", "2s"], "usage: bad value"),
    (&["run", "j", "--every", ""], "usage: bad value"),
    (&["run", "j", "--mode", "front"], "usage: bad value"),
    (&["run", "j", "--mode", "Inline"], "usage: bad value"),
    (&["run", "j", "--mode", ""], "usage: bad value"),
    (&["run", "j", "--links", "loopback"], "usage: bad value"),
    (&["run", "j", "--links", "Memory"], "usage: bad value"),
    (&["run", "j", "--links", ""], "usage: bad value"),
];

// Words of the other commands that are none, and their first faults.
const FAULTY_OTHERS: &[(&[&str], &str)] = &[
    (&["script"], "usage: missing operand"),
    (&["script", "--fast"], "usage: missing operand"),
    (&["script", "s", "--fast"], "usage: unknown option"),
    (&["script", "s", "--pool", "3"], "usage: unknown option"),
    (&["script", "s", "run"], "usage: extra word"),
    (&["gen"], "usage: missing operand"),
    (&["gen", "--fast"], "usage: missing operand"),
    (&["gen", "1"], "usage: missing operand"),
    (&["gen", "2000001"], "usage: bad value"),
    (&["gen", "01", "7"], "usage: bad value"),
    (&["gen", "+1", "7"], "usage: bad value"),
    (&["gen", "1", "18446744073709551616"], "usage: bad value"),
    (&["gen", "1", "7 "], "usage: bad value"),
    (&["gen", "1", "7", "--pool"], "usage: unknown option"),
    (&["gen", "1", "7", "7"], "usage: extra word"),
    (&["gen", "1", "7", "--every", "2"], "usage: unknown option"),
    (&["selfrun"], "usage: missing operand"),
    (&["selfrun", "1"], "usage: missing operand"),
    (&["selfrun", "1", "-7"], "usage: missing operand"),
    (&["selfrun", "2000001", "7"], "usage: bad value"),
    (&["selfrun", "01", "7"], "usage: bad value"),
    (
        &["selfrun", "1", "18446744073709551616"],
        "usage: bad value",
    ),
    (
        &["selfrun", "2000001", "18446744073709551616", "7"],
        "usage: bad value",
    ),
    (
        &["selfrun", "1", "7", "--every", "2"],
        "usage: unknown option",
    ),
    (&["selfrun", "1", "7", "7"], "usage: extra word"),
    (&["selfruns", "1", "7"], "usage: unknown command"),
    (&["inspect", "x"], "usage: extra word"),
    (&["inspect", ""], "usage: extra word"),
    (&["inspect", "--every", "1"], "usage: unknown option"),
    (&["inspect", "-", "x"], "usage: unknown option"),
    (&["Inspect"], "usage: unknown command"),
];

// Reads the words of each row, and compares the fault that is told with the one beside them.
fn compare_faults<R: Abort>(rt: &R, alloc: Global, rows: &[(&[&str], &str)]) -> Result<(), Fail> {
    for (line, fault) in rows {
        match read_words(alloc, &words_of(alloc, line)?) {
            Ok(_) => return Err(Fail::from("words are taken that have a fault")),
            Err(told) => assert_eq!(rt; format!(in alloc; "{told}")?.as_str(), *fault),
        }
    }
    Ok(())
}

#[test]
fn the_first_fault_of_words_is_told(rt: HostRuntime) -> Result<(), Fail> {
    compare_faults(&rt, rt.alloc(), FAULTY)
}

#[test]
fn a_value_out_of_its_range_is_told(rt: HostRuntime) -> Result<(), Fail> {
    compare_faults(&rt, rt.alloc(), FAULTY_VALUES)
}

#[test]
fn the_first_fault_of_other_commands_is_told(rt: HostRuntime) -> Result<(), Fail> {
    compare_faults(&rt, rt.alloc(), FAULTY_OTHERS)
}

// Words of runs, with the lines between checkpoints, the length and the number of segments that they
// give.
const RUNS: &[(&[&str], Option<u64>, u32, u32)] = &[
    (&["run", "j"], None, 32_768, 2_048),
    (&["run", "j", "--pool", "41"], None, 32_768, 41),
    (&["run", "j", "--segment", "4096"], None, 4_096, 2_048),
    (&["run", "j", "--links", "memory"], None, 32_768, 2_048),
    (
        &[
            "run",
            "j",
            "--segment",
            "64",
            "--pool",
            "4",
            "--links",
            "memory",
        ],
        None,
        64,
        4,
    ),
    (
        &[
            "run",
            "j",
            "--pool",
            "4",
            "--links",
            "memory",
            "--segment",
            "64",
        ],
        None,
        64,
        4,
    ),
    (
        &[
            "run",
            "j",
            "--links",
            "memory",
            "--segment",
            "64",
            "--pool",
            "4",
        ],
        None,
        64,
        4,
    ),
    (
        &["run", "j", "--pool", "1", "--segment", "65536"],
        None,
        65_536,
        1,
    ),
    (
        &["run", "j", "--segment", "65535", "--pool", "16384"],
        None,
        65_535,
        16_384,
    ),
    (&["run", "j", "--every", "1"], Some(1), 32_768, 2_048),
    (
        &["run", "j", "--every", "1099511627776"],
        Some(1_099_511_627_776),
        32_768,
        2_048,
    ),
    (&["run", "j", "--mode", "inline"], None, 32_768, 2_048),
    (
        &["run", "j", "--mode", "inline", "--every", "20"],
        Some(20),
        32_768,
        2_048,
    ),
    (
        &[
            "run",
            "j",
            "--pool",
            "4",
            "--every",
            "5",
            "--links",
            "memory",
            "--mode",
            "inline",
            "--segment",
            "64",
        ],
        Some(5),
        64,
        4,
    ),
];

#[test]
fn a_run_is_read_with_its_options(rt: HostRuntime) -> Result<(), Fail> {
    let alloc = rt.alloc();
    for (line, every, segment, pool) in RUNS {
        let Command::Run { job, options } = read_words(alloc, &words_of(alloc, line)?)? else {
            return Err(Fail::from("the words of a run are another command"));
        };
        assert_eq!(rt; job.text(), "j");
        assert_eq!(rt;
            options,
            RunOptions {
                every: *every,
                segment: *segment,
                pool: *pool
            }
        );
    }
    Ok(())
}

#[test]
fn an_operand_may_be_any_text_without_a_dash(rt: HostRuntime) -> Result<(), Fail> {
    let alloc = rt.alloc();
    let words = words_of(alloc, &["run", "./j j"])?;
    let Command::Run { job, .. } = read_words(alloc, &words)? else {
        return Err(Fail::from("the words of a run are another command"));
    };
    assert_eq!(rt; job.text(), "./j j");
    let words = words_of(alloc, &["script", "run"])?;
    let Command::Script { file } = read_words(alloc, &words)? else {
        return Err(Fail::from("the words of a script are another command"));
    };
    assert_eq!(rt; file.text(), "run");
    Ok(())
}

// The words of lines and a seed, and what they say.
const LINES: &[(&str, &str, (u64, u64))] = &[
    ("0", "9", (0, 9)),
    ("2000000", "0", (2_000_000, 0)),
    ("10", "18446744073709551615", (10, u64::MAX)),
];

// The lines and the seed of `gen`.
fn lines_to_make(alloc: Global, lines: &str, seed: &str) -> Result<(u64, u64), Fail> {
    let words = words_of(alloc, &["gen", lines, seed])?;
    match read_words(alloc, &words)? {
        Command::Gen { lines, seed } => Ok((lines, seed)),
        _ => Err(Fail::from("the words of lines are another command")),
    }
}

// The lines and the seed of `selfrun`.
fn lines_to_run(alloc: Global, lines: &str, seed: &str) -> Result<(u64, u64), Fail> {
    let words = words_of(alloc, &["selfrun", lines, seed])?;
    match read_words(alloc, &words)? {
        Command::SelfRun { lines, seed } => Ok((lines, seed)),
        _ => Err(Fail::from("the words of a run of lines are another command")),
    }
}

#[test]
fn lines_and_a_seed_are_read(rt: HostRuntime) -> Result<(), Fail> {
    let alloc = rt.alloc();
    for (lines, seed, wanted) in LINES {
        assert_eq!(rt; lines_to_make(alloc, lines, seed)?, *wanted);
        assert_eq!(rt; lines_to_run(alloc, lines, seed)?, *wanted);
    }
    Ok(())
}

#[test]
fn inspect_has_no_operand(rt: HostRuntime) -> Result<(), Fail> {
    let alloc = rt.alloc();
    let Command::Inspect = read_words(alloc, &words_of(alloc, &["inspect"])?)? else {
        return Err(Fail::from("the word `inspect` is another command"));
    };
    Ok(())
}

// The text, with a piece of it repeated behind its front.
fn text_of(
    alloc: Global,
    front: &str,
    piece: &str,
    times: usize,
    back: &str,
) -> Result<Bytes, AllocError> {
    let mut text = Bytes::of(alloc, front.as_bytes())?;
    for _ in 0..times {
        text.extend(piece.as_bytes())?;
    }
    text.extend(back.as_bytes())?;
    Ok(text)
}

const END: &str = "\naggregate count 1\n";

// Texts, each as its front, a piece that is repeated so often, and its back; and what is told of it.
const TEXTS: &[(&str, &str, usize, &str, &str)] = &[
    ("source in", "", 0, END, ""),
    ("source in\naggregate count 8", "", 0, "", ""),
    // The text ends before the aggregate's line, or goes on behind it.
    ("", "", 0, "", "job line 1: missing"),
    ("source in", "", 0, "", "job line 2: missing"),
    (
        "source in\nstage words 1 hash\n",
        "",
        0,
        "",
        "job line 3: missing",
    ),
    (
        "source in",
        "",
        0,
        "\naggregate count 1\n\n",
        "job line 3: extra",
    ),
    (
        "source in\naggregate count 1\nsource in",
        "",
        0,
        END,
        "job line 3: extra",
    ),
    // Lines that may not stand where they do, or have too many or too few words.
    ("aggregate count 1\n", "", 0, "", "job line 1: bad line"),
    ("stage words 1 hash", "", 0, END, "job line 1: bad line"),
    ("\nsource in", "", 0, END, "job line 1: bad line"),
    ("sink in", "", 0, END, "job line 1: bad line"),
    ("source", "", 0, END, "job line 1: bad line"),
    ("source ", "", 0, END, "job line 1: bad line"),
    (" source in", "", 0, END, "job line 1: bad line"),
    ("source in ", "", 0, END, "job line 1: bad line"),
    ("source i n", "", 0, END, "job line 1: bad line"),
    ("source\tin", "", 0, END, "job line 1: bad line"),
    ("source in\r", "", 0, END, "job line 1: bad line"),
    ("source été", "", 0, END, "job line 1: bad line"),
    (
        "source in\nstage words 1 hash\nsource on",
        "",
        0,
        END,
        "job line 3: bad line",
    ),
    (
        "source in\nstage words  1 hash",
        "",
        0,
        END,
        "job line 2: bad line",
    ),
    (
        "source in\nstage words 1 hash ",
        "",
        0,
        END,
        "job line 2: bad line",
    ),
    (
        "source in\nstage words 1",
        "",
        0,
        END,
        "job line 2: bad line",
    ),
    (
        "source in\naggregate count\n",
        "",
        0,
        "",
        "job line 2: bad line",
    ),
    (
        "source in\naggregate count 1 hash\n",
        "",
        0,
        "",
        "job line 2: bad line",
    ),
    ("source ", "n", 255, END, ""),
    ("source ", "n", 256, END, "job line 1: bad line"),
    // As many sources and stages as a job may have, and one more.
    ("source in", "\nsource on", 7, END, ""),
    ("source in", "\nsource on", 8, END, "job line 9: too many"),
    (
        "source in",
        "\nsource on",
        8,
        "\nsource i n",
        "job line 9: too many",
    ),
    (
        "source in",
        "\nsource on",
        7,
        "\nsource i n",
        "job line 9: bad line",
    ),
    ("source in", "\nstage words 1 hash", 6, END, ""),
    (
        "source in",
        "\nstage words 1 hash",
        7,
        END,
        "job line 8: too many",
    ),
    (
        "source in",
        "\nstage words 1 hash",
        6,
        "\nstage lower 0 none",
        "job line 8: too many",
    ),
    // Kinds and their arguments.
    (
        "source in\nstage lower 2 rebalance",
        "",
        0,
        END,
        "job line 2: unknown kind",
    ),
    (
        "source in\nstage  2 rebalance",
        "",
        0,
        END,
        "job line 2: unknown kind",
    ),
    (
        "source in\nstage words: 2 rebalance",
        "",
        0,
        END,
        "job line 2: unknown kind",
    ),
    (
        "source in\nstage Words 2 rebalance",
        "",
        0,
        END,
        "job line 2: unknown kind",
    ),
    (
        "source in\nstage keep 2 rebalance",
        "",
        0,
        END,
        "job line 2: unknown kind",
    ),
    (
        "source in\nstage keep: 2 rebalance",
        "",
        0,
        END,
        "job line 2: unknown kind",
    ),
    (
        "source in\nstage keep:",
        "k",
        255,
        " 2 rebalance\naggregate count 2\n",
        "",
    ),
    (
        "source in\nstage keep:",
        "k",
        256,
        " 2 rebalance",
        "job line 2: unknown kind",
    ),
    ("source in\nstage keep:words 1 hash", "", 0, END, ""),
    (
        "source in\nstage field: 1 hash",
        "",
        0,
        END,
        "job line 2: unknown kind",
    ),
    (
        "source in\nstage field:0 1 hash",
        "",
        0,
        END,
        "job line 2: unknown kind",
    ),
    (
        "source in\nstage field:01 1 hash",
        "",
        0,
        END,
        "job line 2: unknown kind",
    ),
    (
        "source in\nstage field:+1 1 hash",
        "",
        0,
        END,
        "job line 2: unknown kind",
    ),
    ("source in\nstage field:1 1 hash", "", 0, END, ""),
    (
        "source in\naggregate sum 1",
        "",
        0,
        "",
        "job line 2: no function",
    ),
    (
        "source in\naggregate max 1",
        "",
        0,
        "",
        "job line 2: no function",
    ),
    (
        "source in\naggregate Max 1",
        "",
        0,
        "",
        "job line 2: unknown kind",
    ),
    ("source in\nstage field:9999 1 hash", "", 0, END, ""),
    (
        "source in\nstage field:10000 1 hash",
        "",
        0,
        END,
        "job line 2: unknown kind",
    ),
    (
        "source in\nstage field:",
        "9",
        40,
        " 1 hash",
        "job line 2: unknown kind",
    ),
    (
        "source in\naggregate least 1\n",
        "",
        0,
        "",
        "job line 2: unknown kind",
    ),
    (
        "source in\naggregate most 0\n",
        "",
        0,
        "",
        "job line 2: unknown kind",
    ),
    (
        "source in\nstage upper 2 rebalance",
        "",
        0,
        END,
        "job line 2: no function",
    ),
    (
        "source in\nstage upper 0 none",
        "",
        0,
        END,
        "job line 2: no function",
    ),
    // Numbers of tasks.
    (
        "source in\nstage words 0 none",
        "",
        0,
        END,
        "job line 2: bad number",
    ),
    ("source in\nstage words 1 hash", "", 0, END, ""),
    ("source in\nstage words 8 hash", "", 0, END, ""),
    (
        "source in\nstage words 9 hash",
        "",
        0,
        END,
        "job line 2: bad number",
    ),
    (
        "source in\nstage words 01 hash",
        "",
        0,
        END,
        "job line 2: bad number",
    ),
    (
        "source in\nstage words +1 hash",
        "",
        0,
        END,
        "job line 2: bad number",
    ),
    (
        "source in\nstage words ",
        "1",
        40,
        " hash",
        "job line 2: bad number",
    ),
    (
        "source in\naggregate count 0\n",
        "",
        0,
        "",
        "job line 2: bad number",
    ),
    (
        "source in\naggregate count 9\n",
        "",
        0,
        "",
        "job line 2: bad number",
    ),
    (
        "source in\naggregate count \n",
        "",
        0,
        "",
        "job line 2: bad number",
    ),
    // Exchanges and widths.
    (
        "source in\nstage words 2 none",
        "",
        0,
        END,
        "job line 2: bad exchange",
    ),
    (
        "source in\nstage words 2 ",
        "",
        0,
        END,
        "job line 2: bad exchange",
    ),
    (
        "source in\nstage words 2 forwards",
        "",
        0,
        END,
        "job line 2: bad exchange",
    ),
    ("source in\nstage words 1 forward", "", 0, END, ""),
    (
        "source in\nstage words 2 forward",
        "",
        0,
        END,
        "job line 2: bad width",
    ),
    (
        "source in\nsource on\nstage words 2 forward",
        "\nstage words 2 forward",
        5,
        END,
        "",
    ),
    (
        "source in\nstage words 2 hash\nstage words 3 forward",
        "",
        0,
        END,
        "job line 3: bad width",
    ),
    (
        "source in\nsource on\nstage words 1 hash\nstage words 2 forward",
        "",
        0,
        END,
        "job line 4: bad width",
    ),
];

// What is told of a text; nothing where it is a job's.
fn told(alloc: Global, text: &[u8], functions: &FnTable) -> Result<String, AllocError> {
    match read_job(alloc, text, functions) {
        Ok(_) => Ok(String::new(alloc)),
        Err(fault) => Ok(format!(in alloc; "{fault}")?),
    }
}

// Reads the text of each row with these functions, and compares what is told of it.
fn compare_texts<R: Abort>(rt: &R, alloc: Global, functions: &FnTable) -> Result<(), Fail> {
    for (front, piece, times, back, fault) in TEXTS {
        let text = text_of(alloc, front, piece, *times, back)?;
        let told = told(alloc, text.as_slice(), functions)?;
        assert_eq!(rt; told.as_str(), *fault);
    }
    Ok(())
}

#[test]
fn the_first_fault_of_a_job_is_told(rt: HostRuntime) -> Result<(), Fail> {
    let alloc = rt.alloc();
    // Every kind has a function, but `upper`.
    let mut functions = FnTable::new(alloc);
    let f: StageFn = Box::new(
        alloc,
        |alloc: Global, arg: &[u8], record: &[u8], list: &mut ListOf<Bytes>| words(
            alloc, arg, record, list,
        ),
    )?;
    functions.add_stage(StageKind::Words, f)?;
    let f: StageFn = Box::new(
        alloc,
        |alloc: Global, arg: &[u8], record: &[u8], list: &mut ListOf<Bytes>| keep(
            alloc, arg, record, list,
        ),
    )?;
    functions.add_stage(StageKind::Keep, f)?;
    let f: StageFn = Box::new(
        alloc,
        |alloc: Global, arg: &[u8], record: &[u8], list: &mut ListOf<Bytes>| -> Result<
            (),
            AllocError,
        >
            requires { IsArgument StageKind.Field arg.now }
        { field(alloc, arg, record, list) },
    )?;
    functions.add_stage(StageKind::Field, f)?;
    let f: AggFn = Box::new(alloc, |record: &[u8], old: u64| count(record, old))?;
    functions.add_agg(AggKind::Count, f)?;
    compare_texts(&rt, alloc, &functions)
}

// A job of two sources and two stages that keep records.
const KEEPING: &[u8] =
    b"source in\nsource on\nstage keep:GET 3 rebalance\nstage keep:/a 3 forward\naggregate count 5";

// The sources are `in` and `on`.
fn has_names<R: Abort>(rt: &R, sources: &[Bytes]) -> Result<(), Fail> {
    let [first, second] = sources else {
        return Err(Fail::from("there are other than two sources"));
    };
    assert_eq!(rt; first.as_slice(), b"in".as_slice());
    assert_eq!(rt; second.as_slice(), b"on".as_slice());
    Ok(())
}

// The stage has three tasks that keep the records which begin so, and this exchange before it.
fn keeps<R: Abort>(rt: &R, stage: &Stage, arg: &[u8], exchange: Exchange) {
    assert_eq!(rt; stage.kind, StageKind::Keep);
    assert_eq!(rt; stage.arg.as_slice(), arg);
    assert_eq!(rt; stage.tasks, 3);
    assert_eq!(rt; stage.exchange, exchange);
}

#[test]
fn a_job_is_read(rt: HostRuntime) -> Result<(), Fail> {
    let alloc = rt.alloc();
    let mut functions = FnTable::new(alloc);
    let f: StageFn = Box::new(
        alloc,
        |alloc: Global, arg: &[u8], record: &[u8], list: &mut ListOf<Bytes>| keep(
            alloc, arg, record, list,
        ),
    )?;
    functions.add_stage(StageKind::Keep, f)?;
    let f: AggFn = Box::new(alloc, |record: &[u8], old: u64| count(record, old))?;
    functions.add_agg(AggKind::Count, f)?;
    let job = read_job(alloc, KEEPING, &functions)?;
    has_names(&rt, job.sources.as_slice())?;
    let [first, second] = job.stages.as_slice() else {
        return Err(Fail::from("there are other than two stages"));
    };
    keeps(&rt, first, b"GET", Exchange::Rebalance);
    keeps(&rt, second, b"/a", Exchange::Forward);
    assert_eq!(rt; job.agg, AggKind::Count);
    assert_eq!(rt; job.agg_tasks, 5);
    assert_eq!(rt; job.text.as_slice(), KEEPING);
    Ok(())
}

#[test]
fn a_grammar_needs_no_function(rt: HostRuntime) -> Result<(), Fail> {
    let alloc = rt.alloc();
    let text = b"source in\nstage upper 2 hash\naggregate count 1\n".as_slice();
    let job = read_grammar(alloc, text)?;
    let [stage] = job.stages.as_slice() else {
        return Err(Fail::from("there is other than one stage"));
    };
    assert_eq!(rt; stage.kind, StageKind::Upper);
    assert_eq!(rt; stage.tasks, 2);
    assert_eq!(rt; job.text.as_slice(), text);
    match read_grammar(alloc, b"source in\naggregate count 9\n") {
        Err(fault) => assert_eq!(rt;
            fault,
            JobReadFault::Line {
                line: 2,
                kind: JobFault::BadNumber
            }
        ),
        Ok(_) => Err("a stage has no nine tasks")?,
    }
    Ok(())
}
