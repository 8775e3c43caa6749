// What main and the crates above do with a table, and what each function gives.
ghost use Rattle.std.specs.Prelude.{◌≡◌, ◌≤◌, IfOk, length, take, string_bytes};
ghost use Rattle.flow_defs.specs.Aggregates.{key_of, value_of, folded};
ghost use Rattle.flow_defs.specs.Records.{IsShort};
ghost use Rattle.flow_defs.specs.Stages.{IsArgument, given};
ghost use Rattle.stage_fns.specs.Functions.{HasStage, HasAgg};
ghost use Rattle.stage_fns.specs.Kinds.{kinds};
ghost use Rattle.stage_fns.specs.Meets.{records};

use flow_defs::{AggKind, Bytes, ListOf, StageKind};
use stage_fns::{AddFault, AggFn, FnTable, StageFn, count, field, keep, max, sum, upper, words};
use std::alloc::{AllocError, Global};
use std::process::Abort;
use std::test::Fail;

// What the function of this kind gives. All that is known of it is what the table tells.
fn given_by(
    functions: &FnTable,
    alloc: Global,
    kind: StageKind,
    arg: &[u8],
    record: &[u8],
) -> Result<ListOf<Bytes>, AllocError>
    requires function { HasStage (kinds functions.now) kind }
    requires argument { IsArgument kind arg.now }
    requires short { IsShort «record».now }
    ensures { IfOk result (λ list. records list ≡ given kind arg.now «record».now) }
{
    let Some(f) = functions.stage(kind) else {
        unreachable!()
    };
    let mut list = ListOf::new(alloc);
    f(alloc, arg, record, &mut list)?;
    Ok(list)
}

// What the function of this kind answers.
fn answer_of(functions: &FnTable, kind: AggKind, record: &[u8], old: u64) -> (usize, u64)
    requires function { HasAgg (kinds functions.now) kind }
    requires short { IsShort «record».now }
    ensures within { result.0 ≤ length «record».now }
    ensures key { take result.0 «record».now ≡ key_of kind «record».now }
    ensures value { result.1 ≡ folded kind old (value_of kind «record».now) }
{
    let Some(f) = functions.agg(kind) else {
        unreachable!()
    };
    f(record, old)
}

// The argument of `field` that counts so far.
fn place_text(alloc: Global, place: u64) -> Result<String, AllocError>
    requires low { 1 ≤ place }
    requires high { place ≤ 9999 }
    ensures { IfOk result (λ text. IsArgument StageKind.Field (string_bytes text)) }
{
    Ok(format!(in alloc; "{place}")?)
}

// The records, each with a bar behind it.
fn with_bars(alloc: Global, list: &ListOf<Bytes>) -> Result<Bytes, AllocError> {
    let mut text = Bytes::new(alloc);
    for record in list.as_slice() {
        text.extend(record.as_slice())?;
        text.push(b'|')?;
    }
    Ok(text)
}

// The list has these records, each with a bar behind it.
fn compare_records<R: Abort>(
    rt: &R,
    alloc: Global,
    list: ListOf<Bytes>,
    text: &[u8],
) -> Result<(), AllocError> {
    let have = with_bars(alloc, &list)?;
    assert_eq!(rt; have.as_slice(), text);
    Ok(())
}

// A kind, its argument, a record, and the records that it gives, each with a bar behind it.
const GIVEN: &[(StageKind, &str, &str, &str)] = &[
    (StageKind::Words, "", "", ""),
    (StageKind::Words, "", " ", ""),
    (StageKind::Words, "", "to be", "to|be|"),
    (StageKind::Words, "", "  to  be\tor ", "to|be\tor|"),
    (StageKind::Upper, "", "", "|"),
    (StageKind::Upper, "", "Az`{@[é", "AZ`{@[é|"),
    (StageKind::Keep, "to", "to be", "to be|"),
    (StageKind::Keep, "to", "to", "to|"),
    (StageKind::Keep, "to be", "to", ""),
    (StageKind::Keep, "be", "to be", ""),
];

// What `words`, `upper` or `keep` gives.
fn plainly_given(
    alloc: Global,
    kind: StageKind,
    arg: &[u8],
    record: &[u8],
) -> Result<ListOf<Bytes>, AllocError> {
    let mut list = ListOf::new(alloc);
    match kind {
        StageKind::Words => words(alloc, arg, record, &mut list)?,
        StageKind::Upper => upper(alloc, arg, record, &mut list)?,
        _ => keep(alloc, arg, record, &mut list)?,
    }
    Ok(list)
}

#[test]
fn words_upper_and_keep_give_these_records(rt: HostRuntime) -> Result<(), Fail> {
    let alloc = rt.alloc();
    for (kind, arg, record, text) in GIVEN {
        let list = plainly_given(alloc, *kind, arg.as_bytes(), record.as_bytes())?;
        compare_records(&rt, alloc, list, text.as_bytes())?;
    }
    Ok(())
}

// A place, a record, and the field there with a bar behind it, if there is one.
const FIELDS: &[(u64, &str, &str)] = &[
    (2, "a,b,c", "b|"),
    (2, "a", ""),
    (2, "a,", "|"),
    (1, "", "|"),
    (9999, "a,b,c", ""),
];

#[test]
fn field_counts_from_one(rt: HostRuntime) -> Result<(), Fail> {
    let alloc = rt.alloc();
    for (place, record, text) in FIELDS {
        let place = *place;
        assert!(rt; 1 <= place && place <= 9999);
        let arg = place_text(alloc, place)?;
        let mut list = ListOf::new(alloc);
        field(alloc, arg.as_bytes(), record.as_bytes(), &mut list)?;
        compare_records(&rt, alloc, list, text.as_bytes())?;
    }
    Ok(())
}

#[test]
fn a_table_has_all_functions(rt: HostRuntime) -> Result<(), Fail> {
    let alloc = rt.alloc();
    let mut functions = FnTable::new(alloc);
    let f: StageFn = Box::new(
        alloc,
        |alloc: Global, arg: &[u8], record: &[u8], list: &mut ListOf<Bytes>| words(
            alloc, arg, record, list,
        ),
    )?;
    functions.add_stage(StageKind::Words, f)?;
    let f: StageFn = Box::new(
        alloc,
        |alloc: Global, arg: &[u8], record: &[u8], list: &mut ListOf<Bytes>| upper(
            alloc, arg, record, list,
        ),
    )?;
    functions.add_stage(StageKind::Upper, f)?;
    let f: StageFn = Box::new(
        alloc,
        |alloc: Global, arg: &[u8], record: &[u8], list: &mut ListOf<Bytes>| keep(
            alloc, arg, record, list,
        ),
    )?;
    functions.add_stage(StageKind::Keep, f)?;
    let f: StageFn = Box::new(
        alloc,
        |alloc: Global, arg: &[u8], record: &[u8], list: &mut ListOf<Bytes>| -> Result<
            (),
            AllocError,
        >
            requires { IsArgument StageKind.Field arg.now }
        { field(alloc, arg, record, list) },
    )?;
    functions.add_stage(StageKind::Field, f)?;
    let f: AggFn = Box::new(alloc, |record: &[u8], old: u64| count(record, old))?;
    functions.add_agg(AggKind::Count, f)?;
    let record = b"to,be or";
    let pieces = given_by(&functions, alloc, StageKind::Words, b"", record)?;
    compare_records(&rt, alloc, pieces, b"to,be|or|")?;
    let raised = given_by(&functions, alloc, StageKind::Upper, b"", record)?;
    compare_records(&rt, alloc, raised, b"TO,BE OR|")?;
    let kept = given_by(&functions, alloc, StageKind::Keep, b"to", record)?;
    compare_records(&rt, alloc, kept, b"to,be or|")?;
    let place = place_text(alloc, 2)?;
    let piece = given_by(
        &functions,
        alloc,
        StageKind::Field,
        place.as_bytes(),
        record,
    )?;
    compare_records(&rt, alloc, piece, b"be or|")?;
    let answer = answer_of(&functions, AggKind::Count, record, 41);
    assert_eq!(rt; answer, (8, 42));
    Ok(())
}

#[test]
fn a_kind_takes_one_function(rt: HostRuntime) -> Result<(), Fail> {
    let alloc = rt.alloc();
    let mut functions = FnTable::new(alloc);
    let f: StageFn = Box::new(
        alloc,
        |alloc: Global, arg: &[u8], record: &[u8], list: &mut ListOf<Bytes>| words(
            alloc, arg, record, list,
        ),
    )?;
    functions.add_stage(StageKind::Words, f)?;
    let f: StageFn = Box::new(
        alloc,
        |alloc: Global, arg: &[u8], record: &[u8], list: &mut ListOf<Bytes>| words(
            alloc, arg, record, list,
        ),
    )?;
    let Err(AddFault::KindTaken { f }) = functions.add_stage(StageKind::Words, f) else {
        return Err(Fail::from("the second function was taken"));
    };
    let mut list = ListOf::new(alloc);
    f(alloc, b"", b"to be", &mut list)?;
    compare_records(&rt, alloc, list, b"to|be|")?;
    assert!(rt; functions.stage(StageKind::Upper).is_none());
    assert!(rt; functions.agg(AggKind::Count).is_none());
    Ok(())
}

#[test]
fn a_table_has_all_aggregates(rt: HostRuntime) -> Result<(), Fail> {
    let alloc = rt.alloc();
    let mut functions = FnTable::new(alloc);
    let f: AggFn = Box::new(alloc, |record: &[u8], old: u64| sum(record, old))?;
    functions.add_agg(AggKind::Sum, f)?;
    let f: AggFn = Box::new(alloc, |record: &[u8], old: u64| max(record, old))?;
    functions.add_agg(AggKind::Max, f)?;
    assert_eq!(rt;
        answer_of(&functions, AggKind::Sum, b"k=2", u64::MAX),
        (1, 1)
    );
    assert_eq!(rt; answer_of(&functions, AggKind::Max, b"k=7", 41), (1, 41));
    Ok(())
}
