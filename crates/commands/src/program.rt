// The program with the functions that it has of its own.
ghost use Rattle.std.specs.Prelude.{◌≡◌, IfErr, IfOk, OnOk};
ghost use Rattle.flow_defs.specs.Stages.{IsArgument};
ghost use Rattle.stage_fns.specs.Functions.{with_agg, with_stage};
ghost use Rattle.stage_fns.specs.Kinds.{kinds};
ghost use Rattle.stage_fns.specs.Meets.{MeetsAgg, MeetsStage};
ghost use Rattle.commands.specs.Answers.{IsAnswer, IsOwnAnswer, all_functions};

use crate::top::top;
use command_parts::fault::Fault;
use command_parts::output::tell;
use flow_defs::{AggKind, Bytes, ListOf, StageKind, Word};
use outside::{Files, Keeper, Sink};
use stage_fns::{AggFn, FnTable, StageFn, count, field, keep, max, sum, upper, words};
use std::alloc::{AllocError, Global};
use std::sync::Wait;
use std::thread::Threads;

/// Calls `top` with the four functions of stages and the three of aggregates. Where there is no memory for these, it
/// tells so, and does nothing else.
pub fn run_program<R: Threads + Wait + Sync, F: Files, K: Keeper + Send, O: Sink, E: Sink>(
    rt: &R,
    alloc: Global,
    command: &ListOf<Word>,
    files: &mut F,
    keeper: &mut K,
    out: &mut O,
    err: &mut E,
) -> u8
where
    F::Input: Drop,
    ensures { IsOwnAnswer command.now.items
        (record {
          contents = F.contents files.old;
          lent = F.lent files.old;
          input_faults = F.faults files.old;
          images = K.images keeper.old;
          keeper_faults = K.faults keeper.old;
          output = O.got out.old;
          output_faults = O.faults out.old;
          errors = E.got err.old;
          error_faults = E.faults err.old;
        })
        (record {
          contents = F.contents files.new;
          lent = F.lent files.new;
          input_faults = F.faults files.new;
          images = K.images keeper.new;
          keeper_faults = K.faults keeper.new;
          output = O.got out.new;
          output_faults = O.faults out.new;
          errors = E.got err.new;
          error_faults = E.faults err.new;
        }) result }
{
    match with_functions(rt, alloc, command, files, keeper, out, err) {
        Ok(status) => status,
        Err(AllocError) => {
            tell(err, Fault::Memory);
            Fault::Memory.status()
        }
    }
}

// Adds the function of a kind of stages that has none yet.
fn add_stage(functions: &mut FnTable, kind: StageKind, f: StageFn) -> Result<(), AllocError>
    requires { MeetsStage kind (StageFn.pre f) (StageFn.post f) }
    ensures { OnOk result (kinds functions.new ≡ with_stage (kinds functions.old) kind) }
{
    match functions.add_stage(kind, f) {
        Ok(()) => Ok(()),
        Err(_) => Err(AllocError),
    }
}

// Adds the function of a kind of aggregates that has none yet.
fn add_agg(functions: &mut FnTable, kind: AggKind, f: AggFn) -> Result<(), AllocError>
    requires { MeetsAgg kind (AggFn.pre f) (AggFn.post f) }
    ensures { OnOk result (kinds functions.new ≡ with_agg (kinds functions.old) kind) }
{
    match functions.add_agg(kind, f) {
        Ok(()) => Ok(()),
        Err(_) => Err(AllocError),
    }
}

fn with_functions<R: Threads + Wait + Sync, F: Files, K: Keeper + Send, O: Sink, E: Sink>(
    rt: &R,
    alloc: Global,
    command: &ListOf<Word>,
    files: &mut F,
    keeper: &mut K,
    out: &mut O,
    err: &mut E,
) -> Result<u8, AllocError>
where
    F::Input: Drop,
    ensures answer { IfOk result (IsAnswer command.now.items all_functions
        (record {
          contents = F.contents files.old;
          lent = F.lent files.old;
          input_faults = F.faults files.old;
          images = K.images keeper.old;
          keeper_faults = K.faults keeper.old;
          output = O.got out.old;
          output_faults = O.faults out.old;
          errors = E.got err.old;
          error_faults = E.faults err.old;
        })
        (record {
          contents = F.contents files.new;
          lent = F.lent files.new;
          input_faults = F.faults files.new;
          images = K.images keeper.new;
          keeper_faults = K.faults keeper.new;
          output = O.got out.new;
          output_faults = O.faults out.new;
          errors = E.got err.new;
          error_faults = E.faults err.new;
        })) }
    ensures same { IfErr result (λ _. (files.new ≡ files.old) × (keeper.new ≡ keeper.old) × (out.new ≡ out.old) × (err.new ≡ err.old)) }
{
    let mut functions = FnTable::new(alloc);
    let f: StageFn = Box::new(
        alloc,
        |alloc: Global, arg: &[u8], record: &[u8], list: &mut ListOf<Bytes>| {
            words(alloc, arg, record, list)
        },
    )?;
    add_stage(&mut functions, StageKind::Words, f)?;
    let f: StageFn = Box::new(
        alloc,
        |alloc: Global, arg: &[u8], record: &[u8], list: &mut ListOf<Bytes>| {
            upper(alloc, arg, record, list)
        },
    )?;
    add_stage(&mut functions, StageKind::Upper, f)?;
    let f: StageFn = Box::new(
        alloc,
        |alloc: Global, arg: &[u8], record: &[u8], list: &mut ListOf<Bytes>| {
            keep(alloc, arg, record, list)
        },
    )?;
    add_stage(&mut functions, StageKind::Keep, f)?;
    let f: StageFn = Box::new(
        alloc,
        |alloc: Global, arg: &[u8], record: &[u8], list: &mut ListOf<Bytes>| -> Result<
            (),
            AllocError,
        >
            requires { IsArgument StageKind.Field arg.now }
        { field(alloc, arg, record, list) },
    )?;
    add_stage(&mut functions, StageKind::Field, f)?;
    let f: AggFn = Box::new(alloc, |record: &[u8], old: u64| count(record, old))?;
    add_agg(&mut functions, AggKind::Count, f)?;
    let f: AggFn = Box::new(alloc, |record: &[u8], old: u64| sum(record, old))?;
    add_agg(&mut functions, AggKind::Sum, f)?;
    let f: AggFn = Box::new(alloc, |record: &[u8], old: u64| max(record, old))?;
    add_agg(&mut functions, AggKind::Max, f)?;
    Ok(top(rt, alloc, command, &functions, files, keeper, out, err))
}
