// Spells images.
ghost use Rattle.std.specs.Prelude.{◌≡◌, ◌≤◌, ◌<◌, ◌^◌, ◌↔◌, ◌++◌, ◌∷◌, ℕ, List, Err, IfOk, IfErr, OnOk, IsTrue, All, length, flat_map};
ghost use Rattle.std.specs.List.{zip, list_all};
ghost use Rattle.std.specs.Int.{w32, w64, to_be_bytes};
ghost use Rattle.std.specs.FinMap.{entries};
ghost use Rattle.flow_defs.specs.Items.{Items};
ghost use Rattle.flow_defs.specs.Tables.{Values};
ghost use Rattle.flow_defs.specs.Rows.{row_pair};
ghost use Rattle.flow_defs.specs.declared.table.Row.{Row};
ghost use Rattle.flow_defs.specs.declared.image.TakeRun.{TakeRun};
ghost use Rattle.plain_machine.specs.Spelling.{flag_part, sized, counted, source_part, row_part, run_part, channel_part, spelling, CanSpell};
ghost use Rattle.channel_state.specs.Contents.{FitsItsText, HasRange, HaveCounts, is_count, has_counts};
ghost use Rattle.channel_state.specs.ImageFaults.{IsReadable};

use crate::WriteFault;
use flow_defs::{Bytes, Image, ListOf, Row, Table, TakeRun};
use std::alloc::{AllocError, Global};

// The largest number that four bytes spell.
const COUNT_MAX: usize = 4_294_967_295;

/// Spells an image. The cost is in proportion to the bytes.
pub fn write_image(alloc: Global, image: &Image) -> Result<Bytes, WriteFault>
    requires number { 1 ≤ image.now.number }
    requires fits { FitsItsText image.now }
    ensures ok { IfOk result (λ bytes. bytes.items ≡ spelling image.now) }
    ensures can { OnOk result (CanSpell image.now) }
    ensures readable { OnOk result (IsReadable image.now) }
    ensures too_big { (result ≡ Err WriteFault.TooBig) ↔ (CanSpell image.now → ⊥) }
{
    let can = can_spell(image);
    if !can {
        return Err(WriteFault::TooBig);
    }
    match spell(alloc, image) {
        Ok(bytes) => Ok(bytes),
        Err(_) => Err(WriteFault::Memory),
    }
}

// Whether all lengths of an image go into their four bytes.
fn can_spell(image: &Image) -> bool
    ensures { result ≡ has_counts image.now }
{
    let keys = tables_fit(image.tables.as_slice());
    let runs = runs_fit(image.takes.as_slice());
    let pieces_in = pieces_fit(image.saved_in.as_slice());
    let pieces_out = pieces_fit(image.saved_out.as_slice());
    keys && runs && pieces_in && pieces_out
}

fn is_count(len: usize) -> bool
    ensures { result ≡ is_count len }
{
    len <= COUNT_MAX
}

fn has_few_rows(table: &Table) -> bool
    ensures { result ≡ is_count (length (entries table.now)) }
{
    is_count(table.rows().len())
}

fn tables_fit(tables: &[Table]) -> bool
    ensures { result ≡ list_all (λ (table : Values). is_count (length (entries table))) tables.now }
{
    tables.iter().all(|table| has_few_rows(table))
}

fn runs_fit(takes: &[ListOf<TakeRun>]) -> bool
    ensures { result ≡ list_all (λ (runs : Items TakeRun). is_count (length runs.items)) takes.now }
{
    takes.iter().all(|runs| is_count(runs.as_slice().len()))
}

fn pieces_fit(pieces: &[Bytes]) -> bool
    ensures { result ≡ list_all (λ (piece : Items ℕ). is_count (length piece.items)) pieces.now }
{
    pieces.iter().all(|piece| is_count(piece.as_slice().len()))
}

#[tactic(auto, unfolding(plain_machine::specs::Spelling::spelling))]
fn spell(alloc: Global, image: &Image) -> Result<Bytes, AllocError>
    requires fits { FitsItsText image.now }
    requires can { CanSpell image.now }
    ensures ok { IfOk result (λ bytes. bytes.items ≡ spelling image.now) }
    ensures range { OnOk result (HasRange image.now) }
{
    let mut out = Bytes::new(alloc);
    out.extend(b"FLWI")?;
    out.push(1)?;
    out.extend(&image.number.to_be_bytes())?;
    put_flag(&mut out, image.final_one)?;
    put_sized(&mut out, image.text.as_slice())?;
    put_sources(&mut out, image.offsets.as_slice(), image.ended.as_slice())?;
    put_counts(&mut out, image.emitted.as_slice())?;
    put_tables(&mut out, image.tables.as_slice())?;
    put_takes(&mut out, image.takes.as_slice())?;
    put_pieces(
        &mut out,
        image.saved_in.as_slice(),
        image.saved_out.as_slice(),
    )?;
    out.extend(b"IWLF")?;
    Ok(out)
}

fn put_flag(out: &mut Bytes, flag: bool) -> Result<(), AllocError>
    ensures { OnOk result (out.new.items ≡ out.old.items ++ flag_part flag) }
{
    out.push(if flag { 1 } else { 0 })
}

fn put_sized(out: &mut Bytes, bytes: &[u8]) -> Result<(), AllocError>
    requires { length bytes.now < 2 ^ 32 }
    ensures { OnOk result (out.new.items ≡ out.old.items ++ sized bytes.now) }
{
    out.extend(&(bytes.len() as u32).to_be_bytes())?;
    out.extend(bytes)
}

fn put_source(out: &mut Bytes, offset: u64, ended: bool) -> Result<(), AllocError>
    ensures { OnOk result (out.new.items ≡ out.old.items ++ source_part (offset, ended)) }
{
    out.extend(&offset.to_be_bytes())?;
    put_flag(out, ended)
}

fn put_sources(out: &mut Bytes, offsets: &[u64], ended: &[bool]) -> Result<(), AllocError>
    requires { length offsets.now ≡ length ended.now }
    ensures { OnOk result (out.new.items ≡ out.old.items ++ flat_map source_part (zip offsets.now ended.now)) }
{
    'sources: for i in 0..offsets.len() {
        put_source(out, offsets[i], ended[i])?;
    }
    Ok(())
}

fn put_counts(out: &mut Bytes, counts: &[u64]) -> Result<(), AllocError>
    ensures { OnOk result (out.new.items ≡ out.old.items ++ flat_map (to_be_bytes w64) counts.now) }
{
    for count in counts {
        out.extend(&count.to_be_bytes())?;
    }
    Ok(())
}

fn put_row(out: &mut Bytes, key: &[u8], value: u64) -> Result<(), AllocError>
    requires { length key.now < 2 ^ 32 }
    ensures { OnOk result (out.new.items ≡ out.old.items ++ row_part (key.now, value)) }
{
    put_sized(out, key)?;
    out.extend(&value.to_be_bytes())
}

fn put_table(out: &mut Bytes, table: &Table) -> Result<(), AllocError>
    requires rows { length (entries table.now) < 2 ^ 32 }
    requires keys { All (λ (row : List ℕ × ℕ). length row.0 < 2 ^ 32) (entries table.now) }
    ensures { OnOk result (out.new.items ≡ out.old.items ++ counted row_part (entries table.now)) }
{
    let rows = table.rows();
    out.extend(&(rows.len() as u32).to_be_bytes())?;
    put_rows(out, rows)?;
    Ok(())
}

fn put_rows(out: &mut Bytes, rows: &[Row]) -> Result<(), AllocError>
    requires { All (λ (row : Row). length row.key.items < 2 ^ 32) rows.now }
    ensures { OnOk result (out.new.items ≡ out.old.items ++ flat_map (λ (row : Row). row_part (row_pair row)) rows.now) }
{
    for row in rows {
        put_row(out, row.key.as_slice(), row.value)?;
    }
    Ok(())
}

fn put_tables(out: &mut Bytes, tables: &[Table]) -> Result<(), AllocError>
    requires rows { All (λ (table : Values). length (entries table) < 2 ^ 32) tables.now }
    requires keys { All (λ (table : Values). All (λ (row : List ℕ × ℕ). length row.0 < 2 ^ 32) (entries table)) tables.now }
    ensures { OnOk result (out.new.items ≡ out.old.items ++ flat_map (λ (table : Values). counted row_part (entries table)) tables.now) }
{
    for table in tables {
        put_table(out, table)?;
    }
    Ok(())
}

fn put_run(out: &mut Bytes, run: TakeRun) -> Result<(), AllocError>
    ensures out { OnOk result (out.new.items ≡ out.old.items ++ run_part run) }
    ensures range { run.count < 2 ^ 64 }
{
    out.extend(&run.from.to_be_bytes())?;
    out.extend(&run.count.to_be_bytes())?;
    Ok(())
}

fn put_runs(out: &mut Bytes, runs: &[TakeRun]) -> Result<(), AllocError>
    requires { length runs.now < 2 ^ 32 }
    ensures out { OnOk result (out.new.items ≡ out.old.items ++ counted run_part runs.now) }
    ensures range { OnOk result (HaveCounts runs.now) }
{
    out.extend(&(runs.len() as u32).to_be_bytes())?;
    put_all_runs(out, runs)?;
    Ok(())
}

fn put_all_runs(out: &mut Bytes, runs: &[TakeRun]) -> Result<(), AllocError>
    ensures out { OnOk result (out.new.items ≡ out.old.items ++ flat_map run_part runs.now) }
    ensures range { OnOk result (HaveCounts runs.now) }
{
    for run in runs {
        put_run(out, *run)?;
    }
    Ok(())
}

fn put_takes(out: &mut Bytes, takes: &[ListOf<TakeRun>]) -> Result<(), AllocError>
    requires { All (λ (runs : Items TakeRun). length runs.items < 2 ^ 32) takes.now }
    ensures out { OnOk result (out.new.items ≡ out.old.items ++ flat_map (λ (runs : Items TakeRun). counted run_part runs.items) takes.now) }
    ensures range { OnOk result (All (λ (runs : Items TakeRun). HaveCounts runs.items) takes.now) }
{
    for runs in takes {
        put_runs(out, runs.as_slice())?;
    }
    Ok(())
}

fn put_channel(out: &mut Bytes, saved_in: &Bytes, saved_out: &Bytes) -> Result<(), AllocError>
    requires first { length saved_in.now.items < 2 ^ 32 }
    requires second { length saved_out.now.items < 2 ^ 32 }
    ensures { OnOk result (out.new.items ≡ out.old.items ++ channel_part (saved_in.now, saved_out.now)) }
{
    put_sized(out, saved_in.as_slice())?;
    put_sized(out, saved_out.as_slice())
}

fn put_pieces(out: &mut Bytes, saved_in: &[Bytes], saved_out: &[Bytes]) -> Result<(), AllocError>
    requires same { length saved_in.now ≡ length saved_out.now }
    requires first { All (λ (piece : Items ℕ). length piece.items < 2 ^ 32) saved_in.now }
    requires second { All (λ (piece : Items ℕ). length piece.items < 2 ^ 32) saved_out.now }
    ensures { OnOk result (out.new.items ≡ out.old.items ++ flat_map channel_part (zip saved_in.now saved_out.now)) }
{
    'pieces: for i in 0..saved_in.len() {
        put_channel(out, &saved_in[i], &saved_out[i])?;
    }
    Ok(())
}
