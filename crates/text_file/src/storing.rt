ghost use Rattle.std.specs.Prelude.{◌≡◌, ◌^◌, ◌<◌, ◌≤◌, ◌++◌, ◌↔◌, ◌⊎◌, length};
ghost use Rattle.std.specs.Prelude.{IfOk, IfErr, OnOk, OnErr, IsErrOf};
ghost use Rattle.std.specs.Int.{w32};
ghost use Rattle.std.specs.List.{flat_map, AllByRecursion};
ghost use Rattle.looks.specs.Looks.{IsLooks};
ghost use Rattle.looks.specs.Refusal.{RefusedForMemoryAlone};
ghost use Rattle.char_files.specs.Stretch.{items_of};
ghost use Rattle.byte_fields.specs.Fields.{number_spelling};
ghost use Rattle.text_file.specs.Files.{run_spelling, formatted, HasFormattedFile, IsFileOf};

use crate::MAX_STORED;
use crate::filling::push_char;
use byte_fields::put_u32;
use char_files::{Buffer, LooksRun, Source};
use looks::Refusal;
use operations::write_looks;
use std::alloc::{AllocError, Global};

// The characters of a source, asked one by one. Refused `OutOfMemory` alone.
fn copy_of<S: Source>(alloc: Global, source: &S) -> Result<Buffer, Refusal>
    requires { length (S.items source.now) ≤ MAX_STORED }
    ensures ok { IfOk result (λ text. text ≡ S.items source.now) }
    ensures text { IfOk result (λ text. HasFormattedFile text) }
    ensures errors { RefusedForMemoryAlone result }
{
    let mut text = Buffer::new(alloc);
    for pos in 0..source.len() {
        let (byte, looks) = source.at(pos);
        looks.lemma_are_in_range();
        push_char(&mut text, byte, looks)?;
    }
    Ok(text)
}

fn put_run(out: &mut Vec<u8>, run: &LooksRun) -> Result<(), Refusal>
    requires { length run.now.bytes ≤ MAX_STORED }
    ensures ok { OnOk result (out.new.items ≡ out.old.items ++ run_spelling run.now) }
    ensures errors { RefusedForMemoryAlone result }
{
    write_looks(run.looks(), out)?;
    put_u32(out, run.bytes().len() as u32)?;
    Ok(())
}

fn put_runs(out: &mut Vec<u8>, runs: &[LooksRun]) -> Result<(), Refusal>
    requires { length (items_of runs.now) ≤ MAX_STORED }
    ensures ok { OnOk result (out.new.items ≡ out.old.items ++ flat_map run_spelling runs.now) }
    ensures errors { RefusedForMemoryAlone result }
{
    for run in runs {
        put_run(out, run)?;
    }
    Ok(())
}

fn put_chars(out: &mut Vec<u8>, runs: &[LooksRun]) -> Result<(), AllocError>
    ensures { OnOk result (out.new.items ≡ out.old.items ++ flat_map (λ r. r.bytes) runs.now) }
{
    for run in runs {
        out.extend_from_slice(run.bytes())?;
    }
    Ok(())
}

// The formatted file of a text. Refused `OutOfMemory` alone.
fn file_of(alloc: Global, text: &Buffer) -> Result<Vec<u8>, Refusal>
    requires { length text.now ≤ MAX_STORED }
    ensures ok { IfOk result (λ file. file.items ≡ formatted text.now) }
    ensures errors { RefusedForMemoryAlone result }
{
    char_files::lemma_runs_are_maximal();
    let runs = text.runs();
    let mut file = Vec::from_slice(alloc, b"OTF1")?;
    put_u32(&mut file, runs.len() as u32)?;
    put_runs(&mut file, runs)?;
    put_u32(&mut file, text.len() as u32)?;
    put_chars(&mut file, runs)?;
    Ok(file)
}

/// Appends the formatted file of the source's characters.
///
/// Refused `BadFile` where they are more than 2^20, else `OutOfMemory` where memory is; the vector's bytes are
/// then as they were.
pub fn store<S: Source>(source: &S, file: &mut Vec<u8>) -> Result<(), Refusal>
    ensures ok { OnOk result (file.new.items ≡ file.old.items ++ formatted (S.items source.now)) }
    // What was stored loads as itself.
    ensures loads { OnOk result (IsFileOf (S.items source.now) (formatted (S.items source.now))) }
    ensures long { IsErrOf result Refusal.BadFile ↔ (MAX_STORED < length (S.items source.now)) }
    ensures errors { IfErr result (λ e. (e ≡ Refusal.BadFile) ⊎ (e ≡ Refusal.OutOfMemory)) }
    ensures err { OnErr result (file.new.items ≡ file.old.items) }
{
    if MAX_STORED < source.len() {
        return Err(Refusal::BadFile);
    }
    let alloc = *file.allocator();
    let text = copy_of(alloc, source)?;
    let bytes = file_of(alloc, &text)?;
    file.extend_from_slice(bytes.as_slice())?;
    Ok(())
}
