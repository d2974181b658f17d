ghost use Rattle.std.specs.Prelude.{◌≡◌, ◌≤◌, ◌↔◌, AllPairs, Contains, insert, length, IfOk, OnOk, IsTrue};
ghost use Rattle.looks.specs.Refusal.{RefusedForMemoryAlone};
ghost use Rattle.char_files.specs.CharName.{CharName};
ghost use Rattle.operations.specs.Operation.{Inserts};
ghost use Rattle.tree_order.specs.Good.{Good};
ghost use Rattle.tree_order.specs.Tree.{IsChar, IsPath};
ghost use Rattle.tree_order.specs.Order.{Before, IsOrder};
ghost use Rattle.tree_order.specs.SortedPaths.{names_of_paths, AreSortedPaths, Gains};

use crate::path_order::{Path, is_before, path_of};
use char_files::Name;
use looks::Refusal;
use operations::{Kind, Op};
use std::alloc::Global;

// How many of the characters stand before the one of this path, which isn't among them.
fn insertion_point(ops: &[Op], paths: &[Path], path: &Path) -> usize
    requires good { Good ops.now }
    requires paths { AreSortedPaths ops.now paths.now }
    requires path { IsPath ops.now path.now.of path.now.names.items }
    requires new { ¬ Contains (names_of_paths paths.now) path.now.of }
    ensures within { result ≤ length paths.now }
    ensures sorted { AllPairs (Before ops.now) (insert (names_of_paths paths.now) result path.now.of) }
{
    for (at, other) in paths.iter().enumerate() {
        if is_before(ops, path, other) {
            return at;
        }
    }
    paths.len()
}

// Whether the character has its path there.
fn has_path(paths: &[Path], name: Name) -> bool
    ensures { IsTrue result ↔ Contains (names_of_paths paths.now) name }
{
    for path in paths {
        if path.of == name {
            return true;
        }
    }
    false
}

// Puts a character's path in where it belongs, unless it is there already.
fn put_char(alloc: Global, ops: &[Op], paths: &mut Vec<Path>, name: Name) -> Result<(), Refusal>
    requires good { Good ops.now }
    requires paths { AreSortedPaths ops.now paths.old.items }
    requires character { IsChar ops.now name }
    ensures paths { OnOk result (AreSortedPaths ops.now paths.new.items) }
    ensures gains { OnOk result
        (Gains (names_of_paths paths.old.items) (names_of_paths paths.new.items) (λ c. c ≡ name)) }
    ensures errors { RefusedForMemoryAlone result }
{
    if has_path(paths, name) {
        return Ok(());
    }
    let path = path_of(alloc, ops, name)?;
    let at = insertion_point(ops, paths, &path);
    paths.insert(at, path)?;
    Ok(())
}

// Puts the paths of the characters that the operation inserts in where they belong.
fn put_chars(alloc: Global, ops: &[Op], paths: &mut Vec<Path>, op: &Op) -> Result<(), Refusal>
    requires good { Good ops.now }
    requires held { Contains ops.now op.now }
    requires paths { AreSortedPaths ops.now paths.old.items }
    ensures paths { OnOk result (AreSortedPaths ops.now paths.new.items) }
    ensures gains { OnOk result
        (Gains (names_of_paths paths.old.items) (names_of_paths paths.new.items) (Inserts op.now)) }
    ensures errors { RefusedForMemoryAlone result }
{
    op.lemma_has_spelling();
    if let Kind::Insert { at, bytes, .. } = op.kind() {
        for off in *at..*at + bytes.len() as u32 {
            let name = Name::new(op.site(), off).unwrap();
            put_char(alloc, ops, paths, name)?;
        }
    }
    Ok(())
}

// The characters of the operations in their order, with their paths.
fn sorted_paths(alloc: Global, ops: &[Op]) -> Result<Vec<Path>, Refusal>
    requires { Good ops.now }
    ensures paths { IfOk result (λ paths. AreSortedPaths ops.now paths.items) }
    ensures each { IfOk result (λ paths.
        (c : CharName) → Contains (names_of_paths paths.items) c ↔ IsChar ops.now c) }
    ensures errors { RefusedForMemoryAlone result }
{
    let mut paths = Vec::new(alloc);
    for op in ops {
        put_chars(alloc, ops, &mut paths, op)?;
    }
    Ok(paths)
}

// The characters without their paths.
fn names_of_paths(alloc: Global, paths: &[Path]) -> Result<Vec<Name>, Refusal>
    ensures ok { IfOk result (λ names. names.items ≡ names_of_paths paths.now) }
    ensures errors { RefusedForMemoryAlone result }
{
    Ok(paths.iter().map(|path| path.of).collect(alloc)?)
}

/// The order of the operations' characters. Refused `OutOfMemory` alone.
///
/// It compares each character's path with those that are sorted so far: n characters take n^3 steps at worst.
pub fn slow_order(alloc: Global, ops: &[Op]) -> Result<Vec<Name>, Refusal>
    requires { Good ops.now }
    ensures ok { IfOk result (λ order. IsOrder ops.now order.items) }
    ensures errors { RefusedForMemoryAlone result }
{
    let paths = sorted_paths(alloc, ops)?;
    names_of_paths(alloc, &paths)
}
