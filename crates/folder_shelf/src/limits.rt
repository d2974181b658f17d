ghost use Rattle.std.specs.Prelude.{◌≡◌, ◌^◌};
ghost use Rattle.folder_shelf.specs.declared.folder.TheConstants.{MAX_PIECE, PRIVATE};
ghost use Rattle.folder_shelf.specs.declared.whole_files.TheConstants.{MAX_BESIDE, MAX_FILE_LEN};

/// A law: the limits of a folder's files, of what is read at once, and of the files beside that writes left, and the mode of a
/// private file, by their numbers.
pub fn the_limits()
    ensures file { MAX_FILE_LEN ≡ 2 ^ 30 }
    ensures piece { MAX_PIECE ≡ 2 ^ 20 }
    ensures private { PRIVATE ≡ 0o600 }
    ensures beside { MAX_BESIDE ≡ 1000 }
{}
