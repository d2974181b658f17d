ghost use Rattle.texts.specs.SiteFiles.{OneSite};
ghost use Rattle.kept_file.specs.KeptFiles.{OneKept};
ghost use Rattle.kept_file.specs.PackedFiles.{FilesGrowAtTheEnd, FirstPartsAreFiles, FirstPartsTellFirstOperations};
ghost use Rattle.kept_file.specs.PackedFiles.{OnePackedFile, OtherCutsAreNobodys, TextsGrowAtTheEnd};

/// A law: a file of messages is of one text, one site and one list of operations at most. A proof gets it by calling this,
/// at no cost.
pub fn lemma_one_site()
    ensures { OneSite }
{}

/// A law: so is a packed file.
pub fn lemma_one_packed_file()
    ensures { OnePackedFile }
{}

/// A law: so is a file, in whichever form it is.
pub fn lemma_one_kept()
    ensures { OneKept }
{
    lemma_one_site();
    lemma_one_packed_file();
}

/// A law: a packed file cut where one of its operations ends is the file of those before, and a file that another one begins
/// with is of the first of its operations; cut anywhere else it is nobody's. A proof gets it by calling this, at no cost.
pub fn lemma_first_parts()
    ensures parts { FirstPartsAreFiles }
    ensures first { FirstPartsTellFirstOperations }
    ensures elsewhere { OtherCutsAreNobodys }
{}

/// A law: the packed file of a text that has taken in more is that of before with bytes more. A proof gets it by calling
/// this, at no cost.
pub fn lemma_packed_files_grow()
    ensures files { FilesGrowAtTheEnd }
    ensures texts { TextsGrowAtTheEnd }
{}
