ghost use Rattle.text_file.specs.Files.{OneText, NoFileIsShared, NoFileBeginsAnother};

/// A law: a file is of one text at most, no two texts share a formatted file, and no formatted file begins
/// another one. A proof gets it by calling this, at no cost.
pub fn lemma_one_text()
    ensures text { OneText }
    ensures shared { NoFileIsShared }
    ensures prefix { NoFileBeginsAnother }
{
    operations::lemma_one_spelling();
    char_files::lemma_runs_are_maximal();
}
