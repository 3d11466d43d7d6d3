// Laws of the words of a line. The functions do nothing: their contracts are the laws.
ghost use Rattle.std.specs.Prelude.{◌≡◌, ◌≢◌, ℕ, List, []};
ghost use Rattle.cli_scripts.specs.Words.{AreWords, written_line};

/// Words that are written in quotation marks are read again, whatever bytes they have.
pub fn written_words_are_read()
    ensures { (words : List (List ℕ)) → words ≢ [] → AreWords (written_line words) words }
{}

/// A line has one list of words at most.
pub fn a_line_has_one_list_of_words()
    ensures { (line : List ℕ) (words others : List (List ℕ)) → AreWords line words → AreWords line others → words ≡ others }
{}
