//! What is true of all files, each law the contract of a function that does nothing.
ghost use Rattle.term_file.specs.Laws.{TermsHaveOneFile, FilesHaveOneList, TermsHaveOneText};

/// A list of terms has one file, and a file holds one list of terms. Terms that are shared keep
/// their text.
pub fn file_laws()
    ensures one_file { TermsHaveOneFile }
    ensures one_list { FilesHaveOneList }
    ensures one_text { TermsHaveOneText }
{}
