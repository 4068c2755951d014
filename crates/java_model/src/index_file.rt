//! Laws of index files, each as the contract of a function that does nothing.

ghost use Rattle.java_model.specs.IndexFile.Laws.{FilesAreRead, FilesAreUnique, FilesOrFault, FaultsExcludeFiles};

/// A file spells one content at most.
pub fn index_files_are_read()
    ensures { FilesAreRead }
{}

/// A content has one file.
pub fn index_files_are_unique()
    ensures { FilesAreUnique }
{}

/// Bytes are an index file or have a first fault.
pub fn index_file_or_fault()
    ensures { FilesOrFault }
{}

/// An index file has no fault.
pub fn faults_exclude_index_files()
    ensures { FaultsExcludeFiles }
{}
