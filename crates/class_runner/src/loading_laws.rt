//! Laws of loading, for all files: each function only states one.

ghost use Rattle.class_runner.specs.LoadingLaws.{AcceptedNotRefused, AcceptedOrRefused};
ghost use Rattle.class_runner.specs.LoadingLaws.{LoadedAccepted, OneLoading, FilesHaveOneRefusal};

/// Files are loaded to one program.
pub fn one_loading()
    ensures { OneLoading }
{}

/// Files are refused by one rule, at one place.
pub fn one_refusal()
    ensures { FilesHaveOneRefusal }
{}

/// Files that are loaded to a program are accepted.
pub fn loaded_is_accepted()
    ensures { LoadedAccepted }
{}

/// No files that are accepted are refused.
pub fn accepted_is_not_refused()
    ensures { AcceptedNotRefused }
{}

/// From 1 to 64 files are accepted or refused.
pub fn accepted_or_refused()
    ensures { AcceptedOrRefused }
{}
