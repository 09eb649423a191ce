//! What runs of the program decide.
ghost use Rattle.lf_app.specs.Laws.{EachRunSaysOneThing};
ghost use Rattle.lf_app.specs.Completeness.{FilesAreFramed, SessionsEndWell};

/// Where the files are told, words come to one answer, save for want of memory and for a file that
/// is there and can't be read.
pub fn each_run_says_one_thing()
    ensures { EachRunSaysOneThing }
{}

/// Files that hold an accepted frame and patches within the limits are framed, where the document
/// has bytes. Only a fault or want of memory stands in the way.
pub fn files_are_framed()
    ensures { FilesAreFramed }
{}

/// A session over whole messages with accepted heads ends with status 0. Only a fault or want of
/// memory stands in the way.
pub fn sessions_end_well()
    ensures { SessionsEndWell }
{}
