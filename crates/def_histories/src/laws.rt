//! Laws of histories: legal ones, their versions, live frames and publications.
ghost use Rattle.def_histories.specs.HistoryLaws.{PrefixIsLegal, AllowedIsLegal, DatasetsStay, CommitMakesVersion, PatchLinesInAnyOrder, PatchTextsInAnyOrder, OnlyCommitsMakeVersions, TextNumbersRise, LiveFramesStep, LiveOnceRegistered, GoneOnceRetired, OthersStayLive, AbsentUntilRegistered, PublishedWasCommitted, LiveIsNamed, PublishedIsLast};
ghost use Rattle.def_histories.specs.Jobs.{FittingBoardsAreVersions, FittingJobsFitOn, TextNumbersAreOne};

/// What a legal history begins with is legal.
#[tactic(auto, using(crate::proofs::LegalProofs::prefix_is_legal))]
pub fn prefix_is_legal()
    ensures { PrefixIsLegal }
{}

/// A legal history with an allowed entry is legal.
#[tactic(auto, using(crate::proofs::LegalProofs::allowed_is_legal))]
pub fn allowed_is_legal()
    ensures { AllowedIsLegal }
{}

/// What follows a version doesn't change its dataset.
#[tactic(auto, using(crate::proofs::LiveProofs::datasets_stay))]
pub fn datasets_stay()
    ensures { DatasetsStay }
{}

/// A commit makes one version, of the dataset after its patch.
#[tactic(auto, using(crate::proofs::LiveProofs::commit_makes_version))]
pub fn commit_makes_version()
    ensures { CommitMakesVersion }
{}

/// Two patches with the same lines, in whatever order and however often, make the same version.
#[tactic(auto, using(crate::proofs::LiveProofs::patch_lines_in_any_order))]
pub fn patch_lines_in_any_order()
    ensures { PatchLinesInAnyOrder }
{}

/// Two patch texts with the same lines, in whatever order, make the same version.
pub fn patch_texts_in_any_order()
    ensures { PatchTextsInAnyOrder }
{}

/// Entries other than commits make no version.
#[tactic(auto, using(crate::proofs::LiveProofs::no_version))]
pub fn only_commits_make_versions()
    ensures { OnlyCommitsMakeVersions }
{}

/// A later registration has a greater text number.
#[tactic(auto, using(crate::proofs::LiveProofs::text_numbers_rise))]
pub fn text_numbers_rise()
    ensures { TextNumbersRise }
{}

/// The live frames after one more entry.
#[tactic(auto, using(crate::proofs::LiveProofs::live_frames_step))]
pub fn live_frames_step()
    ensures { LiveFramesStep }
{}

/// A name is live from its registration on.
#[tactic(auto, using(crate::proofs::LiveProofs::live_once_registered))]
pub fn live_once_registered()
    ensures { LiveOnceRegistered }
{}

/// A name is no longer live once it is retired.
#[tactic(auto, using(crate::proofs::LiveProofs::gone_once_retired))]
pub fn gone_once_retired()
    ensures { GoneOnceRetired }
{}

/// Registrations and retirements of other names don't change what is live under a name, nor do
/// commits.
#[tactic(auto, using(crate::proofs::LiveProofs::others_stay_live))]
pub fn others_stay_live()
    ensures { OthersStayLive }
{}

/// A name that isn't live isn't live until it is registered.
#[tactic(auto, using(crate::proofs::PublishedProofs::absent_until_registered))]
pub fn absent_until_registered()
    ensures { AbsentUntilRegistered }
{}

/// What is published of a live frame is of a version that was committed.
pub fn published_was_committed()
    ensures { PublishedWasCommitted }
{}

/// A live frame has the name that it is found under, which is one of a frame.
pub fn live_is_named()
    ensures { LiveIsNamed }
{}

/// What is published under a live name is its last publication after its registration.
#[tactic(auto, using(crate::proofs::PublishedProofs::published_is_last))]
pub fn published_is_last()
    ensures { PublishedIsLast }
{}

/// A job that fits a history fits each one that it is a prefix of.
pub fn fitting_jobs_fit_on()
    ensures { FittingJobsFitOn }
{}

/// A text number is that of one registration.
pub fn text_numbers_are_one()
    ensures { TextNumbersAreOne }
{}

/// The board of a job that fits a history is of one of its versions, under that version's number.
pub fn fitting_boards_are_versions()
    ensures { FittingBoardsAreVersions }
{}
