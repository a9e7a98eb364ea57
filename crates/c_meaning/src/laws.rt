//! Laws of runs, above the definitions.
ghost use Rattle.c_meaning.specs.ValueLaws.{ConversionsAreCongruent, DivisionsTruncate};
ghost use Rattle.c_meaning.specs.Laws.{RunsExtend, MorePointsKeepAnswers, TalliesCount, Elements, Places};
ghost use Rattle.c_meaning.specs.PassedPoints.{RunsPassPoints};

/// The run of a function that may pass more points ends in the same way, or goes on from where it waited. Each point that it passes is one less of those that may be passed.
pub fn runs_extend()
    ensures { RunsExtend }
{}

/// What a run comes to within some points, it comes to within more points too, and it passes no more than it may.
pub fn more_points_keep_answers()
    ensures { MorePointsKeepAnswers }
{}

/// The points that a run passes are those of its answer, and as many as it may pass where it still runs.
pub fn runs_pass_points()
    ensures { RunsPassPoints }
{}

/// The tally of a trace lists each of its points once, with how often it stands there.
pub fn tallies_count()
    ensures { TalliesCount }
{}

/// What is read of an element is what was last written there.
#[tactic(auto, using(crate::proofs::ElementLaws::elements_law))]
pub fn elements_are_kept()
    ensures { Elements }
{}

/// Subscripts within their dimensions name a place within the array, and no two the same one.
#[tactic(auto, using(crate::proofs::ElementLaws::places_law))]
pub fn places_differ()
    ensures { Places }
{}

/// A conversion to an integer type gives the one number of the type that is congruent modulo 2^width.
pub fn conversions_are_congruent()
    ensures { ConversionsAreCongruent }
{}

/// A quotient is rounded toward zero, and the remainder has the dividend's sign.
pub fn divisions_truncate()
    ensures { DivisionsTruncate }
{}
