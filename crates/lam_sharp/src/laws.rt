//! The laws of values near 1, each the contract of a function that does nothing.

ghost use Rattle.lam_sharp.specs.NearOne.{NearOneIsNear, NearlyOneBounds};
ghost use Rattle.lam_sharp.specs.NearPlaces.{CaseRatioEnds, HangsWhereNear, HardlyAboveStands, NearOnePlaces, RatioEnds};

/// A ply stress at which the criterion's value, at a factor, lies between 200/201 and 200/199 stands 199/200 of the
/// factor, and at 201/200 of it the value is at least 1.
pub fn near_one_is_near()
    ensures { NearOneIsNear }
{}

/// Where the value is at least 200/201 at the number of thousandths above a printed ratio, it is above 1 at 201/200 of
/// the printed one and two thousandths more, so that the exact ratio is less than that.
pub fn nearly_one_bounds()
    ensures { NearlyOneBounds }
{}

/// A schedule is near the factor of a case at each place where the value lies between 200/201 and 200/199 in every
/// laminate strain of its wall.
pub fn near_one_places()
    ensures { NearOnePlaces }
{}

/// Plies whose values are nowhere above 200/199 at a factor have a ratio of at least 199/200 of it.
pub fn hardly_above_stands()
    ensures { HardlyAboveStands }
{}

/// A schedule hangs at a place where its value is near 1, if it keeps the rules, is in range, has no value above 200/199,
/// and each panel of it stands 199/200 of its factor.
pub fn hangs_where_near()
    ensures { HangsWhereNear }
{}

/// A ply with a value of at least 200/201 at the number of thousandths above a ratio, in one laminate strain of its wall,
/// does not have the ratio of 201/200 of that and two thousandths more.
pub fn ratio_ends()
    ensures { RatioEnds }
{}

/// So it is of a ply under a case of a job.
pub fn case_ratio_ends()
    ensures { CaseRatioEnds }
{}
