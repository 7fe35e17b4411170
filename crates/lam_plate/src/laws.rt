//! How near verdicts and printed ratios of panels are to the exact ones: laws, each the contract of
//! a function that does nothing.

ghost use Rattle.std.specs.Prelude.{◌≡◌, ◌<◌, ℤ, pos, ◌≤ℤ◌, List};
ghost use Rattle.lam_job.specs.JobData.{JobData, PanelData};
ghost use Rattle.lam_job.specs.Near.{NearFactor};
ghost use Rattle.lam_job.specs.Ranges.{IsPanel};
ghost use Rattle.lam_job.specs.Schedule.{wall_of};
ghost use Rattle.lam_number.specs.declared.strength.Verdict.TheVariants.{Straddles};
ghost use Rattle.lam_plate.specs.NearFactor.{IsFine};
ghost use Rattle.lam_plate.specs.Panels.{BucklesBelow, StandsForFit};
ghost use Rattle.lam_plate.specs.inside.Formulas as by;
ghost use Rattle.lam_sharp.specs.NearOne.{past_ratio};
ghost use Rattle.lam_stock.specs.declared.item.Item.{Item};
ghost use Rattle.lam_stock.specs.declared.item.ItemNo.{ItemNo};
ghost use Rattle.lam_stock.specs.declared.scale.Scale.{Scale};
ghost use Rattle.lam_wall.specs.declared.wall.Wall.{Wall};

use lam_number::Enclosure;

/// Over the finer scale, the verdict of a panel straddles a factor only near it: the panel stands
/// 199/200 of the factor in every number of half waves, and buckles by 201/200 of it in one. Factors
/// are in thousandths.
pub fn straddles_near_factor<N: Enclosure>()
    ensures { (stock : List Item) (job : JobData) (listed : List ItemNo) (scale : Scale) (w : Wall N)
        (p : PanelData) (factor : ℤ)
        → StandsForFit N.numbers w scale stock job listed
        → IsFine N.numbers w
        → IsPanel p
        → pos 1 ≤ℤ factor
        → by.panel_verdict N.numbers scale.q0 w p factor ≡ Straddles
        → NearFactor (wall_of stock job listed) p factor }
{}

/// Over the finer scale, a panel with a printed ratio below 20,000 thousandths buckles below 201/200
/// of it and two thousandths more.
pub fn printed_panel_ends<N: Enclosure>()
    ensures { (stock : List Item) (job : JobData) (listed : List ItemNo) (scale : Scale) (w : Wall N)
        (p : PanelData)
        → StandsForFit N.numbers w scale stock job listed
        → IsFine N.numbers w
        → IsPanel p
        → by.printed_panel N.numbers scale.q0 w p < 20000
        → BucklesBelow (wall_of stock job listed) p (past_ratio (pos (by.printed_panel N.numbers scale.q0 w p))) }
{}
