// What verdicts say of the strength ratio of a ply in a loaded wall, as the contract of a function
// that does nothing.

ghost use Rattle.std.specs.Prelude.{◌≡◌, ℕ, ◌≤◌, List, Some, slice_get, pos};
ghost use Rattle.lam_fraction.specs.Fraction.{whole};
ghost use Rattle.lam_job.specs.JobData.{CaseData, JobData};
ghost use Rattle.lam_job.specs.LoadOf.{load_of};
ghost use Rattle.lam_job.specs.Schedule.{wall_of};
ghost use Rattle.lam_job.specs.Strength.{CaseRatio, PlyRatio};
ghost use Rattle.lam_job.specs.Wall.{Placed, placed_plies};
ghost use Rattle.lam_job.specs.declared.load.Load.{Load};
ghost use Rattle.lam_number.specs.declared.strength.FaceStrain.{FaceStrain};
ghost use Rattle.lam_stock.specs.declared.item.Item.{Item};
ghost use Rattle.lam_stock.specs.declared.item.ItemNo.{ItemNo};
ghost use Rattle.lam_stock.specs.declared.scale.Scale.{Scale};
ghost use Rattle.lam_tsai.specs.FaceStrains.{IsWithinSix};
ghost use Rattle.lam_tsai.specs.Listed.{IsItemOf};
ghost use Rattle.lam_tsai.specs.Ratios.{HoldsSolutions};
ghost use Rattle.lam_tsai.specs.inside.Halving.{AllMeet};

use lam_number::Enclosure;

/// Where both faces of a ply of a wall meet a factor on all sides, at strains that hold those of
/// every laminate strain of the wall under a load, the ply's strength ratio is at least the factor;
/// so it is under a case of a job.
pub fn meeting_is_a_ratio<N: Enclosure>()
    ensures ply { (wall : List Item) (load : Load) (ply : ℕ) (p : Placed) (scale : Scale)
        (inner outer : FaceStrain N) (r : ℕ)
        → slice_get (placed_plies wall) ply ≡ Some p
        → IsItemOf scale p.item
        → IsWithinSix N.numbers inner
        → IsWithinSix N.numbers outer
        → HoldsSolutions N.numbers wall load p inner outer
        → r ≤ 20000
        → AllMeet N.numbers p.item scale inner outer r
        → PlyRatio wall load ply (whole (pos r)) }
    ensures case { (stock : List Item) (job : JobData) (listed : List ItemNo) (case ply : ℕ)
        (c : CaseData) (p : Placed) (scale : Scale) (inner outer : FaceStrain N) (r : ℕ)
        → slice_get job.cases case ≡ Some c
        → slice_get (placed_plies (wall_of stock job listed)) ply ≡ Some p
        → IsItemOf scale p.item
        → IsWithinSix N.numbers inner
        → IsWithinSix N.numbers outer
        → HoldsSolutions N.numbers (wall_of stock job listed) (load_of c.kind) p inner outer
        → r ≤ 20000
        → AllMeet N.numbers p.item scale inner outer r
        → CaseRatio stock job listed case ply (whole (pos r)) }
{}
