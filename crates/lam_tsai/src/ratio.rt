// The strength ratio that is printed for a ply.

ghost use Rattle.std.specs.Prelude.{◌≡◌, ◌⊎◌, ◌+◌, ◌<◌, ◌≤◌, true, false, IfSome};
ghost use Rattle.lam_stock.specs.declared.item.Item.{Item};
ghost use Rattle.lam_stock.specs.declared.scale.Scale.{Scale};
ghost use Rattle.lam_tsai.specs.FaceStrains.{IsWithinSix};
ghost use Rattle.lam_tsai.specs.Listed.{IsItemOf};
ghost use Rattle.lam_tsai.specs.Ratios.{HasRatio};
ghost use Rattle.lam_tsai.specs.inside.Halving as by;
ghost use Rattle.lam_tsai.specs.inside.Reach.{ReachCriterion, ReachStress};
ghost use Rattle.lam_tsai.specs.inside.Values as values;

use crate::components::Components;
use crate::criterion::Criterion;
use crate::place::Side;
use crate::verdicts::verdict;
use lam_number::{Enclosure, FaceStrain, Verdict};
use lam_stock::{Item, Kind, Scale};

/// The greatest strength ratio that is printed, in thousandths.
const GREATEST_RATIO: u16 = 20_000;

/// The strength ratio of a ply in thousandths, from the strains at its inner and its outer face: 0, or
/// one that both faces meet on all sides; below 20,000 one of them doesn't meet the next.
pub fn printed_ratio<N: Enclosure>(
    item: &Item,
    scale: &Scale,
    inner: &FaceStrain<N>,
    outer: &FaceStrain<N>,
) -> u16
    requires item { IsItemOf scale.now item.now }
    requires inner { IsWithinSix N.numbers inner.now }
    requires outer { IsWithinSix N.numbers outer.now }
    ensures bound { result ≤ 20000 }
    ensures met { (result ≡ 0) ⊎ by.AllMeet N.numbers item.now scale.now inner.now outer.now result }
    ensures next { result < 20000
        → ¬ by.AllMeet N.numbers item.now scale.now inner.now outer.now (result + 1) }
    ensures ratio { HasRatio N.numbers item.now inner.now outer.now result }
    ensures value { result ≡ by.printed_ratio N.numbers item.now scale.now inner.now outer.now }
{
    let criterion = Criterion::of(item, scale);
    criterion.ratio(inner, outer)
}

impl<N: Enclosure> Criterion<N> {
    /// The same by a criterion that was made before, so that it is made but once for many faces.
    pub fn ratio(&self, inner: &FaceStrain<N>, outer: &FaceStrain<N>) -> u16
        requires made { ReachCriterion N.numbers self.now }
        requires inner { IsWithinSix N.numbers inner.now }
        requires outer { IsWithinSix N.numbers outer.now }
        ensures bound { result ≤ 20000 }
        ensures met { (result ≡ 0) ⊎ (by.meets_at N.numbers self.now inner.now outer.now result ≡ true) }
        ensures next { result < 20000
            → by.meets_at N.numbers self.now inner.now outer.now (result + 1) ≡ false }
        ensures value { result ≡ by.ratio_by N.numbers self.now inner.now outer.now }
        ensures same { (s : Scale) (i : Item) → self.now ≡ values.criterion N.numbers s i
            → result ≡ by.printed_ratio N.numbers i s inner.now outer.now }
        ensures all_meet { (s : Scale) (i : Item) → self.now ≡ values.criterion N.numbers s i
            → (result ≡ 0) ⊎ by.AllMeet N.numbers i s inner.now outer.now result }
        ensures not_next { (s : Scale) (i : Item) → self.now ≡ values.criterion N.numbers s i
            → result < 20000 → ¬ by.AllMeet N.numbers i s inner.now outer.now (result + 1) }
        ensures ratio { (s : Scale) (i : Item) → IsItemOf s i → self.now ≡ values.criterion N.numbers s i
            → HasRatio N.numbers i inner.now outer.now result }
    {
        let inner_stresses = face_stresses(self, inner);
        let outer_stresses = face_stresses(self, outer);
        halved(self, &inner_stresses, &outer_stresses)
    }
}

/// The stresses at a face, on each side of an item.
#[derive(Clone, Copy)]
pub struct FaceStresses<N> {
    /// On the side Plus.
    pub plus: Components<N>,
    /// On the side Minus, if the item has it.
    pub minus: Option<Components<N>>,
}

// each transformed once, whatever the factor
fn face_stresses<N: Enclosure>(criterion: &Criterion<N>, at: &FaceStrain<N>) -> FaceStresses<N>
    requires made { ReachCriterion N.numbers criterion.now }
    requires six { IsWithinSix N.numbers at.now }
    ensures value { result ≡ by.face_stresses N.numbers criterion.now at.now }
    ensures plus { ReachStress N.numbers result.plus }
    ensures minus { IfSome result.minus (λ t. ReachStress N.numbers t) }
{
    let plus = criterion.stress(Side::Plus, at);
    match criterion.kind {
        Kind::Ply => FaceStresses { plus, minus: None },
        Kind::Pair => FaceStresses {
            plus,
            minus: Some(criterion.stress(Side::Minus, at)),
        },
    }
}

// the greatest factor that is met next to one that isn't, by halving what lies between
fn halved<N: Enclosure>(
    criterion: &Criterion<N>,
    inner: &FaceStresses<N>,
    outer: &FaceStresses<N>,
) -> u16
    requires made { ReachCriterion N.numbers criterion.now }
    requires inner_plus { ReachStress N.numbers inner.now.plus }
    requires inner_minus { IfSome inner.now.minus (λ t. ReachStress N.numbers t) }
    requires outer_plus { ReachStress N.numbers outer.now.plus }
    requires outer_minus { IfSome outer.now.minus (λ t. ReachStress N.numbers t) }
    ensures bound { result ≤ 20000 }
    ensures met { (result ≡ 0) ⊎ (by.meets N.numbers criterion.now inner.now outer.now result ≡ true) }
    ensures next { result < 20000
        → by.meets N.numbers criterion.now inner.now outer.now (result + 1) ≡ false }
    ensures value { result ≡ by.halved (by.meets N.numbers criterion.now inner.now outer.now) }
{
    let mut met: u16 = 0;
    let mut beyond: u16 = GREATEST_RATIO + 1;
    while beyond - met > 1 {
        let middle = (met + beyond) / 2;
        if meets(criterion, inner, outer, middle) {
            met = middle;
        } else {
            beyond = middle;
        }
    }
    met
}

// tells whether both faces meet a factor
#[tactic(auto, unfolding(crate::specs::inside::Halving::meets))]
fn meets<N: Enclosure>(
    criterion: &Criterion<N>,
    inner: &FaceStresses<N>,
    outer: &FaceStresses<N>,
    factor: u16,
) -> bool
    requires made { ReachCriterion N.numbers criterion.now }
    requires inner_plus { ReachStress N.numbers inner.now.plus }
    requires inner_minus { IfSome inner.now.minus (λ t. ReachStress N.numbers t) }
    requires outer_plus { ReachStress N.numbers outer.now.plus }
    requires outer_minus { IfSome outer.now.minus (λ t. ReachStress N.numbers t) }
    requires factor { factor ≤ 20000 }
    ensures { result ≡ by.meets N.numbers criterion.now inner.now outer.now factor }
{
    face_meets(criterion, inner, factor) && face_meets(criterion, outer, factor)
}

// tells whether a face meets a factor on all sides
fn face_meets<N: Enclosure>(criterion: &Criterion<N>, face: &FaceStresses<N>, factor: u16) -> bool
    requires made { ReachCriterion N.numbers criterion.now }
    requires plus { ReachStress N.numbers face.now.plus }
    requires minus { IfSome face.now.minus (λ t. ReachStress N.numbers t) }
    requires factor { factor ≤ 20000 }
    ensures { result ≡ by.face_meets N.numbers criterion.now face.now factor }
{
    let plus = side_meets(criterion, &face.plus, factor);
    match &face.minus {
        None => plus,
        Some(minus) => plus && side_meets(criterion, minus, factor),
    }
}

// tells whether one side of a face meets a factor
fn side_meets<N: Enclosure>(criterion: &Criterion<N>, stress: &Components<N>, factor: u16) -> bool
    requires made { ReachCriterion N.numbers criterion.now }
    requires stress { ReachStress N.numbers stress.now }
    requires factor { factor ≤ 20000 }
    ensures { result ≡ by.side_meets N.numbers criterion.now stress.now factor }
{
    let level = criterion.at_factor(stress, i64::from(factor));
    is_met(verdict(&level))
}

// tells whether a verdict is that a factor is met
fn is_met(verdict: Verdict) -> bool
    ensures { result ≡ by.is_met verdict }
{
    matches!(verdict, Verdict::Meets)
}
