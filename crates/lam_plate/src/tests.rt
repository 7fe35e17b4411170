//! Worked panels: what they stand, as printed and by verdict, over each enclosure.

ghost use Rattle.std.specs.Prelude.{◌≡◌, ◌≤◌, ◌<◌, pos, List, IsTrue, IsSomeAnd, slice_get};
ghost use Rattle.lam_stock.specs.Scale.{scale_of};
ghost use Rattle.lam_stock.specs.declared.item.Item.{Item};
ghost use Rattle.lam_stock.specs.declared.item.ItemNo.{ItemNo};
ghost use Rattle.lam_lamina.specs.Held.{NarrowMatrix};
ghost use Rattle.lam_number.specs.declared.strength.Verdict.TheVariants.{Straddles};
ghost use Rattle.lam_job.specs.declared.limits.TheConstants.{GREATEST_FACTOR};
ghost use Rattle.lam_job.specs.JobData.{JobData};
ghost use Rattle.lam_job.specs.Near.{NearFactor};
ghost use Rattle.lam_job.specs.Ranges.{IsFrom, IsPanel};
ghost use Rattle.lam_job.specs.Rules.{IsSlanted};
ghost use Rattle.lam_job.specs.Schedule.{wall_of};
ghost use Rattle.lam_sharp.specs.NearOne.{past_ratio};
ghost use Rattle.lam_plate.specs.Panels.{BucklesBelow, IsFitWall};

use crate::{panel_verdict, printed_panel, printed_panel_ends, straddles_near_factor};
use lam_job::Panel;
use lam_number::{Ball, Enclosure, Fix, Verdict};
use lam_stock::{ItemNo, Stack, Stock, read_stock};
use lam_wall::{Wall, assemble};
use std::alloc::Global;
use std::test::Fail;

// a catalogue of one ply along the wall, with these moduli in MPa and this thickness in µm
fn sheet(alloc: Global, e1: i64, e2: i64, n12: i64, g12: i64, t: i64) -> Result<Stock, Fail> {
    let text = format!(in alloc;
        "name,kind,e1,e2,n12,g12,xt,xc,yt,yc,s,f12,t,p,q,h,cost\nsheet,ply,{e1},{e2},{n12},{g12},5000000,5000000,5000000,5000000,5000000,0,{t},1,0,1,10\n"
    )?;
    Ok(read_stock(alloc, text.as_bytes())?)
}

// tells whether the fibres of the first item lie along an axis of the wall
fn is_straight(stock: &Stock) -> bool
    ensures { IsTrue result → IsSomeAnd (slice_get stock.now 0) (λ i. ¬ IsSlanted i) }
{
    let items = stock.items();
    items.len() > 0 && items[0].dir.on_axis()
}

// a wall of so many plies of the first item
fn alike<N: Enclosure>(alloc: Global, stock: &Stock, plies: u8) -> Wall<N>
    requires straight { IsSomeAnd (slice_get stock.now 0) (λ i. ¬ IsSlanted i) }
    requires some { 1 ≤ plies }
    requires few { plies ≤ 64 }
    ensures fit { IsFitWall N.numbers (scale_of stock.now) result }
    ensures narrow { NarrowMatrix 512 N.numbers result.d }
{
    let mut wall = Stack::new(alloc);
    for _ in 0..plies {
        wall.push(ItemNo(0));
    }
    assemble(stock, &wall)
}

// a panel, where its numbers are in range
fn panel_of(length: i64, width: i64, load: i64) -> Option<Panel> {
    if length < 50 || 20_000 < length || width < 50 || 20_000 < width {
        return None;
    }
    if load < 1 || 1_000_000_000 < load {
        return None;
    }
    Some(Panel {
        length,
        width,
        load,
        factor: 1_000,
    })
}

// what is printed for a panel of a wall of so many plies, where it is fit
fn printed<N: Enclosure>(
    alloc: Global,
    stock: &Stock,
    plies: u8,
    panel: &Option<Panel>,
) -> Option<u16> {
    let Some(panel) = panel else {
        return None;
    };
    if plies < 1 || 64 < plies || !is_straight(stock) {
        return None;
    }
    let wall: Wall<N> = alike(alloc, stock, plies);
    Some(printed_panel(&wall, &stock.scale(), panel))
}

// its verdict at a factor
fn decided<N: Enclosure>(
    alloc: Global,
    stock: &Stock,
    panel: &Option<Panel>,
    factor: i64,
) -> Option<Verdict> {
    let Some(panel) = panel else {
        return None;
    };
    if factor < 0 || 20_000 < factor || !is_straight(stock) {
        return None;
    }
    let wall: Wall<N> = alike(alloc, stock, 1);
    Some(panel_verdict(&wall, &stock.scale(), panel, factor))
}

// the numbers of a panel are in range
fn in_range(panel: &Panel)
    ensures { IsPanel panel.now }
{
    let _load = panel.load;
}

// the verdict of a panel at the finer scale, by which a wall is near a factor that it straddles
fn near(alloc: Global, stock: &Stock, panel: &Panel, factor: i64) -> Verdict
    requires straight { IsSomeAnd (slice_get stock.now 0) (λ i. ¬ IsSlanted i) }
    requires factor { IsFrom (pos 1) GREATEST_FACTOR factor }
    ensures { result ≡ Straddles → (stock : List Item) × (job : JobData) × (listed : List ItemNo)
        × NearFactor (wall_of stock job listed) panel.now factor }
{
    straddles_near_factor::<Fix<60>>();
    in_range(panel);
    let wall: Wall<Fix<60>> = alike(alloc, stock, 1);
    panel_verdict(&wall, &stock.scale(), panel, factor)
}

// the printed ratio at the finer scale, soon above which a wall buckles
fn ended(alloc: Global, stock: &Stock, panel: &Panel) -> u16
    requires { IsSomeAnd (slice_get stock.now 0) (λ i. ¬ IsSlanted i) }
    ensures { result < 20000 → (stock : List Item) × (job : JobData) × (listed : List ItemNo)
        × BucklesBelow (wall_of stock job listed) panel.now (past_ratio (pos result)) }
{
    printed_panel_ends::<Fix<60>>();
    in_range(panel);
    let wall: Wall<Fix<60>> = alike(alloc, stock, 1);
    printed_panel(&wall, &stock.scale(), panel)
}

// E1, E2, n12, G12 and the thickness of a sheet; the plies; length, width and load of a panel; what is printed
#[test]
fn panels_stand_what_the_formula_gives(rt: HostRuntime) -> Result<(), Fail> {
    let rows = [
        // one half wave, two half waves, and an eighth of the stiffness
        (10_000, 10_000, 0, 5_000, 5_000, 2, 500, 500, 50_000, 2_631),
        (
            10_000, 10_000, 0, 5_000, 5_000, 2, 1_000, 500, 50_000, 2_631,
        ),
        (10_000, 10_000, 0, 5_000, 5_000, 1, 500, 500, 50_000, 328),
        // 400 half waves, and a strip across
        (
            10_000, 10_000, 0, 5_000, 5_000, 2, 20_000, 50, 10_000_000, 1_315,
        ),
        (
            10_000, 10_000, 0, 5_000, 5_000, 2, 50, 20_000, 1_000_000, 3_289,
        ),
        // stiff along, and as stiff across as a catalogue allows: 1579 half waves
        (
            40_000, 10_000, 250, 4_000, 3_000, 1, 1_000, 500, 5_000, 1_276,
        ),
        (
            1_030, 250_000, 0, 513, 5_000, 2, 20_000, 50, 10_000_000, 1_123,
        ),
        // the stiffest wall and the softest, at the greatest load and the least
        (
            400_000,
            400_000,
            0,
            200_000,
            20_000,
            64,
            20_000,
            20_000,
            1_000_000_000,
            6_898,
        ),
        (
            400_000, 400_000, 0, 200_000, 20_000, 64, 20_000, 20_000, 1, 20_000,
        ),
        (
            1_000,
            1_000,
            0,
            500,
            50,
            1,
            20_000,
            20_000,
            1_000_000_000,
            0,
        ),
        (1_000, 1_000, 0, 500, 50, 1, 50, 50, 1, 164),
    ];
    for (e1, e2, n12, g12, t, plies, length, width, load, ratio) in rows {
        let stock = sheet(rt.alloc(), e1, e2, n12, g12, t)?;
        let panel = panel_of(length, width, load);
        assert_eq!(rt;
            printed::<Fix<60>>(rt.alloc(), &stock, plies, &panel),
            Some(ratio)
        );
        assert_eq!(rt;
            printed::<Ball>(rt.alloc(), &stock, plies, &panel),
            Some(ratio)
        );
        let rough = printed::<Fix<28>>(rt.alloc(), &stock, plies, &panel).unwrap_or(20_001);
        assert!(rt; rough <= ratio);
        assert!(rt; u32::from(ratio) * 99 / 100 <= u32::from(rough) + 1);
    }
    Ok(())
}

// a plate of 10.6 mm, 500 by 500, buckles at 36963 times 4.24 N/m exactly
#[test]
fn a_tie_straddles(rt: HostRuntime) -> Result<(), Fail> {
    let stock = sheet(rt.alloc(), 10_000, 10_000, 0, 5_000, 10_600)?;
    let panel = panel_of(500, 500, 36_963);
    for (factor, verdict) in [
        (0, Verdict::Meets),
        (4_239, Verdict::Meets),
        (4_240, Verdict::Straddles),
        (4_241, Verdict::Fails),
        (20_000, Verdict::Fails),
    ] {
        assert_eq!(rt;
            decided::<Fix<60>>(rt.alloc(), &stock, &panel, factor),
            Some(verdict)
        );
        assert_eq!(rt;
            decided::<Fix<28>>(rt.alloc(), &stock, &panel, factor),
            Some(verdict)
        );
        assert_eq!(rt;
            decided::<Ball>(rt.alloc(), &stock, &panel, factor),
            Some(verdict)
        );
    }
    assert_eq!(rt;
        printed::<Fix<60>>(rt.alloc(), &stock, 1, &panel),
        Some(4_239)
    );
    Ok(())
}

// the same plate is near the factor that it straddles, and buckles soon above the printed one
#[test]
fn a_tie_is_near(rt: HostRuntime) -> Result<(), Fail> {
    let stock = sheet(rt.alloc(), 10_000, 10_000, 0, 5_000, 10_600)?;
    let (verdict, ratio) = match panel_of(500, 500, 36_963) {
        Some(panel) if is_straight(&stock) => (
            near(rt.alloc(), &stock, &panel, 4_240),
            ended(rt.alloc(), &stock, &panel),
        ),
        _ => (Verdict::Fails, 0),
    };
    assert_eq!(rt; verdict, Verdict::Straddles);
    assert_eq!(rt; ratio, 4_239);
    Ok(())
}
