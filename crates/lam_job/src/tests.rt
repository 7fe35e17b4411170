//! The load of a case, and the parts of a job.

use crate::{Case, CaseKind, Entries, ItemSet, Job, Panel, RuleSet, resultants};
use lam_stock::{ItemNo, Stack};
use std::test::Fail;

#[test]
fn pressure_pulls_round_and_along(rt: HostRuntime) {
    let closed = Case {
        kind: CaseKind::Cylinder {
            pressure: 300,
            diameter: 2000,
            closed: true,
            axial: 0,
            mx: 0,
            my: 0,
        },
        factor: 10000,
    };
    let load = resultants(&closed);
    assert_eq!(rt; (load.nx, load.ny, load.nxy), (600000, 1200000, 0));
}

#[test]
fn lists_give_back_their_items(rt: HostRuntime) -> Result<(), Fail> {
    let case = Case {
        kind: CaseKind::Resultants {
            nx: 0,
            ny: 90000,
            nxy: 0,
            mx: 0,
            my: 0,
            mxy: 0,
        },
        factor: 5000,
    };
    let panel = Panel {
        length: 500,
        width: 500,
        load: 50000,
        factor: 2000,
    };
    let cases = Entries::of(vec![in rt.alloc(); case]?);
    let panels = Entries::of(vec![in rt.alloc(); panel]?);
    let counts = Entries::of(vec![in rt.alloc(); (ItemNo(1), 2)]?);
    assert_eq!(rt; resultants(&cases.items()[0]).ny, 360000);
    let first = &panels.items()[0];
    assert_eq!(rt; first.load, 50000);
    assert_eq!(rt; counts.items()[0], (ItemNo(1), 2));
    Ok(())
}

#[test]
fn a_job_holds_its_parts(rt: HostRuntime) -> Result<(), Fail> {
    let case = Case {
        kind: CaseKind::Cylinder {
            pressure: 300,
            diameter: 2000,
            closed: false,
            axial: -10000,
            mx: 0,
            my: 0,
        },
        factor: 10000,
    };
    let rules = RuleSet {
        inner: Some(ItemSet(5)),
        outer: None,
        symmetric: true,
        balanced: false,
        run: Some(2),
        fewest: None,
        thickness: Some(15000),
        counts: Entries::of(Vec::new(rt.alloc())),
    };
    let job = Job {
        limit: 9,
        liner: Stack::new(rt.alloc()),
        liner_in_wall: false,
        rules,
        cases: Entries::of(vec![in rt.alloc(); case]?),
        panels: Entries::of(Vec::new(rt.alloc())),
    };
    let rules = &job.rules;
    assert_eq!(rt; rules.thickness, Some(15000));
    assert_eq!(rt; resultants(&job.cases.items()[0]).nx, -40000);
    Ok(())
}
