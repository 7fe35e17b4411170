//! What searches for the cheapest wall write.

use super::*;

/// A job of one case of resultants: the greatest number of plies, the factor, the forces, and the
/// other tables.
fn job_with(
    alloc: Global,
    limit: u8,
    factor: u32,
    forces: &str,
    tables: &str,
) -> Result<String, AllocError> {
    format!(in alloc;
        "version = 1\nlimit = {limit}\n[[case]]\nkind = \"resultants\"\n{forces}\nfactor = {factor}\n{tables}\n"
    )
}

/// What a design writes into a large sink, and its status, by the options, the job and the items.
fn design_of(
    alloc: Global,
    options: &str,
    job: &str,
    items: &str,
) -> Result<(Status, Vec<u8>), AllocError> {
    let catalogue = format!(in alloc; "{HEADER}{items}")?;
    let line = format!(in alloc; "design job catalogue{options}")?;
    let mut files = two_files(alloc, job, catalogue.as_str())?;
    let mut sink = MemorySink::new(alloc, 400_000, 400_000)?;
    let status = run_line(alloc, line.as_str(), &mut files, &mut sink)?;
    Ok((status, sink.written().to_vec(alloc)?))
}

/// Whether a design writes these lines between the first and the last.
fn check_design(
    rt: &impl Abort,
    alloc: Global,
    options: &str,
    job: &str,
    items: &str,
    due: Status,
    lines: &str,
) -> Result<(), Fail> {
    let (status, text) = design_of(alloc, options, job, items)?;
    let expected = format!(in alloc; "laminate report 1\n{lines}\nend\n")?;
    assert_eq!(rt; text.as_slice(), expected.as_bytes(), "{options}");
    assert_eq!(rt; status, due);
    Ok(())
}

const LEAST: &str = "answer least\ncost 10\nschedule mat\nratio 1 1 5.555\nnodes 5\n\
length 1 split\nitem 1 admissible\nlength 2 cost\nlength 3 cost\nlength 4 cost";

#[test]
fn the_cheapest_wall_is_found_and_a_used_up_budget_leaves_it_open(
    rt: HostRuntime,
) -> Result<(), Fail> {
    let alloc = rt.alloc();
    let job = job_with(alloc, 4, 5000, "ny = 90000", "")?;
    let rows = [
        ("", Status::Done, "budget 200000", LEAST),
        (" --nodes 5", Status::Done, "budget 5", LEAST),
        (
            " --nodes 4",
            Status::Open,
            "budget 4",
            "answer open budget\ncost 10\nschedule mat\nratio 1 1 5.555\nnodes 4\n\
length 1 split\nitem 1 admissible\nlength 2 cost\nlength 3 cost",
        ),
        (
            " --nodes 1",
            Status::Open,
            "budget 1",
            "answer open budget\nnodes 1\nlength 1 split",
        ),
    ];
    for (options, due, budget, lines) in rows {
        let lines = format!(in alloc; "{budget}\n{lines}")?;
        check_design(&rt, alloc, options, job.as_str(), MAT, due, lines.as_str())?;
    }
    Ok(())
}

const SQUARE: &str = "[[panel]]\nlength = 500\nwidth = 500\nload = 50000\nfactor = 2000";

#[test]
fn walls_that_fail_tie_or_buckle_are_reported_as_such(rt: HostRuntime) -> Result<(), Fail> {
    let alloc = rt.alloc();
    let rows = [
        (
            (1, 6000, "ny = 90000", ""),
            Status::Done,
            "answer none\nnodes 1\nlength 1 netshort 1 0 1 0",
        ),
        (
            (4, 5000, "ny = 6250001", ""),
            Status::Done,
            "answer none\nnodes 4\nlength 1 netshort 1 0 1 0\nlength 2 netshort 1 0 1 0\n\
length 3 netshort 1 0 1 0\nlength 4 netshort 1 0 1 0",
        ),
        (
            (1, 5000, "ny = 100000", ""),
            Status::Open,
            "answer open straddle\nnear 10 ply 1 1 inner plus\nnamed mat\nnodes 2\n\
length 1 split\nitem 1 straddles ply 1 1 inner plus",
        ),
        (
            (2, 5000, "ny = 100000", ""),
            Status::Open,
            "answer open straddle\ncost 20\nschedule mat mat\nratio 1 1 9.999\nratio 1 2 9.999\n\
near 10 ply 1 1 inner plus\nnamed mat\nnodes 5\nlength 1 split\n\
item 1 straddles ply 1 1 inner plus\nlength 2 split\nitem 1 split\nitem 1 admissible",
        ),
        (
            (4, 5000, "ny = 90000", SQUARE),
            Status::Done,
            "answer least\ncost 20\nschedule mat mat\nratio 1 1 11.111\nratio 1 2 11.111\n\
panel 1 2.631\nnodes 7\nlength 1 split\nitem 1 buckles 1\nlength 2 split\nitem 1 split\n\
item 1 admissible\nlength 3 cost\nlength 4 cost",
        ),
    ];
    for ((limit, factor, forces, tables), due, lines) in rows {
        let job = job_with(alloc, limit, factor, forces, tables)?;
        let lines = format!(in alloc; "budget 200000\n{lines}")?;
        check_design(&rt, alloc, "", job.as_str(), MAT, due, lines.as_str())?;
    }
    Ok(())
}

const SLIM: &str = "slim,ply,10000,10000,0,5000,100000,100000,100000,100000,50000,0,2500,1,0,1,4\n";

#[test]
fn children_are_visited_in_the_order_of_the_guide(rt: HostRuntime) -> Result<(), Fail> {
    let alloc = rt.alloc();
    let job = job_with(alloc, 2, 5000, "ny = 90000", "")?;
    let slim_first = format!(in alloc; "{SLIM}{MAT}")?;
    let mat_first = format!(in alloc; "{MAT}{SLIM}")?;
    let rows = [
        (
            slim_first.as_str(),
            "cheapest",
            "item 1 netshort 1 0 1 0\nitem 2 admissible\nlength 2 split\n\
item 1 split\nitem 1 admissible\nitem 2 cost\nitem 2 cost",
        ),
        (
            slim_first.as_str(),
            "thickest",
            "item 2 admissible\nitem 1 netshort 1 0 1 0\nlength 2 split\n\
item 2 cost\nitem 1 split\nitem 2 cost\nitem 1 admissible",
        ),
        (
            slim_first.as_str(),
            "learner",
            "item 1 netshort 1 0 1 0\nitem 2 admissible\nlength 2 split\n\
item 2 cost\nitem 1 split\nitem 2 cost\nitem 1 admissible",
        ),
        (
            mat_first.as_str(),
            "cheapest",
            "item 2 netshort 1 0 1 0\nitem 1 admissible\nlength 2 split\n\
item 2 split\nitem 2 admissible\nitem 1 cost\nitem 1 cost",
        ),
    ];
    for (items, guide, tree) in rows {
        let options = format!(in alloc; " --guide {guide}")?;
        let lines = format!(in alloc;
            "budget 200000\nanswer least\ncost 8\nschedule slim slim\n\
ratio 1 1 5.555\nratio 1 2 5.555\nnodes 8\nlength 1 split\n{tree}"
        )?;
        check_design(
            &rt,
            alloc,
            options.as_str(),
            job.as_str(),
            items,
            Status::Done,
            lines.as_str(),
        )?;
    }
    Ok(())
}

/// Whether a design begins with these lines, under each guide and with these options.
fn check_under_every_guide(
    rt: &impl Abort,
    alloc: Global,
    options: &str,
    job: &str,
    items: &str,
    lines: &str,
) -> Result<(), Fail> {
    for guide in ["cheapest", "thickest", "learner"] {
        let options = format!(in alloc; "{options} --guide {guide}")?;
        let (status, text) = design_of(alloc, options.as_str(), job, items)?;
        let expected = format!(in alloc; "laminate report 1\n{lines}\n")?;
        assert!(rt;
            text.as_slice().starts_with(expected.as_bytes()),
            "{options}"
        );
        assert_eq!(rt; status, Status::Done, "{options}");
    }
    Ok(())
}

/// An item for each letter, each the mat by another name.
fn alike(alloc: Global, names: &[&str]) -> Result<String, AllocError> {
    let mut items = String::new(alloc);
    for name in names {
        items.push_str(name)?;
        items.push_str(
            ",ply,10000,10000,0,5000,100000,100000,100000,100000,50000,0,5000,1,0,1,10\n",
        )?;
    }
    Ok(items)
}

#[test]
fn equal_items_cost_the_same_whichever_is_taken(rt: HostRuntime) -> Result<(), Fail> {
    let alloc = rt.alloc();
    let twins = job_with(alloc, 2, 5000, "ny = 90000", "")?;
    let two = alike(alloc, &["mat", "twin"])?;
    check_under_every_guide(
        &rt,
        alloc,
        "",
        twins.as_str(),
        two.as_str(),
        "budget 200000\nanswer least\ncost 10",
    )?;
    let many = job_with(alloc, 8, 5000, "ny = 550000", "")?;
    let eight = alike(alloc, &["m1", "m2", "m3", "m4", "m5", "m6", "m7", "m8"])?;
    check_under_every_guide(
        &rt,
        alloc,
        " --nodes 100",
        many.as_str(),
        eight.as_str(),
        "budget 100\nanswer least\ncost 60\nschedule m1 m1 m1 m1 m1 m1\nratio 1 1 5.454\nratio 1 2 5.454\n\
ratio 1 3 5.454\nratio 1 4 5.454\nratio 1 5 5.454\nratio 1 6 5.454\nnodes 56",
    )
}

#[test]
fn slanted_plies_that_have_to_be_balanced_meet_no_job(rt: HostRuntime) -> Result<(), Fail> {
    let alloc = rt.alloc();
    let lean = "lean,ply,10000,10000,0,5000,100000,100000,100000,100000,50000,0,5000,3,4,5,10\n";
    let rows = [
        ("[rules]\nbalanced = true", "budget 200000\nanswer none"),
        ("", "budget 200000\nanswer least\ncost 10\nschedule lean"),
    ];
    for (rules, lines) in rows {
        let job = job_with(alloc, 3, 1000, "ny = 90000", rules)?;
        check_under_every_guide(&rt, alloc, "", job.as_str(), lean, lines)?;
    }
    Ok(())
}

const TANK: &str = "version = 1\nlimit = 9\n\
[liner]\nplies = [\"veil\", \"mat\"]\nin_wall = false\n\
[rules]\ninner = [\"mat\"]\nouter = [\"mat\"]\nsymmetric = true\nrun = 3\n\
[[case]]\nkind = \"cylinder\"\npressure = 60\ndiameter = 2400\nends = \"closed\"\nfactor = 10000\n\
[[case]]\nkind = \"cylinder\"\npressure = 60\ndiameter = 2400\nends = \"open\"\naxial = -10000\nfactor = 10000\n\
[[case]]\nkind = \"resultants\"\nnxy = 40000\nfactor = 8000\n";

const TANK_ITEMS: &str = "veil,ply,3500,3500,350,1296,60000,90000,60000,90000,40000,0,250,1,0,1,8\n\
mat,ply,7000,7000,300,2692,90000,140000,90000,140000,60000,0,1100,1,0,1,11\n\
wr,ply,15000,15000,150,3300,240000,180000,240000,180000,70000,0,800,1,0,1,14\n\
wind55,pair,38000,9000,280,3400,800000,450000,35000,110000,45000,0,900,160,231,281,80\n\
hoop,ply,38000,9000,280,3400,800000,450000,35000,110000,45000,0,900,0,1,1,80\n";

#[test]
fn a_tank_costs_the_same_under_every_guide(rt: HostRuntime) -> Result<(), Fail> {
    let alloc = rt.alloc();
    check_under_every_guide(
        &rt,
        alloc,
        " --nodes 6000",
        TANK,
        TANK_ITEMS,
        "budget 6000\nanswer least\ncost 119",
    )
}
