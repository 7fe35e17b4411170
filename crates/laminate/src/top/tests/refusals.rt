//! What words, files and schedules are refused for.

use super::*;

#[test]
fn words_and_names_of_files_have_their_faults(rt: HostRuntime) -> Result<(), Fail> {
    let alloc = rt.alloc();
    let job = job_of(alloc, PULLED, "")?;
    let catalogue = format!(in alloc; "{HEADER}{MAT}")?;
    let rows = [
        ("", Status::Usage, USAGE),
        ("design job", Status::Usage, USAGE),
        ("design job catalogue --nodes 0", Status::Usage, USAGE),
        ("design none none", Status::ReadFault, "cannot read job\n"),
        (
            "check job catalogue none",
            Status::ReadFault,
            "cannot read report\n",
        ),
        ("sample 0", Status::Usage, USAGE),
        ("--help", Status::Usage, USAGE),
        ("analyse job catalogue mat --nodes 5", Status::Usage, USAGE),
        ("analyse job catalogue -x", Status::Usage, USAGE),
        (
            "analyse none none mat",
            Status::ReadFault,
            "cannot read job\n",
        ),
        (
            "analyse job none mat",
            Status::ReadFault,
            "cannot read catalogue\n",
        ),
        (
            "analyse job catalogue ",
            Status::Refused,
            "refused schedule: empty\n",
        ),
        (
            "analyse job catalogue mut",
            Status::Refused,
            "refused schedule: name 1\n",
        ),
        (
            "analyse job catalogue mat,mut,met",
            Status::Refused,
            "refused schedule: name 2\n",
        ),
        (
            "analyse job catalogue mat,mat,",
            Status::Refused,
            "refused schedule: name 3\n",
        ),
        (
            "analyse job catalogue ,mat",
            Status::Refused,
            "refused schedule: name 1\n",
        ),
        ("analyse -- job catalogue mat, mat", Status::Usage, USAGE),
    ];
    for (line, status, text) in rows {
        let (ended, written) = answer_to(alloc, line, job.as_str(), catalogue.as_str())?;
        assert_eq!(rt; written.as_slice(), text.as_bytes(), "{line}");
        assert_eq!(rt; ended, status);
    }
    Ok(())
}

/// Whether jobs and catalogues are refused with these lines.
fn check_refusals(
    rt: &impl Abort,
    alloc: Global,
    rows: &[(&str, &str, &str, &str)],
) -> Result<(), Fail> {
    for (job, catalogue, schedule, text) in rows {
        let line = format!(in alloc; "analyse job catalogue {schedule}")?;
        let (status, written) = answer_to(alloc, line.as_str(), job, catalogue)?;
        let expected = format!(in alloc; "refused {text}\n")?;
        assert_eq!(rt; written.as_slice(), expected.as_bytes());
        assert_eq!(rt; status, Status::Refused);
    }
    Ok(())
}

#[test]
fn a_job_is_refused_at_its_first_fault(rt: HostRuntime) -> Result<(), Fail> {
    let catalogue = format!(in rt.alloc(); "{HEADER}{MAT}")?;
    let top = "version = 1\nlimit = 4\n[[case]]\nkind = \"resultants\"\nfactor = 5000\n";
    let rows = [
        ("", "limit = 0", "job: top version missing"),
        ("", "version = 1\nlimit = 0", "job: top limit range"),
        (
            "",
            "version = 1\nlimit = 57\ncase = 1",
            "job: top limit range",
        ),
        ("", "version = 1\nlimit = 4", "job: case missing"),
        ("", "version = 1\nlimit = 4\ncase = []", "job: case range"),
        (
            "",
            "version = 1\nlimit = 4\ncase = 1\ncolour = 1",
            "job: top unknown",
        ),
        (
            "",
            "version = 1\nlimit = 4\n[[case]]\nkind = \"resultants\"",
            "job: case 1 factor missing",
        ),
        (top, "ny = 1.5", "job: case 1 ny kind"),
        (top, "colour = 1", "job: case 1 unknown"),
        (top, "ny = 1000000001\ncolour = 1", "job: case 1 ny range"),
        (top, "[[case]]\nkind = \"cone\"", "job: case 2 kind kind"),
        (top, "[rules]\ninner = [\"mut\"]", "job: rules inner item"),
        (top, "[rules.counts]\nmat = 57", "job: counts count range"),
        (
            top,
            "[liner]\nplies = [\"mut\"]\n[rules]\ninner = 1",
            "job: liner plies item",
        ),
        (top, "[[panel]]\nlength = 49", "job: panel 1 length range"),
        (top, "[panel]\nlength = 49", "job: panel kind"),
        (top, "]", "job: top text"),
    ];
    for (head, tail, text) in rows {
        let job = format!(in rt.alloc(); "{head}{tail}\n")?;
        check_refusals(
            &rt,
            rt.alloc(),
            &[(job.as_str(), catalogue.as_str(), "mut", text)],
        )?;
    }
    Ok(())
}

#[test]
fn a_catalogue_is_refused_before_the_job_and_both_before_the_schedule(
    rt: HostRuntime,
) -> Result<(), Fail> {
    let rows = [
        ("", "", "catalogue: record 0 empty"),
        (HEADER, "", "catalogue: record 1 none"),
        (HEADER, "mat,ply,10000.0\n", "catalogue: record 2 fields"),
        (
            HEADER,
            "mat,ply,10000.0,10000,0,5000,100000,100000,100000,100000,50000,0,5000,3,4,6,10\n",
            "catalogue: record 2 number",
        ),
        (
            HEADER,
            "mat,ply,10000,10000,0,5000,100000,100000,100000,100000,50000,0,5000,3,4,6,10\n",
            "catalogue: record 2 unit",
        ),
    ];
    for (head, tail, text) in rows {
        let catalogue = format!(in rt.alloc(); "{head}{tail}")?;
        check_refusals(
            &rt,
            rt.alloc(),
            &[("limit = 0", catalogue.as_str(), "mut", text)],
        )?;
    }
    let twice = format!(in rt.alloc(); "{HEADER}{MAT}{MAT}")?;
    let once = format!(in rt.alloc(); "{HEADER}{MAT}")?;
    let job = job_of(rt.alloc(), "kind = \"resultants\"\nny = 6250001", "")?;
    check_refusals(
        &rt,
        rt.alloc(),
        &[
            (
                "limit = 0",
                twice.as_str(),
                "mut",
                "catalogue: record 3 twice",
            ),
            (
                "limit = 0",
                once.as_str(),
                "mut",
                "job: top version missing",
            ),
            (job.as_str(), once.as_str(), "mat,mut", "schedule: name 2"),
            (job.as_str(), once.as_str(), "mat", "schedule: range 1"),
        ],
    )
}

/// Names joined by commas: as many as asked for, each of the mat.
fn mats(alloc: Global, number: usize) -> Result<String, AllocError> {
    let mut word = String::from_str(alloc, "mat")?;
    for _ in 1..number {
        word.push_str(",mat")?;
    }
    Ok(word)
}

#[test]
fn a_schedule_has_at_most_56_names(rt: HostRuntime) -> Result<(), Fail> {
    let rows = [
        (56, Status::Done, "laminate analysis 1\ncost 560\n"),
        (57, Status::Refused, "refused schedule: many\n"),
    ];
    for (number, status, start) in rows {
        let schedule = mats(rt.alloc(), number)?;
        let (ended, text) = analysis(rt.alloc(), PULLED, "", schedule.as_str())?;
        assert_eq!(rt; ended, status);
        assert!(rt; text.as_slice().starts_with(start.as_bytes()));
    }
    Ok(())
}

/// A text with ends of lines behind it, of a length.
fn padded(alloc: Global, text: &str, length: usize) -> Result<String, AllocError> {
    let mut padded = String::from_str(alloc, text)?;
    for _ in text.len()..length {
        padded.push('\n')?;
    }
    Ok(padded)
}

#[test]
fn files_are_read_up_to_their_greatest_length(rt: HostRuntime) -> Result<(), Fail> {
    let alloc = rt.alloc();
    let rows = [
        (1_048_576, 1_048_576, Status::Done, "laminate analysis 1\n"),
        (
            1_048_577,
            1_048_577,
            Status::Refused,
            "refused job: too long\n",
        ),
        (
            0,
            1_048_577,
            Status::Refused,
            "refused catalogue: too long\n",
        ),
    ];
    for (job_length, catalogue_length, status, line) in rows {
        let job = job_of(alloc, PULLED, "")?;
        let job = padded(alloc, job.as_str(), job_length)?;
        let catalogue = format!(in alloc; "{HEADER}{MAT}")?;
        let catalogue = padded(alloc, catalogue.as_str(), catalogue_length)?;
        let (ended, text) = answer_to(
            alloc,
            "analyse job catalogue mat",
            job.as_str(),
            catalogue.as_str(),
        )?;
        assert_eq!(rt; ended, status, "{job_length}, {catalogue_length}");
        assert!(rt; text.as_slice().starts_with(line.as_bytes()));
    }
    Ok(())
}
