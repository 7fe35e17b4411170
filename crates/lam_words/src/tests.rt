use super::*;
use std::alloc::Global;
use std::test::Fail;

// The words of a line, cut at each blank.
fn words_of(alloc: Global, line: &str) -> Result<Vec<String>, Fail> {
    let mut words = Vec::new(alloc);
    for word in line.split(' ') {
        words.push(String::from_str(alloc, word)?)?;
    }
    Ok(words)
}

// What the words ask for, as text.
fn answer(alloc: Global, words: &[String]) -> Result<String, Fail> {
    Ok(match read_words(alloc, words) {
        Ok(
            Order::Design {
                job,
                catalogue,
                guide,
                nodes,
            },
        ) => format!(in alloc; "design {job}|{catalogue} {guide:?} {nodes}")?,
        Ok(
            Order::Analyse {
                job,
                catalogue,
                schedule,
            },
        ) => format!(in alloc; "analyse {job}|{catalogue}|{schedule}")?,
        Ok(
            Order::Check {
                job,
                catalogue,
                report,
            },
        ) => format!(in alloc; "check {job}|{catalogue}|{report}")?,
        Ok(
            Order::Sample {
                number,
                guide,
                nodes,
            },
        ) => format!(in alloc; "sample {number} {guide:?} {nodes}")?,
        Err(error) => format!(in alloc; "{error}")?,
    })
}

#[test]
fn words_of_each_mode_are_read(rt: HostRuntime) -> Result<(), Fail> {
    let alloc = rt.alloc();
    let rows = [
        ("design job cat", "design job|cat Cheapest 200000"),
        (
            "design job cat --nodes=5 --guide learner",
            "design job|cat Learner 5",
        ),
        ("design --nodes 5 -- job cat", "design job|cat Cheapest 5"),
        (
            "--guide thickest design job --nodes 200000 cat",
            "design job|cat Thickest 200000",
        ),
        (
            "design job cat --guide=cheapest --",
            "design job|cat Cheapest 200000",
        ),
        ("-- design job cat", "design job|cat Cheapest 200000"),
        (
            "design -- --guide=learner --",
            "design --guide=learner|-- Cheapest 200000",
        ),
        ("design - ", "design -| Cheapest 200000"),
        ("analyse job cat mat,mat", "analyse job|cat|mat,mat"),
        ("analyse job cat ", "analyse job|cat|"),
        ("analyse job cat -- -x", "analyse job|cat|-x"),
        ("check job cat report", "check job|cat|report"),
        ("sample 1", "sample 1 Cheapest 200000"),
        (
            "sample 1000000 --nodes 1 --guide=thickest",
            "sample 1000000 Thickest 1",
        ),
    ];
    for (line, want) in rows {
        let words = words_of(alloc, line)?;
        assert_eq!(rt; answer(alloc, words.as_slice())?.as_str(), want, "{line}");
    }
    Ok(())
}

#[test]
fn words_without_a_reading_are_refused(rt: HostRuntime) -> Result<(), Fail> {
    let alloc = rt.alloc();
    let rows = [
        "",
        "--",
        "--help",
        "design job",
        "design job cat more",
        "Design job cat",
        "check job cat",
        "check job cat report more",
        "check job cat report --guide learner",
        "analyse job cat mat --nodes 5",
        "design job cat --nodes 05",
        "design job cat --nodes 0",
        "design job cat --nodes +5",
        "design job cat --nodes 200001",
        "design job cat --nodes 5x",
        "design job cat --nodes=",
        "design job cat --nodes 5 --nodes 5",
        "design job cat --guide learner --guide=learner",
        "design job cat --guide best",
        "design job cat --guide",
        "design job cat --guide=",
        "design job cat --guide ",
        "design job cat --guide -",
        "design job cat --guide --nodes 5",
        "design job cat --guides learner",
        "design job cat -- --guide learner",
        "design job -x",
        "sample",
        "sample 0",
        "sample 01",
        "sample 1000001",
        "sample 18446744073709551616",
        "sample 1 2",
    ];
    for line in rows {
        let words = words_of(alloc, line)?;
        assert_eq!(rt;
            answer(alloc, words.as_slice())?.as_str(),
            "Usage",
            "{line}"
        );
    }
    let none: Vec<String> = Vec::new(alloc);
    assert_eq!(rt; answer(alloc, none.as_slice())?.as_str(), "Usage");
    assert_eq!(rt;
        format!(in alloc; "{}", WordsError::Memory)?.as_str(),
        "Memory"
    );
    Ok(())
}
