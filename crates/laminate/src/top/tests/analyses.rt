//! What analyses write.

use super::*;

#[test]
fn a_ratio_is_printed_rounded_down_and_a_tie_one_below(rt: HostRuntime) -> Result<(), Fail> {
    let rows = [
        ("ny = 90000", "mat", "5.555"),
        ("ny = 100000", "mat", "4.999"),
        ("ny = -100000", "weak", "9.999"),
        ("ny = 100000", "weak", "4.999"),
        ("ny = 0", "mat", "20.000"),
        ("ny = 6250000", "mat", "0.079"),
        ("ny = 90000", "lean", "4.596"),
        ("nxy = 90000", "both", "3.551"),
    ];
    for (force, schedule, ratio) in rows {
        let case = format!(in rt.alloc(); "kind = \"resultants\"\n{force}")?;
        let lines = format!(in rt.alloc(); "cost 10\nrules kept\nratio 1 1 {ratio}")?;
        check_analyses(
            &rt,
            rt.alloc(),
            &[(case.as_str(), "", schedule, lines.as_str())],
        )?;
    }
    Ok(())
}

const CYLINDER: &str = "kind = \"cylinder\"\npressure = 300\ndiameter = 2000\nends = \"closed\"";

const PULLED_TWICE: &str = "kind = \"resultants\"\nny = 180000";

const PULLED_HARD: &str = "kind = \"resultants\"\nny = 300000";

const BENT: &str = "kind = \"resultants\"\nmy = 2400000";

const SECOND: &str = "[[case]]\nkind = \"resultants\"\nfactor = 5000\nny = 100000";

#[test]
fn walls_of_several_plies_and_cases_are_analysed(rt: HostRuntime) -> Result<(), Fail> {
    check_analyses(
        &rt,
        rt.alloc(),
        &[
            (
                CYLINDER,
                "",
                "glass",
                "cost 30\nrules kept\nratio 1 1 2.056",
            ),
            (CYLINDER, "", "tied", "cost 30\nrules kept\nratio 1 1 2.223"),
            (
                PULLED_HARD,
                "",
                "mat,stiff",
                "cost 20\nrules kept\nratio 1 1 3.055\nratio 1 2 2.291",
            ),
            (
                BENT,
                "",
                "mat,mat,mat,mat",
                "cost 40\nrules kept\nratio 1 1 2.777\nratio 1 2 5.555\nratio 1 3 5.555\nratio 1 4 2.777",
            ),
            (
                PULLED,
                SECOND,
                "mat",
                "cost 10\nrules kept\nratio 1 1 5.555\nratio 2 1 4.999",
            ),
        ],
    )
}

const LINER_OUT: &str = "[liner]\nplies = [\"mat\"]";

const LINER_IN: &str = "[liner]\nplies = [\"mat\"]\nin_wall = true";

const SQUARE: &str = "[[panel]]\nlength = 500\nwidth = 500\nload = 50000\nfactor = 2000";

const LONG: &str = "[[panel]]\nlength = 1000\nwidth = 500\nload = 50000\nfactor = 2000";

#[test]
fn liners_rules_and_panels_are_told(rt: HostRuntime) -> Result<(), Fail> {
    check_analyses(
        &rt,
        rt.alloc(),
        &[
            (
                PULLED,
                LINER_OUT,
                "mat",
                "cost 20\nrules kept\nratio 1 1 5.555",
            ),
            (
                PULLED_TWICE,
                LINER_IN,
                "mat",
                "cost 20\nrules kept\nratio 1 1 5.555\nratio 1 2 5.555",
            ),
            (
                PULLED,
                "[rules]\nfewest = 2",
                "mat",
                "cost 10\nrules broken 6\nratio 1 1 5.555",
            ),
            (
                PULLED_TWICE,
                "[rules]\nrun = 1\nfewest = 3",
                "mat,mat",
                "cost 20\nrules broken 5\nratio 1 1 5.555\nratio 1 2 5.555",
            ),
            (
                PULLED,
                "[rules]\ninner = [\"stiff\"]\nfewest = 3",
                "mat",
                "cost 10\nrules broken 1\nratio 1 1 5.555",
            ),
            (
                PULLED,
                SQUARE,
                "mat,mat",
                "cost 20\nrules kept\nratio 1 1 11.111\nratio 1 2 11.111\npanel 1 2.631",
            ),
            (
                PULLED,
                LONG,
                "mat,mat",
                "cost 20\nrules kept\nratio 1 1 11.111\nratio 1 2 11.111\npanel 1 2.631",
            ),
            (
                PULLED,
                SQUARE,
                "mat",
                "cost 10\nrules kept\nratio 1 1 5.555\npanel 1 0.328",
            ),
            (
                PULLED_HARD,
                SQUARE,
                "mat,stiff",
                "cost 20\nrules broken 9\nratio 1 1 3.055\nratio 1 2 2.291\npanel 1 unfit",
            ),
        ],
    )
}
