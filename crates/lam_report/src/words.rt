// The words and lines of texts.

ghost use Rattle.std.specs.Prelude.{◌≡◌, ◌≤◌, ◌<◌, ◌+◌, ◌%◌, ◌∷◌, [], length, decimal};
ghost use Rattle.lam_tree.specs.Lines.{ordinal};
ghost use Rattle.lam_report.specs.ReportText.{number_line, panel_line, ratio_line, ratio_text};

use itoa::Buffer;
use lam_tree::Line;

/// The word of a ratio in thousandths.
pub(crate) fn ratio_word(ratio: u16) -> Line
    ensures text { result ≡ ratio_text ratio }
    ensures short { length result ≤ 9 }
{
    let mut buffer = Buffer::new();
    let mut word = Line::new();
    word.word(buffer.format(ratio / 1000).as_bytes());
    let digits = [b'.', digit(ratio / 100), digit(ratio / 10), digit(ratio)];
    word.word(digits.as_slice());
    word
}

// the last digit of a number
fn digit(n: u16) -> u8
    ensures { result ≡ 48 + n % 10 }
{
    b'0' + (n % 10) as u8
}

/// The line of a word and a number.
pub(crate) fn line_of_number(word: &[u8], n: u64) -> Line
    requires { length word.now ≤ 16 }
    ensures { result ≡ number_line word.now n }
{
    let mut line = Line::new();
    line.word(word);
    line.whole(n);
    line
}

/// The line of the ratio of a ply under a case.
pub(crate) fn line_of_ratio(case: u8, ply: u8, ratio: u16) -> Line
    requires case { case < 99 }
    requires ply { ply < 99 }
    ensures { result ≡ ratio_line case ply ratio }
{
    let mut line = Line::new();
    line.word(b"ratio".as_slice());
    line.ordinal(case);
    line.ordinal(ply);
    line.add(ratio_word(ratio).bytes());
    line
}

/// The line of a panel with its value.
pub(crate) fn line_of_panel(panel: u8, value: &[u8]) -> Line
    requires panel { panel < 99 }
    requires short { length value.now ≤ 9 }
    ensures { result ≡ panel_line panel value.now }
{
    let mut line = Line::new();
    line.word(b"panel".as_slice());
    line.ordinal(panel);
    line.add(value);
    line
}
