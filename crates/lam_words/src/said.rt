//! What words say: positional texts and the values of options.

ghost use Rattle.std.specs.Prelude.{◌≡◌, option_map};
ghost use Rattle.lam_words.specs.Sorting.{with_text, with_value, nothing_said};
ghost use Rattle.lam_words.specs.inside.Spelled.{texts_of, sorted_of};

use crate::option_name::OptionName;

/// At most four positional texts.
#[derive(Clone, Copy)]
pub(crate) enum Texts<'a> {
    None,
    One(&'a str),
    Two(&'a str, &'a str),
    Three(&'a str, &'a str, &'a str),
    Four(&'a str, &'a str, &'a str, &'a str),
}

/// The positional texts of words, and the values of their options.
#[derive(Clone, Copy)]
pub(crate) struct Said<'a> {
    pub(crate) texts: Texts<'a>,
    pub(crate) guide: Option<&'a str>,
    pub(crate) nodes: Option<&'a str>,
}

impl<'a> Said<'a> {
    /// No word was read.
    pub(crate) fn nothing() -> Said<'a>
        ensures { sorted_of result ≡ nothing_said }
    {
        Said {
            texts: Texts::None,
            guide: None,
            nodes: None,
        }
    }

    /// With one more positional text, unless there are four.
    pub(crate) fn with_text(self, word: &'a str) -> Option<Said<'a>>
        ensures { option_map sorted_of result ≡ with_text word.entry.now (sorted_of self.entry) }
    {
        let texts = match self.texts {
            Texts::None => Texts::One(word),
            Texts::One(a) => Texts::Two(a, word),
            Texts::Two(a, b) => Texts::Three(a, b, word),
            Texts::Three(a, b, c) => Texts::Four(a, b, c, word),
            Texts::Four(..) => return None,
        };
        Some(Said { texts, ..self })
    }

    /// With the value of an option, unless it has one.
    pub(crate) fn with_value(self, option: OptionName, value: &'a str) -> Option<Said<'a>>
        ensures { option_map sorted_of result
            ≡ with_value option value.entry.now (sorted_of self.entry) }
    {
        match (option, self.guide, self.nodes) {
            (OptionName::Guide, None, _) => Some(Said {
                guide: Some(value),
                ..self
            }),
            (OptionName::Nodes, _, None) => Some(Said {
                nodes: Some(value),
                ..self
            }),
            _ => None,
        }
    }
}
