//! Texts in quotes, which are passed over byte by byte.

ghost use Rattle.std.specs.Prelude.{◌≡◌, ◌<◌, false, option_map};
ghost use Rattle.pm_tools_ask.specs.Line.{behind_byte};
ghost use Rattle.pm_tools_ask.specs.Quotes.{after_byte, after_quotes, cut_outside, is_unquoted};
ghost use Rattle.pm_tools_ask.specs.declared.quotes.Quotes.TheVariants.{Outside};

/// Which quotes are open at a place of a text.
#[derive(Clone, Copy, Debug, PartialEq, Eq)]
pub(crate) enum Quotes {
    Outside,
    /// Between two `"`.
    Basic,
    /// There, behind a `\`.
    Escape,
    /// Between two `'`.
    Literal,
}

impl Quotes {
    /// Which quotes are open behind one more byte.
    #[tactic(auto, unfolding(crate::specs::Quotes::after_byte))]
    pub(crate) fn after(self, byte: u8) -> Self
        ensures { result ≡ after_byte self byte }
    {
        match self {
            Quotes::Outside if byte == b'"' => Quotes::Basic,
            Quotes::Outside if byte == b'\'' => Quotes::Literal,
            Quotes::Outside => Quotes::Outside,
            Quotes::Basic if byte == b'"' => Quotes::Outside,
            Quotes::Basic if byte == b'\\' => Quotes::Escape,
            Quotes::Basic => Quotes::Basic,
            Quotes::Escape => Quotes::Basic,
            Quotes::Literal if byte == b'\'' => Quotes::Outside,
            Quotes::Literal => Quotes::Literal,
        }
    }

    pub(crate) fn is_outside(self) -> bool
        ensures { result ≡ is_unquoted self }
    {
        matches!(self, Quotes::Outside)
    }

    /// What follows the quote that closes those that are open before a text.
    pub(crate) fn after_text(self, text: &str) -> Option<&str>
        requires { is_unquoted self ≡ false }
        ensures { option_map (λ rest. rest.now) result ≡ after_quotes self text.now }
    {
        let mut quotes = self;
        for (place, byte) in text.as_bytes().iter().enumerate() {
            quotes = quotes.after(*byte);
            if quotes.is_outside() {
                return Some(&text[place + 1..]);
            }
        }
        None
    }
}

/// What follows a character at the front of a text.
pub(crate) fn behind(text: &str, at: char) -> Option<&str>
    requires { at < 128 }
    ensures { option_map (λ rest. rest.now) result ≡ behind_byte at text.now }
{
    text.strip_prefix(at)
}

/// What stands before and behind the first `at` outside of quotes.
pub(crate) fn cut_outside(text: &str, at: u8) -> Option<(&str, &str)>
    requires { at < 128 }
    ensures { option_map (λ cut. (cut.0.now, cut.1.now)) result
        ≡ cut_outside at Outside text.now }
{
    let mut quotes = Quotes::Outside;
    for (place, byte) in text.as_bytes().iter().enumerate() {
        if quotes.is_outside() && *byte == at {
            return Some((&text[..place], &text[place + 1..]));
        }
        quotes = quotes.after(*byte);
    }
    None
}
