ghost use Rattle.std.specs.Prelude.{◌≡◌, Some};
ghost use Rattle.reading.specs.Numbers.{number_of, carried_of, layer_of, layer_word};
ghost use Rattle.reading.specs.declared.fault.RuleFault.TheVariants.{Text};

use crate::reader::LINE_BYTES;
use std::fmt;

/// What is wrong with the text of a line.
#[derive(Clone, Copy, Debug)]
pub enum TextFault {
    /// The line has more than 512 bytes.
    LineTooLong,
    /// No token begins at this place, or a byte stands there that may not follow a word or a name.
    WrongByte(usize),
    /// The name that begins at this place has more than twelve decoded bytes.
    NameTooLong(usize),
}

/// What is wrong with a line as a rule; a fault of its text is carried whole.
#[derive(Clone, Copy, Debug)]
pub enum RuleFault {
    Text(TextFault),
    /// No rule goes on with the token at this place, or the line ends there too early.
    OutOfGrammar(usize),
    /// The line has so many words, more than 32.
    TooManyNodes(usize),
}

/// The layer that refuses.
#[derive(Clone, Copy, Debug)]
pub enum Layer {
    Text,
    Rule,
}

impl From<TextFault> for RuleFault {
    ghost from_gives = { λ e r. r ≡ Text e };

    fn from(e: TextFault) -> RuleFault {
        RuleFault::Text(e)
    }
}

impl RuleFault {
    /// The number that the refusal goes by.
    pub fn number(self) -> u8
        ensures { result ≡ number_of self }
    {
        match self {
            RuleFault::Text(TextFault::LineTooLong) => 2,
            RuleFault::Text(TextFault::WrongByte(_)) => 3,
            RuleFault::Text(TextFault::NameTooLong(_)) => 4,
            RuleFault::OutOfGrammar(_) => 5,
            RuleFault::TooManyNodes(_) => 6,
        }
    }

    /// The number that the refusal carries: a place, a count or a bound.
    pub fn carried(self) -> usize
        ensures { result ≡ carried_of self }
    {
        match self {
            RuleFault::Text(TextFault::LineTooLong) => LINE_BYTES,
            RuleFault::Text(TextFault::WrongByte(place) | TextFault::NameTooLong(place)) => place,
            RuleFault::OutOfGrammar(place) => place,
            RuleFault::TooManyNodes(words) => words,
        }
    }

    /// The layer that refuses.
    pub fn layer(self) -> Layer
        ensures { result ≡ layer_of self }
    {
        match self {
            RuleFault::Text(_) => Layer::Text,
            _ => Layer::Rule,
        }
    }
}

impl Layer {
    /// The word that it is printed as.
    pub fn word(self) -> &'static str
        ensures { result.now ≡ layer_word self }
    {
        match self {
            Layer::Text => "text",
            Layer::Rule => "rule",
        }
    }
}

impl fmt::Display for Layer {
    ghost output = { λ l. Some (layer_word l) };

    fn fmt<W: fmt::Write>(&self, f: &mut fmt::Formatter<W>) -> fmt::Result {
        f.write_str(self.word())
    }
}
