//! What is said of a line of a script that is refused.

ghost use Rattle.std.specs.Prelude.{◌≡◌};
ghost use Rattle.pua_advice.specs.Advice.{advice_seen};
ghost use Rattle.pua_advice.specs.Texts.{said_before, said_behind, said_word, wrong_part_text};

use crate::arguments::Arguments;
use crate::wrong_part::WrongPart;
use std::fmt;

/// What is wrong with a line of a script, with the word of the line that it is about.
#[derive(Clone, Copy, Debug, PartialEq, Eq)]
pub enum Advice<'a> {
    /// The line is empty.
    EmptyLine,
    /// Two blanks stand side by side, or one at an end of the line.
    ExtraBlank,
    /// This byte stands in a word, and is no visible ASCII.
    HiddenByte(u8),
    /// This word is no decimal from 1 to 999,999, where a process's number has to stand.
    NoNumber(&'a [u8]),
    /// Nothing stands after the process's number.
    NoCall,
    /// No call has this word by the rules.
    UnknownCall(&'a [u8]),
    /// The call of this word takes this, and something else stands after it.
    Takes(&'a [u8], Arguments),
    /// This word is no spelling of a path or target.
    NoPath(&'a [u8]),
    /// This word spells a NUL.
    HasNul(&'a [u8]),
    /// A comma stands in this list of promises first, last, or after another.
    EmptyPromise(&'a [u8]),
    /// No promise has this word, where a call needs one.
    UnknownPromise(&'a [u8]),
    /// No call needs this promise, which is `error`.
    UnneededPromise(&'a [u8]),
    /// A call needs this promise, or others, and it stands among them twice.
    RepeatedPromise(&'a [u8]),
    /// This word is no decimal from 0 to 1,023, where a descriptor's number has to stand.
    NoDescriptor(&'a [u8]),
    /// This word is none of the calls that open what there is, where one has to stand.
    NoOpening(&'a [u8]),
}

impl<'a> Advice<'a> {
    /// The word or byte that it is about, or the whole line.
    pub fn wrong_part(self) -> WrongPart<'a>
        ensures { wrong_part_text result ≡ said_word (advice_seen self.entry) }
    {
        match self {
            Advice::EmptyLine | Advice::ExtraBlank | Advice::NoCall => WrongPart::Line,
            Advice::HiddenByte(byte) => WrongPart::Byte(byte),
            Advice::NoNumber(word)
            | Advice::UnknownCall(word)
            | Advice::Takes(word, _)
            | Advice::NoPath(word)
            | Advice::HasNul(word)
            | Advice::EmptyPromise(word)
            | Advice::UnknownPromise(word)
            | Advice::UnneededPromise(word)
            | Advice::RepeatedPromise(word)
            | Advice::NoDescriptor(word)
            | Advice::NoOpening(word) => WrongPart::Word(word),
        }
    }

    /// What is said before that, and after it. It has no end of a line.
    pub fn texts(self) -> (&'static str, &'static str)
        ensures before { result.0.now ≡ said_before (advice_seen self.entry) }
        ensures behind { result.1.now ≡ said_behind (advice_seen self.entry) }
    {
        match self {
            Advice::EmptyLine => ("a line has a process, a call and its arguments", ""),
            Advice::ExtraBlank => ("one blank stands between two words, and none at an end", ""),
            Advice::HiddenByte(_) => ("a word has visible ASCII alone, not ", ""),
            Advice::NoNumber(_) => ("\"", "\" is no number of a process, 1 to 999999"),
            Advice::NoCall => ("no call stands behind the process", ""),
            Advice::UnknownCall(_) => ("no call \"", "\" by these rules"),
            Advice::Takes(_, what) => ("", what.text()),
            Advice::NoPath(_) => ("\"", NO_PATH),
            Advice::HasNul(_) => ("\"", "\" has a NUL, and no path has one"),
            Advice::EmptyPromise(_) => {
                (
                    "\"",
                    "\" has an empty promise: one comma stands between two",
                )
            }
            Advice::UnknownPromise(_) => ("no promise \"", "\""),
            Advice::UnneededPromise(_) => ("no call needs \"", "\""),
            Advice::RepeatedPromise(_) => ("\"", "\" stands twice"),
            Advice::NoDescriptor(_) => ("\"", "\" is no number of a descriptor, 0 to 1023"),
            Advice::NoOpening(_) => ("\"", "\" is not open-r, open-w or open-rw"),
        }
    }
}

impl fmt::Display for Advice<'_> {
    fn fmt<W: fmt::Write>(&self, f: &mut fmt::Formatter<W>) -> fmt::Result {
        let (before, behind) = self.texts();
        let wrong_part = self.wrong_part();
        write!(f, "{before}{wrong_part}{behind}")
    }
}

/// What is said after a word that spells no path.
const NO_PATH: &str =
    "\" spells no path: a backslash is \\134, and visible bytes stand for themselves";
