//! Texts of nodes.
ghost use Rattle.std.specs.Prelude.{◌≡◌, IfOk, string_bytes};

use crate::ids::OutOfMemory;
use crate::short::ShortText;
use std::alloc::Global;
use std::rc::RcStr;

/// A text. A short one lies in the name itself and is copied, so that it takes no memory of its own; a longer one is shared.
#[derive(Debug, Drop)]
pub struct Name {
    text: Text,
}

/// Where the text of a name lies.
#[derive(Debug, Drop)]
enum Text {
    /// In the name.
    Short(ShortText),
    /// In memory that names share.
    Long(RcStr),
}

impl Name {
    ghost use Rattle.oxt_names.specs.Names.{name_bytes};

    /// A name with this text.
    pub fn new(alloc: Global, text: &str) -> Result<Name, OutOfMemory>
        ensures { IfOk result (λ name. name_bytes name ≡ text.now) }
    {
        let text = match ShortText::of(text) {
            Some(short) => Text::Short(short),
            None => Text::Long(RcStr::from_str(alloc, text)?),
        };
        Ok(Name { text })
    }

    /// A name with this text, whose memory it takes over.
    pub fn from_string(text: String) -> Result<Name, OutOfMemory>
        ensures { IfOk result (λ name. name_bytes name ≡ string_bytes text) }
    {
        let text = match ShortText::of(text.as_str()) {
            Some(short) => Text::Short(short),
            None => Text::Long(RcStr::from_string(text)?),
        };
        Ok(Name { text })
    }

    /// The text.
    pub fn as_str(&self) -> &str
        ensures { result.now ≡ name_bytes self.now }
    {
        match &self.text {
            Text::Short(short) => short.as_str(),
            Text::Long(text) => text.as_str(),
        }
    }

    /// Another name with the same text.
    pub fn share(&self) -> Result<Name, OutOfMemory>
        ensures { IfOk result (λ name. name_bytes name ≡ name_bytes self.now) }
    {
        let text = match &self.text {
            Text::Short(short) => Text::Short(*short),
            Text::Long(text) => Text::Long(text.clone()?),
        };
        Ok(Name { text })
    }
}
