//! Why bytes are refused.
ghost use Rattle.std.specs.Prelude.{◌≡◌, IfOk, ◌++◌, codes, option_map, string_bytes};
ghost use Rattle.oxt_check.specs.Faults.{refusal_in};
ghost use Rattle.oxt_check.specs.Refusals.{difference_in, kind_text, line_of, span_of, uncertified, wide_member};
ghost use Rattle.oxt_check.specs.declared.fault.Fault.TheVariants.{OutOfMemory as NoMemory};

pub use oxt_faults::misplaced::MisplacedKind;
use oxt_names::ids::{OutOfMemory, Span};
use oxt_names::name::Name;
use std::alloc::{AllocError, Global};
use thiserror::Error;

/// Why a tree is refused. The first of the reasons that apply is answered, in the order of the
/// variants after want of memory, which may come at any step.
#[derive(Debug, Drop, Error)]
pub enum Fault {
    /// Memory ran out.
    #[error("out of memory")]
    OutOfMemory,
    /// The bytes are no JSON, or nest too deeply.
    #[error("not JSON")]
    Json,
    /// The JSON is no tree: `place` is the pointer of the first wrong value.
    #[error("no tree at {place:?}", place = .place.as_str())]
    Shape { place: Name },
    /// A node stands where it cannot be lowered.
    #[error("a misplaced node at {place:?}", place = .place.as_str())]
    Misplaced { kind: MisplacedKind, place: Name },
    /// The constant of a member of an enum, which stands there, would be larger than the largest.
    #[error("the constant of the member at {start}..{end} would be too large", start = .span.start, end = .span.end)]
    Wide { span: Span },
    /// A name would change its owner or a word its meaning, once declarations are erased and code moves.
    #[error("the name {name:?} at {place:?} would be captured", name = .name.as_str(), place = .place.as_str())]
    Captured { name: Name, place: Name },
    /// The lowered tree failed its certificate, and was thrown away.
    #[error("the lowered tree is not certified")]
    Uncertified { mismatch: Mismatch },
}

/// How a lowered tree fails its certificate.
#[derive(Debug, Drop)]
pub enum Mismatch {
    /// It is no tree of the grammar, at this JSON pointer first.
    Shape { place: Name },
    /// Something of TypeScript is left in it, at this JSON pointer first.
    Plain { place: Name },
    /// A setting of the program, at this JSON pointer, is not the source's, or names another language.
    Setting { place: Name },
    /// Its effect word differs from the source's, at this index first.
    Item { index: usize },
    /// A name has not the owner that it had in the source: the first such, counted from 0 among the names that are used.
    Owner { index: usize },
    /// A name that the source has not is not declared exactly once: the first such.
    Binding { name: Name },
}

impl From<OutOfMemory> for Fault {
    ghost from_gives = { λ _ f. f ≡ NoMemory };

    fn from(_error: OutOfMemory) -> Fault {
        Fault::OutOfMemory
    }
}

impl Fault {
    /// The line that names the fault on standard error; for want of memory there is none.
    pub fn line(&self, alloc: Global) -> Result<Option<String>, AllocError>
        ensures { IfOk result
            (λ line. option_map string_bytes line ≡ option_map line_of (refusal_in self.now)) }
    {
        match self {
            Fault::OutOfMemory => Ok(None),
            Fault::Json => Ok(Some(String::from_str(alloc, "json\n")?)),
            Fault::Shape { place } => Ok(Some(named_line(alloc, "shape ", place.as_str())?)),
            Fault::Misplaced { kind, place } => {
                Ok(Some(placed_line(alloc, "misplaced ", kind_text(*kind), place.as_str())?))
            }
            Fault::Wide { span } => Ok(Some(wide_line(alloc, *span)?)),
            Fault::Captured { name, place } => {
                Ok(Some(placed_line(alloc, "captured ", name.as_str(), place.as_str())?))
            }
            Fault::Uncertified { mismatch } => Ok(Some(uncertified_line(alloc, mismatch)?)),
        }
    }
}

// What is wrong, where, and a line feed.
fn named_line(alloc: Global, what: &str, name: &str) -> Result<String, AllocError>
    ensures { IfOk result (λ line. string_bytes line ≡ what.now ++ name.now ++ codes "\n") }
{
    let mut line = String::from_str(alloc, what)?;
    line.push_str(name)?;
    line.push_str("\n")?;
    Ok(line)
}

// What is wrong, with what, where, and a line feed.
fn placed_line(alloc: Global, what: &str, name: &str, place: &str) -> Result<String, AllocError>
    ensures { IfOk result
        (λ line. string_bytes line ≡ what.now ++ name.now ++ codes " " ++ place.now ++ codes "\n") }
{
    let mut line = String::from_str(alloc, what)?;
    line.push_str(name)?;
    line.push_str(" ")?;
    line.push_str(place)?;
    line.push_str("\n")?;
    Ok(line)
}

// What a node that is misplaced is, as lines name it.
fn kind_text(kind: MisplacedKind) -> &'static str
    ensures { result.now ≡ kind_text kind }
{
    match kind {
        MisplacedKind::Body => "body",
        MisplacedKind::Namespace => "namespace",
        MisplacedKind::Merge => "merge",
        MisplacedKind::Enum => "enum",
        MisplacedKind::Super => "super",
        MisplacedKind::Key => "key",
        MisplacedKind::Field => "field",
        MisplacedKind::Decorator => "decorator",
        MisplacedKind::Accessor => "accessor",
    }
}

// Where a member stands whose constant would be too large, and a line feed.
fn wide_line(alloc: Global, span: Span) -> Result<String, AllocError>
    ensures { IfOk result (λ line. string_bytes line ≡ line_of (wide_member (span_of span))) }
{
    let start = span.start.to_string(alloc)?;
    let end = span.end.to_string(alloc)?;
    let mut line = String::from_str(alloc, "wide ")?;
    line.push_str(start.as_str())?;
    line.push_str("..")?;
    line.push_str(end.as_str())?;
    line.push_str("\n")?;
    Ok(line)
}

// How the lowered tree fails its certificate, and a line feed.
fn uncertified_line(alloc: Global, mismatch: &Mismatch) -> Result<String, AllocError>
    ensures { IfOk result
        (λ line. string_bytes line ≡ line_of (uncertified (difference_in mismatch.now))) }
{
    match mismatch {
        Mismatch::Shape { place } => named_line(alloc, "uncertified shape ", place.as_str()),
        Mismatch::Plain { place } => named_line(alloc, "uncertified plain ", place.as_str()),
        Mismatch::Setting { place } => named_line(alloc, "uncertified setting ", place.as_str()),
        Mismatch::Item { index } => format!(in alloc; "uncertified item {index}\n"),
        Mismatch::Owner { index } => format!(in alloc; "uncertified owner {index}\n"),
        Mismatch::Binding { name } => named_line(alloc, "uncertified binding ", name.as_str()),
    }
}
