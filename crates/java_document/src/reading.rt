ghost use Rattle.std.specs.Prelude.{◌≡◌, ◌+◌, ◌<◌, ◌≤◌, ◌↔◌, length, codes, nat_eq, None, Ok, IsTrue, IsFalse, IfOk, IfSome, IsErrOf};
ghost use Rattle.std.specs.List.{ends_with};
ghost use Rattle.java_tree.specs.Names.{is_name, is_container, is_source_path};
ghost use Rattle.java_tree.specs.declared.limits.TheConstants.{MAX_TEXT};
ghost use Rattle.java_tree.specs.declared.outline.Level.TheVariants.{Java14};
ghost use Rattle.java_model.specs.Texts.{IsOutlineOf};
ghost use Rattle.java_document.specs.Readings.{IsUnitOfAText, IsUnitIfAny, IsOutlineIfAny, ReadsAs};
ghost use Rattle.java_document.specs.Documents.{IsDocument, bytes_read};

use crate::document::Document;
use crate::fault::DocFault;
use crate::outline::outline_of;
use java_parse_unit::{Unreadable, parse_at};
use java_tree::{Level, MAX_TEXT, Outline, Text, Unit, is_source_path};
use jx_io::Steps;
use std::alloc::{AllocError, Global};

/// The unit that a parser answered, or none where it found the text unreadable.
fn readable(parsed: Result<Unit, Unreadable>) -> Result<Option<Unit>, AllocError>
    ensures { ReadsAs parsed result }
{
    match parsed {
        Ok(unit) => Ok(Some(unit)),
        Err(Unreadable::Scan(_)) => Ok(None),
        Err(Unreadable::NoTree) => Ok(None),
        Err(Unreadable::NoMemory) => Err(AllocError),
    }
}

/// The unit of a text, or none where it is unreadable.
fn unit_at<L>(
    alloc: Global,
    level: Level,
    text: &str,
    steps: &mut Steps<L>,
) -> Result<Option<Unit>, AllocError>
    requires { length text.now ≤ MAX_TEXT }
    ensures unit { IfOk result (IsUnitIfAny level text.now) }
    ensures steps { steps.new ≡ steps.old + length text.now }
{
    readable(parse_at(alloc, level, text, steps))
}

/// The outline of a unit, or none where there is no unit.
fn outline_if_any(alloc: Global, unit: &Option<Unit>) -> Result<Option<Outline>, AllocError>
    requires { IfSome unit.now IsUnitOfAText }
    ensures outline { IfOk result (IsOutlineIfAny unit.now) }
    ensures none { unit.now ≡ None → result ≡ Ok None }
{
    match unit {
        Some(unit) => Ok(Some(outline_of(alloc, unit)?)),
        None => Ok(None),
    }
}

/// The outline of a text, or none where it is unreadable.
fn outline_at<L>(
    alloc: Global,
    level: Level,
    text: &str,
    steps: &mut Steps<L>,
) -> Result<Option<Outline>, AllocError>
    requires { length text.now ≤ MAX_TEXT }
    ensures outline { IfOk result (IsOutlineOf level text.now) }
    ensures steps { steps.new ≡ steps.old + length text.now }
{
    let unit = unit_at(alloc, level, text, steps)?;
    outline_if_any(alloc, &unit)
}

impl Document {
    /// The document of a text at a source level. It takes one pass over the text.
    pub fn read_at<L>(
        alloc: Global,
        level: Level,
        container: Text,
        path: Text,
        text: Text,
        steps: &mut Steps<L>,
    ) -> Result<Document, DocFault>
        requires in_container { IsTrue (is_container container) }
        requires named { IsTrue (is_name path) }
        ensures document { IfOk result (IsDocument level container path text) }
        ensures not_source { IsErrOf result DocFault.NotSource ↔ IsFalse (ends_with nat_eq path (codes ".java")) }
        ensures too_long { IsErrOf result DocFault.TooLong ↔ (IsTrue (is_source_path path) × (MAX_TEXT < length text)) }
        ensures steps { steps.new ≡ steps.old + bytes_read path text }
    {
        if !is_source_path(path.as_str()) {
            return Err(DocFault::NotSource);
        }
        if text.len() > MAX_TEXT {
            return Err(DocFault::TooLong);
        }
        let outline = outline_at(alloc, level, text.as_str(), steps)?;
        Ok(Document {
            container,
            path,
            text,
            level,
            outline,
        })
    }

    /// The same of Java 1.4.
    pub fn read<L>(
        alloc: Global,
        container: Text,
        path: Text,
        text: Text,
        steps: &mut Steps<L>,
    ) -> Result<Document, DocFault>
        requires in_container { IsTrue (is_container container) }
        requires named { IsTrue (is_name path) }
        ensures document { IfOk result (IsDocument Java14 container path text) }
        ensures not_source { IsErrOf result DocFault.NotSource ↔ IsFalse (ends_with nat_eq path (codes ".java")) }
        ensures too_long { IsErrOf result DocFault.TooLong ↔ (IsTrue (is_source_path path) × (MAX_TEXT < length text)) }
        ensures steps { steps.new ≡ steps.old + bytes_read path text }
    {
        Document::read_at(alloc, Level::Java14, container, path, text, steps)
    }

    /// The unit of the text, or none exactly where it is unreadable. It parses the text.
    pub fn unit<L>(&self, alloc: Global, steps: &mut Steps<L>) -> Result<Option<Unit>, AllocError>
        ensures unit { IfOk result (IsUnitIfAny self.now.level self.now.text) }
        ensures steps { steps.new ≡ steps.old + length self.now.text }
    {
        unit_at(alloc, self.level, self.text.as_str(), steps)
    }
}
