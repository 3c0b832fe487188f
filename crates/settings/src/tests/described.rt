ghost use Rattle.std.specs.Iterator.{IsFinite};

use face::{Face, Fault, Key, LARGEST, Look, Part, Variant};
use math_table::MathTable;
use std::alloc::Global;
use std::fmt;
use std::fmt::{Display, Write};
use std::test::Fail;

// What a table answers for a key, or `refused 14` where no face is made of it.
pub fn described_table(heap: Global, table: &[u8], key: Key) -> Result<String, Fail> {
    match MathTable::new(table, 0) {
        Ok(face) => described(heap, &face, key),
        Err(refusal) => Ok(format!(in heap; "refused {}", refusal as u8)?),
    }
}

// What a face answers for a key, in a few words: `unknown`, `fault CAUSE at PLACE`, or the least overlap, then
// `v GLYPH ADVANCE` for each variant and `p GLYPH START END FULL` for each part, with an `x` behind an extender.
// Before it stands `limit LIMIT: ` if that is below the largest. Behind a fault stands its glyph if that is not the
// key's, and its layer and how many layers passed it up if they are not 0.
pub fn described<F: Face>(heap: Global, face: &F, key: Key) -> Result<String, Fail> {
    let mut text = String::new(heap);
    let (variants, parts) = match face.look(key) {
        Ok(Some(look)) => {
            write!(text, "{}", InWords(look))?;
            (look.variants, look.parts)
        }
        Ok(None) => {
            text.push_str("unknown")?;
            (0, 0)
        }
        Err(fault) => {
            write!(text, "{}", FaultOf { key, fault })?;
            (0, 0)
        }
    };
    // One more is asked for than there are, so that an entry too many would show.
    describe_entries(
        &mut text,
        (0..=variants).filter_map(|index| face.variant(key, index)),
    )?;
    describe_entries(
        &mut text,
        (0..=parts).filter_map(|index| face.part(key, index)),
    )?;
    Ok(text)
}

fn describe_entries<T: Copy, I: Iterator<Item = T>>(
    text: &mut String,
    entries: I,
) -> Result<(), Fail>
where
    InWords<T>: Display,
    requires can { I.can_next entries }
    requires ends { IsFinite (I.remaining entries) }
{
    for entry in entries {
        write!(text, ", {}", InWords(entry))?;
    }
    Ok(())
}

// A value in a few words.
#[derive(Drop)]
struct InWords<T>(T);

impl Display for InWords<Look> {
    fn fmt<W: fmt::Write>(&self, f: &mut fmt::Formatter<W>) -> fmt::Result {
        let InWords(look) = self;
        if look.limit < LARGEST {
            write!(f, "limit {}: ", look.limit)?;
        }
        write!(f, "{}", look.least)
    }
}

impl Display for InWords<Variant> {
    fn fmt<W: fmt::Write>(&self, f: &mut fmt::Formatter<W>) -> fmt::Result {
        let InWords(variant) = self;
        write!(f, "v {} {}", variant.glyph, variant.advance)
    }
}

impl Display for InWords<Part> {
    fn fmt<W: fmt::Write>(&self, f: &mut fmt::Formatter<W>) -> fmt::Result {
        let InWords(part) = self;
        let extender = if part.extender { " x" } else { "" };
        write!(
            f,
            "p {} {} {} {}{extender}",
            part.glyph, part.start, part.end, part.full
        )
    }
}

// A fault that a key has.
#[derive(Drop)]
struct FaultOf {
    key: Key,
    fault: Fault,
}

impl Display for FaultOf {
    fn fmt<W: fmt::Write>(&self, f: &mut fmt::Formatter<W>) -> fmt::Result {
        let FaultOf { key, fault } = self;
        write!(f, "fault {} at {}", fault.cause as u8, fault.place)?;
        if fault.glyph != key.glyph {
            write!(f, ", glyph {}", fault.glyph)?;
        }
        let layer = fault.layer as u8;
        if layer > 0 {
            write!(f, ", layer {layer}")?;
        }
        if fault.passed > 0 {
            write!(f, ", passed {}", fault.passed)?;
        }
        Ok(())
    }
}
