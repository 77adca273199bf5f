//! The parts of a panel in buckets.
ghost use Rattle.std.specs.Prelude.{◌≡◌, ◌<◌, ◌≤◌, ◌++◌, ◌^◌, OnOk};
ghost use Rattle.mely_picture.specs.BucketTexts.{part_fill, part_name, part_shape, part_title, part_text, colour_at as colour_of_class};

use crate::digits::{push_numbered, push_word};
use std::alloc::AllocError;

/// How many colours of a shard have a class of their own.
const OWN_CLASSES: usize = 16;

/// What the parts of a panel in buckets have in common.
#[derive(Clone, Copy, Debug, PartialEq, Eq)]
pub struct Scale {
    /// The number of the shard.
    pub number: u32,

    /// How many shards there are.
    pub shards: u16,

    /// How many entries the shard has.
    pub entries: u32,

    /// How many entries a bucket has.
    pub width: u32,
}

/// So many entries of a bucket, made by a core, of the colours of a class, and as many below them.
#[derive(Clone, Copy, Debug, PartialEq, Eq)]
pub struct Part {
    pub core: u16,
    pub bucket: u16,
    pub class: usize,
    pub below: u64,
    pub count: u32,
}

/// The colour of a class that has one of its own, or the least of the last.
pub fn colour_at(scale: &Scale, class: usize) -> u64
    requires { class ≤ 16 }
    ensures value { result ≡ colour_of_class scale.now class }
    ensures range { result < 2 ^ 33 }
{
    u64::from(scale.number) + u64::from(scale.shards) * class as u64
}

/// Adds a part, if it has entries.
pub fn push_part(text: &mut Vec<u8>, scale: &Scale, part: &Part) -> Result<(), AllocError>
    requires { part.now.below < 2 ^ 40 }
    ensures { OnOk result (text.new.items ≡ text.old.items ++ part_text scale.now part.now) }
{
    if part.count == 0 {
        return Ok(());
    }
    push_part_shape(text, scale, part)?;
    push_part_title(text, scale, part)?;
    Ok(())
}

/// Adds a part itself, in the hue of its colour.
fn push_part_shape(text: &mut Vec<u8>, scale: &Scale, part: &Part) -> Result<(), AllocError>
    requires { part.now.below < 2 ^ 40 }
    ensures { OnOk result (text.new.items ≡ text.old.items ++ part_shape scale.now part.now) }
{
    let top = u64::from(scale.width).saturating_sub(part.below + u64::from(part.count));
    push_numbered(text, b"<rect x='", part.bucket as u64)?;
    push_numbered(text, b"' y='", top)?;
    push_numbered(text, b"' width='1' height='", part.count as u64)?;
    push_word(text, b"' fill='")?;
    push_fill(text, scale, part.class)?;
    push_word(text, b"'>")?;
    Ok(())
}

/// Adds the fill of a class.
fn push_fill(text: &mut Vec<u8>, scale: &Scale, class: usize) -> Result<(), AllocError>
    ensures { OnOk result (text.new.items ≡ text.old.items ++ part_fill scale.now class) }
{
    if class < OWN_CLASSES {
        push_numbered(text, b"hsl(", 137 * colour_at(scale, class) % 360)?;
        push_word(text, b",70%,65%)")?;
        return Ok(());
    }
    push_word(text, b"#888")?;
    Ok(())
}

/// Adds what a part says under the pointer.
fn push_part_title(text: &mut Vec<u8>, scale: &Scale, part: &Part) -> Result<(), AllocError>
    ensures { OnOk result (text.new.items ≡ text.old.items ++ part_title scale.now part.now) }
{
    let width = u64::from(scale.width);
    let first = width * u64::from(part.bucket);
    let behind = u64::min(first + width, u64::from(scale.entries));
    push_numbered(text, b"<title>entries ", first)?;
    push_numbered(text, b" to ", behind.saturating_sub(1))?;
    push_numbered(text, b", core ", part.core as u64)?;
    push_word(text, b": ")?;
    push_name(text, scale, part.class)?;
    push_numbered(text, b", entries ", part.count as u64)?;
    push_word(text, b"</title></rect>\n")?;
    Ok(())
}

/// Adds what a class is called.
fn push_name(text: &mut Vec<u8>, scale: &Scale, class: usize) -> Result<(), AllocError>
    ensures { OnOk result (text.new.items ≡ text.old.items ++ part_name scale.now class) }
{
    if class < OWN_CLASSES {
        push_numbered(text, b"colour ", colour_at(scale, class))?;
        return Ok(());
    }
    push_word(text, b"other colours")?;
    Ok(())
}
