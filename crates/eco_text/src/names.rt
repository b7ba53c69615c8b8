//! Names that are made where a text doesn't give any: a prefix with which no given name begins, and a number behind it.

ghost use Rattle.std.specs.Prelude.{◌≡◌, ◌==◌, map, IfOk, IsTrue};
ghost use Rattle.std.specs.List.{list_all, prefix_len};
ghost use Rattle.eco_meaning.specs.Names.{is_name, is_printing};
ghost use Rattle.eco_text.specs.Prefix.{fresh_prefix_of, most_underscores, numbered, prefix_of, underscores_of, IsFreshPrefix};

use eco_meaning::{Name, OutOfMemory};
use itoa::Buffer;
use std::alloc::Global;

/// The shortest of the stem with one underscore, with two, with three and so on with which none of the names begins.
///
/// # Errors
///
/// `OutOfMemory` only for want of memory.
pub fn fresh_prefix(alloc: Global, stem: &[u8], names: &[&[u8]]) -> Result<Vec<u8>, OutOfMemory>
    ensures value { IfOk result (λ prefix. prefix.items ≡ fresh_prefix_of stem.now (map (λ name. name.now) names.now)) }
    ensures fresh { IfOk result (λ prefix. IsFreshPrefix stem.now (map (λ name. name.now) names.now) prefix.items) }
{
    let most = most_underscores(stem, names);
    let mut prefix = prefix_with(alloc, stem, most)?;
    prefix.push(b'_')?;
    Ok(prefix)
}

/// The greatest number of underscores that follow the stem at the start of a name; 0 where none follows.
fn most_underscores(stem: &[u8], names: &[&[u8]]) -> usize
    ensures { result ≡ most_underscores stem.now (map (λ name. name.now) names.now) }
{
    let mut most = 0;
    for name in names {
        most = most.max(underscores(stem, name));
    }
    most
}

/// How many underscores follow the stem at the start of the name; 0 where the name doesn't begin with the stem.
fn underscores(stem: &[u8], name: &[u8]) -> usize
    ensures { result ≡ underscores_of stem.now name.now }
{
    if name.starts_with(stem) {
        leading_underscores(&name[stem.len()..])
    } else {
        0
    }
}

/// How many underscores the bytes begin with.
fn leading_underscores(bytes: &[u8]) -> usize
    ensures { result ≡ prefix_len (λ byte. byte == 95) bytes.now }
{
    bytes.iter().take_while(|byte| **byte == b'_').count()
}

/// The stem and this many underscores.
fn prefix_with(alloc: Global, stem: &[u8], underscores: usize) -> Result<Vec<u8>, OutOfMemory>
    ensures { IfOk result (λ prefix. prefix.items ≡ prefix_of stem.now underscores) }
{
    let mut prefix = Vec::from_slice(alloc, stem)?;
    for _ in 0..underscores {
        prefix.push(b'_')?;
    }
    Ok(prefix)
}

/// The name of this number behind the prefix.
///
/// # Errors
///
/// `OutOfMemory` only for want of memory.
pub fn numbered(alloc: Global, prefix: &[u8], number: u64) -> Result<Name, OutOfMemory>
    requires { IsTrue (list_all is_printing prefix.now) }
    ensures { IfOk result (λ name. name ≡ numbered prefix.now number) }
{
    let mut buffer = Buffer::new();
    let mut bytes = Vec::from_slice(alloc, prefix)?;
    bytes.extend_from_slice(buffer.format(number).as_bytes())?;
    name_from(alloc, bytes.as_slice())
}

/// The name of these bytes.
///
/// # Errors
///
/// `OutOfMemory` only for want of memory.
pub fn name_from(alloc: Global, bytes: &[u8]) -> Result<Name, OutOfMemory>
    requires { IsTrue (is_name bytes.now) }
    ensures { IfOk result (λ name. name ≡ bytes.now) }
{
    match Name::new(alloc, bytes)? {
        Some(name) => Ok(name),
        None => unreachable!(),
    }
}
