// Files in memory, as a list of names and bytes.
ghost use Rattle.std.specs.Prelude.{◌≡◌, IfOk, OnOk, OnErr, position, IsTrue, ◌↔◌};
ghost use Rattle.std.specs.String.{string_bytes};
ghost use Rattle.std.specs.Str.{bytes_eq};
ghost use Rattle.std.specs.List.{list_any};
ghost use Rattle.std.specs.Option.{option_copied};
ghost use Rattle.std.specs.FinMap as finite;
ghost use Rattle.eco_outside.specs.Kept.{files_of, have_own_names as own_names};

use std::alloc::{AllocError, Global};

/// The place of the first file of that name.
fn place_of(files: &[(String, Vec<u8>)], name: &str) -> Option<usize>
    ensures { result ≡ position (λ file. bytes_eq (string_bytes file.0) name.now) files.now }
{
    files.iter().position(|file| file.0.as_str() == name)
}

/// The bytes of the file of that name.
pub(crate) fn find_file<'a>(files: &'a [(String, Vec<u8>)], name: &str) -> Option<&'a [u8]>
    ensures { option_copied result ≡ finite.get (files_of files.entry.now) name.now }
{
    match place_of(files, name) {
        Some(place) => Some(files[place].1.as_slice()),
        None => None,
    }
}

/// Puts a copy of these bytes under that name, all other files stay.
pub(crate) fn put_bytes(
    files: &mut Vec<(String, Vec<u8>)>,
    alloc: Global,
    name: &str,
    bytes: &[u8],
) -> Result<(), AllocError>
    ensures ok { OnOk result (files_of files.new.items ≡ finite.insert (files_of files.old.items) name.now bytes.now) }
    ensures err { OnErr result (files.new.items ≡ files.old.items) }
{
    let file = (
        String::from_str(alloc, name)?,
        Vec::from_slice(alloc, bytes)?,
    );
    match place_of(files, name) {
        Some(place) => files[place] = file,
        None => files.push(file)?,
    }
    Ok(())
}

/// Whether one of the files has that name.
fn has_name(files: &[(String, Vec<u8>)], name: &str) -> bool
    ensures { result ≡ list_any (λ file. bytes_eq (string_bytes file.0) name.now) files.now }
{
    files.iter().any(|file| file.0.as_str() == name)
}

/// Whether no two of the files have one name. It compares each with each, so it is for few files.
pub fn have_own_names(files: &[(String, Vec<u8>)]) -> bool
    ensures { result ≡ own_names files.now }
{
    let mut rest = files;
    while let [file, others @ ..] = rest {
        if has_name(others, file.0.as_str()) {
            return false;
        }
        rest = others;
    }
    true
}
