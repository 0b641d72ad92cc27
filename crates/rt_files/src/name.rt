// Which file a path names.
ghost use Rattle.std.specs.Prelude.{◌≡◌, IfOk, option_map, string_bytes};
ghost use Rattle.std.specs.Option.{option_copied};
ghost use Rattle.rt_files.specs.Names.{are_names, behind_slash, ends_as_folder, file_of, is_name, whole};
ghost use Rattle.rt_files.specs.Places.{is_below, place_of};
ghost use Rattle.rt_files.specs.Kinds.{media_of, media_type_of};
ghost use Rattle.rt_files.specs.laws.Names.{NamesStay};
ghost use Rattle.rt_files.specs.laws.Examples.{FilesNamed, PlacesBelow, TypesKnown};

use std::alloc::{AllocError, Global};
use std::path::Path;

/// The file that the path of a folder names.
pub const INDEX: &str = "index.html";

// Whether a text between slashes is a name: it has no dot in front, so it is neither `.` nor `..`, and names no
// hidden file.
fn is_name(piece: &str) -> bool
    ensures { result ≡ is_name piece.now }
{
    match piece.as_bytes() {
        [] => false,
        [first, ..] => *first != b'.',
    }
}

// Whether all texts between slashes are names.
fn are_names(text: &str) -> bool
    ensures { result ≡ are_names text.now }
{
    for piece in text.split('/') {
        if !is_name(piece) {
            return false;
        }
    }
    true
}

// What stands behind a slash at the front.
fn behind_slash(path: &str) -> Option<&str>
    ensures { option_copied result ≡ behind_slash path.now }
{
    path.strip_prefix('/')
}

// Whether a text is that of a folder.
fn ends_as_folder(text: &str) -> bool
    ensures { result ≡ ends_as_folder text.now }
{
    text.is_empty() || text.as_bytes().ends_with(b"/")
}

// The text, with the name of the file that stands for a folder where it is one's.
fn whole(alloc: Global, text: &str) -> Result<String, AllocError>
    ensures { IfOk result (λ name. string_bytes name ≡ whole text.now) }
{
    let mut name = String::from_str(alloc, text)?;
    if ends_as_folder(text) {
        name.push_str(INDEX)?;
    }
    Ok(name)
}

/// The file below a folder that a path without escapes names, as names between slashes; none where it names none.
/// A path that ends with a slash names the `index.html` there.
///
/// # Errors
///
/// Want of memory.
pub fn file_named(alloc: Global, path: &str) -> Result<Option<String>, AllocError>
    ensures { IfOk result (λ name. option_map string_bytes name ≡ file_of path.now) }
{
    let Some(text) = behind_slash(path) else {
        return Ok(None);
    };
    let name = whole(alloc, text)?;
    if are_names(name.as_str()) {
        Ok(Some(name))
    } else {
        Ok(None)
    }
}

// ---- where a file stands

/// The place of a file below a folder, whose own place ends with no slash.
///
/// # Errors
///
/// Want of memory.
pub fn place_of(alloc: Global, folder: &str, name: &str) -> Result<String, AllocError>
    ensures { IfOk result (λ place. string_bytes place ≡ place_of folder.now name.now) }
{
    let mut place = String::from_str(alloc, folder)?;
    place.push_str("/")?;
    place.push_str(name)?;
    Ok(place)
}

/// Whether a place is one below a folder, whose own place ends with no slash. Both are without links: so a
/// file to which a link leads out of the folder is not below it.
pub fn is_below(folder: &str, place: &str) -> bool
    ensures { result ≡ is_below folder.now place.now }
{
    match place.as_bytes().strip_prefix(folder.as_bytes()) {
        Some(rest) => rest.starts_with(b"/"),
        None => false,
    }
}

// ---- of which media type a file is

// The media type of bytes of which nothing is known.
const BYTES: &str = "application/octet-stream";

// The media type of a file whose name has that behind its last dot.
fn media_of(ending: &str) -> &'static str
    ensures { result.now ≡ media_of ending.now }
{
    match ending {
        "html" => "text/html; charset=utf-8",
        "css" => "text/css; charset=utf-8",
        "js" | "mjs" => "text/javascript; charset=utf-8",
        "json" | "map" => "application/json",
        "webmanifest" => "application/manifest+json",
        "wasm" => "application/wasm",
        "txt" | "md" => "text/plain; charset=utf-8",
        "svg" => "image/svg+xml",
        "png" => "image/png",
        "jpg" | "jpeg" => "image/jpeg",
        "gif" => "image/gif",
        "webp" => "image/webp",
        "ico" => "image/x-icon",
        "woff2" => "font/woff2",
        _ => BYTES,
    }
}

/// The media type of a file, by the end of its name: `text/html; charset=utf-8` of `index.html`, and
/// `application/octet-stream` where the end is none that is known.
pub fn media_type(name: &str) -> &'static str
    ensures { result.now ≡ media_type_of name.now }
{
    match Path::new(name).extension() {
        Some(ending) => media_of(ending),
        None => BYTES,
    }
}

// ---- what holds of all paths

/// A file that a path names is below its folder: none of the names between its slashes leads up.
pub fn names_stay()
    ensures { NamesStay }
{}

/// Paths, places and names that the prover computes.
pub fn examples()
    ensures files { FilesNamed }
    ensures places { PlacesBelow }
    ensures types { TypesKnown }
{}
