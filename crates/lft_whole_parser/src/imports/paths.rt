//! Paths of files, in their normal form.

ghost use Rattle.std.specs.Prelude.{◌≡◌, ◌-◌, [], IfOk, OnOk, length, map, slice_get, string_bytes};
ghost use Rattle.lft_whole_parser.specs.Imports.Paths.{back, is_absolute as is_from_root, is_back as leads_back, is_folder, joined_path as path_of, meaning, normal as normal_path, root as root_of, stays as leads_nowhere, step, walked};

use std::alloc::{AllocError, Global};

fn is_absolute(path: &str) -> bool
    ensures { result ≡ is_from_root path.now }
{
    match path.as_bytes().first() {
        Some(byte) => *byte == b'/',
        None => false,
    }
}

fn stays(part: &str) -> bool
    ensures { result ≡ leads_nowhere part.now }
{
    // Empty parts stand before a `/` at the front, behind one at the end, and between two.
    part.is_empty() || part == "."
}

fn is_back(part: &str) -> bool
    ensures { result ≡ leads_back part.now }
{
    part == ".."
}

/// Whether there is a last folder, and `..` leads back from it.
fn goes_back(folders: &[&str]) -> bool
    ensures { result ≡ is_folder (slice_get (map (λ x. x.now) folders.now) (length folders.now - 1)) }
{
    match folders.last() {
        Some(last) => !is_back(last),
        None => false,
    }
}

/// Goes on from folders by `..`.
fn push_back<'a>(
    folders: &mut Vec<&'a str>,
    from_root: bool,
    part: &'a str,
) -> Result<(), AllocError>
    ensures { OnOk result (map (λ x. x.now) folders.new.items ≡ back from_root (map (λ x. x.now) folders.old.items) part.now) }
{
    if goes_back(folders) {
        let _last = folders.pop();
        return Ok(());
    }
    // From the root `..` leads to the root.
    if from_root {
        return Ok(());
    }
    // Nothing is left to go back from: the path leads above the folder where it begins.
    folders.push(part)?;
    Ok(())
}

/// Goes on from folders by one part of a path.
fn push_part<'a>(
    folders: &mut Vec<&'a str>,
    from_root: bool,
    part: &'a str,
) -> Result<(), AllocError>
    ensures { OnOk result (map (λ x. x.now) folders.new.items ≡ step from_root (map (λ x. x.now) folders.old.items) part.now) }
{
    if stays(part) {
        return Ok(());
    }
    if is_back(part) {
        return push_back(folders, from_root, part);
    }
    folders.push(part)?;
    Ok(())
}

/// Goes on from folders by a path.
fn push_parts<'a>(
    folders: &mut Vec<&'a str>,
    from_root: bool,
    path: &'a str,
) -> Result<(), AllocError>
    ensures { OnOk result (map (λ x. x.now) folders.new.items ≡ walked from_root (map (λ x. x.now) folders.old.items) path.now) }
{
    for part in path.split('/') {
        push_part(folders, from_root, part)?;
    }
    Ok(())
}

/// The folders that a path leads through, from the root or from here.
fn folders(alloc: Global, from_root: bool, path: &str) -> Result<Vec<&str>, AllocError>
    ensures { IfOk result (λ folders. map (λ x. x.now) folders.items ≡ walked from_root [] path.now) }
{
    let mut folders = Vec::new(alloc);
    push_parts(&mut folders, from_root, path)?;
    Ok(folders)
}

/// What stands before the first folder of a path.
fn root(from_root: bool) -> &'static str
    ensures { result.now ≡ root_of from_root }
{
    if from_root { "/" } else { "" }
}

/// The path of folders.
fn joined(alloc: Global, from_root: bool, folders: &[&str]) -> Result<String, AllocError>
    ensures { IfOk result (λ text. string_bytes text ≡ path_of from_root (map (λ x. x.now) folders.now)) }
{
    // Of no folders the letters would be none, which name no file.
    if folders.is_empty() {
        return String::from_str(alloc, if from_root { "/" } else { "." });
    }
    let mut path = String::from_str(alloc, root(from_root))?;
    path.push_str(folders[0])?;
    for place in 1..folders.len() {
        path.push_str("/")?;
        path.push_str(folders[place])?;
    }
    Ok(path)
}

/// The normal form of a path: `..` stands only at its front, and `.` only alone.
// By its letters alone: no folder is asked for, so a link before `..` counts as a plain folder.
pub(crate) fn normal(alloc: Global, path: &str) -> Result<String, AllocError>
    ensures { IfOk result (λ text. string_bytes text ≡ normal_path path.now) }
{
    let from_root = is_absolute(path);
    let folders = folders(alloc, from_root, path)?;
    joined(alloc, from_root, &folders)
}

/// The path that an import means in the file of another path, in its normal form.
pub(crate) fn imported(alloc: Global, importer: &str, path: &str) -> Result<String, AllocError>
    ensures { IfOk result (λ text. string_bytes text ≡ meaning importer.now path.now) }
{
    if is_absolute(path) {
        return normal(alloc, path);
    }
    let from_root = is_absolute(importer);
    let mut folders = folders(alloc, from_root, importer)?;
    // The last part is the importer itself. What it imports is sought in the folder that it stands in.
    let _file = folders.pop();
    push_parts(&mut folders, from_root, path)?;
    joined(alloc, from_root, &folders)
}
