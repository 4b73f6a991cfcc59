//! A folder's places for the traces of texts.
ghost use Rattle.std.specs.Prelude.{◌≡◌, ◌≤◌, ◌==◌, ◌++◌, IfOk, OnOk, if◌then◌else◌, length, map, nat_lt, string_bytes};
ghost use Rattle.std.specs.Bool.{beq};
ghost use Rattle.std.specs.List.{concat, filter, slice_split};
ghost use Rattle.lab_plays.specs.Folders as folders;
ghost use Rattle.lab_plays.specs.Folders.{behind_slash};

use std::alloc::{AllocError, Global};

// Whether a part of a path leads on.
fn is_step(part: &str) -> bool
    ensures { result ≡ folders.is_step part.now }
{
    !(part.is_empty() || part == ".")
}

// Whether a part of a path names a folder or a file.
fn is_name(part: &str) -> bool
    ensures { result ≡ folders.is_name part.now }
{
    !(part.is_empty() || part == "." || part == "..")
}

// The parts of a path, between slashes.
fn parts_of(alloc: Global, path: &str) -> Result<Vec<&str>, AllocError>
    ensures { IfOk result (λ parts. map (λ part. part.now) parts.items ≡ slice_split (λ b. b == 47) path.now) }
{
    path.split('/').collect(alloc)
}

// The steps among the parts of a path.
fn stepping<'a>(alloc: Global, parts: &[&'a str]) -> Result<Vec<&'a str>, AllocError>
    ensures { IfOk result (λ steps. map (λ step. step.now) steps.items ≡ filter folders.is_step (map (λ part. part.now) parts.now)) }
{
    let mut steps = Vec::new(alloc);
    for part in parts {
        if is_step(part) {
            steps.push(*part)?;
        }
    }
    Ok(steps)
}

// The names among steps.
fn named<'a>(alloc: Global, steps: &[&'a str]) -> Result<Vec<&'a str>, AllocError>
    ensures { IfOk result (λ names. map (λ name. name.now) names.items ≡ filter folders.is_name (map (λ step. step.now) steps.now)) }
{
    let mut names = Vec::new(alloc);
    for step in steps {
        if is_name(step) {
            names.push(*step)?;
        }
    }
    Ok(names)
}

// The steps that a path takes.
fn steps_in(alloc: Global, path: &str) -> Result<Vec<&str>, AllocError>
    ensures { IfOk result (λ steps. map (λ step. step.now) steps.items ≡ folders.steps_in path.now) }
{
    let parts = parts_of(alloc, path)?;
    stepping(alloc, parts.as_slice())
}

// Whether a path takes its steps from the root.
fn is_rooted(path: &str) -> bool
    ensures { result ≡ folders.is_rooted path.now }
{
    path.starts_with("/")
}

// How many steps are those of a folder: all that it has, if they begin with them; else none.
fn begun<'a>(steps: &[&'a str], folder: &[&'a str]) -> usize
    ensures count { result ≡ folders.begun (map (λ step. step.now) folder.now) (map (λ step. step.now) steps.now) }
    ensures within { result ≤ length steps.now }
{
    if steps.starts_with(&*folder) {
        folder.len()
    } else {
        0
    }
}

// Whether there are more steps than a folder has.
fn goes_on(steps: &[&str], folder: &[&str]) -> bool
    ensures { result ≡ nat_lt (length folder.now) (length steps.now) }
{
    folder.len() < steps.len()
}

// How many steps are those of a folder below which they go on.
fn shared<'a>(steps: &[&'a str], folder: &[&'a str]) -> usize
    ensures count { result ≡ folders.shared (map (λ step. step.now) folder.now) (map (λ step. step.now) steps.now) }
    ensures within { result ≤ length steps.now }
{
    if goes_on(steps, folder) {
        begun(steps, folder)
    } else {
        0
    }
}

// The steps after those of a folder.
fn below<'a, 'b>(steps: &'b [&'a str], folder: &[&'a str]) -> &'b [&'a str]
    ensures { map (λ step. step.now) result.now ≡ folders.below (map (λ step. step.now) folder.now) (map (λ step. step.now) steps.now) }
{
    let own = shared(steps, folder);
    &steps[own..]
}

// The same, if both begin at the same place; else all of them.
fn below_if<'a, 'b>(alike: bool, steps: &'b [&'a str], folder: &[&'a str]) -> &'b [&'a str]
    ensures { map (λ step. step.now) result.now ≡ (if alike then folders.below (map (λ step. step.now) folder.now) (map (λ step. step.now) steps.now) else map (λ step. step.now) steps.now) }
{
    if alike { below(steps, folder) } else { steps }
}

// The names that a file's path has below a folder.
fn names_below<'a>(
    alloc: Global,
    folder: &'a str,
    file: &'a str,
) -> Result<Vec<&'a str>, AllocError>
    ensures { IfOk result (λ names. map (λ name. name.now) names.items ≡ folders.names_below folder.now file.now) }
{
    let own = steps_in(alloc, folder)?;
    let steps = steps_in(alloc, file)?;
    let alike = is_rooted(folder) == is_rooted(file);
    named(alloc, below_if(alike, steps.as_slice(), own.as_slice()))
}

// Writes names, each after a slash.
fn put_names(path: &mut String, names: &[&str]) -> Result<(), AllocError>
    ensures { OnOk result (string_bytes path.new ≡ string_bytes path.old ++ concat (map behind_slash (map (λ name. name.now) names.now))) }
{
    for name in names {
        path.push_str("/")?;
        path.push_str(name)?;
    }
    Ok(())
}

// A path without `.toml` at its end.
fn stem_of(path: &str) -> &str
    ensures { result.now ≡ folders.stem_of path.now }
{
    match path.strip_suffix(".toml") {
        Some(stem) => stem,
        None => path,
    }
}

// A folder's path, of which an empty one is that of the program's own.
fn base_of(folder: &str) -> &str
    ensures { result.now ≡ folders.base_of folder.now }
{
    if folder.is_empty() { "." } else { folder }
}

/// The path of the trace that a folder has of a file.
pub fn trace_path(alloc: Global, folder: &str, file: &str) -> Result<String, AllocError>
    ensures { IfOk result (λ path. string_bytes path ≡ folders.trace_path folder.now file.now) }
{
    let names = names_below(alloc, folder, file)?;
    let mut path = String::from_str(alloc, base_of(folder))?;
    put_names(&mut path, names.as_slice())?;
    let mut whole = String::from_str(alloc, stem_of(path.as_str()))?;
    whole.push_str(".trace")?;
    Ok(whole)
}
