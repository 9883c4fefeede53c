// The words that bind variables to files.

ghost use Rattle.std.specs.Prelude.{◌≡◌, ◌++◌, ◌∷◌, [], IfOk, Some, None, map, MatchResult, IfErr};
ghost use Rattle.gx_documents.specs.BindingView.{IsBindingFault, plain_fault, word_bytes};
ghost use Rattle.gx_documents.specs.Bindings.{bound_file, bound_name, file_bound, files_bound, first_missing, first_wrong, is_one_of, misbound};
ghost use Rattle.gx_documents.specs.Bindings.{unknown, doubled, missing};

use std::alloc::{AllocError, Global};

/// Why words do not bind each variable once: a word names no variable, or one that an earlier word names; or no word names
/// this variable.
#[derive(Drop)]
pub enum BindingFault {
    Unknown(String),
    Doubled(String),
    Missing(String),
}

/// Why there are no files: words do not bind each variable once, or memory is wanting.
#[derive(Drop)]
pub enum BindingError {
    Fault(BindingFault),
    Memory,
}

impl From<AllocError> for BindingError {
    ghost use Rattle.std.specs.Prelude.{◌≡◌};
    ghost use Rattle.gx_documents.specs.declared.bindings.BindingError.TheVariants.{Memory};

    ghost from_gives = { λ _ e. e ≡ Memory };

    fn from(_error: AllocError) -> BindingError {
        BindingError::Memory
    }
}

/// The files that words `NAME=FILE` bind variables to, in the order of the variables: each word names another variable, and
/// each variable is named.
pub fn bound_files(
    alloc: Global,
    variables: &[String],
    words: &[String],
) -> Result<Vec<String>, BindingError>
    ensures bound { IfOk result (λ files. misbound (word_bytes variables.now) (word_bytes words.now) ≡ None) }
    ensures files { IfOk result (λ files. word_bytes files.items ≡ files_bound (word_bytes variables.now) (word_bytes words.now)) }
    ensures fault { IfErr result (IsBindingFault (misbound (word_bytes variables.now) (word_bytes words.now))) }
{
    check_words(alloc, variables, words)?;
    check_variables(alloc, variables, words)?;
    Ok(files(alloc, variables, words)?)
}

// Each word names another variable.
fn check_words(alloc: Global, variables: &[String], words: &[String]) -> Result<(), BindingError>
    ensures { MatchResult result (λ _. first_wrong (word_bytes variables.now) [] (word_bytes words.now) ≡ None) (IsBindingFault (first_wrong (word_bytes variables.now) [] (word_bytes words.now))) }
{
    let mut left = words;
    let mut count = 0;
    while let Some((word, others)) = left.split_first() {
        let name = bound_name(word.as_str());
        if !is_one_of(variables, name) {
            return Err(unknown(alloc, name));
        }
        if is_bound(&words[..count], name) {
            return Err(doubled(alloc, name));
        }
        count += 1;
        left = others;
    }
    Ok(())
}

// Each variable is named.
fn check_variables(
    alloc: Global,
    variables: &[String],
    words: &[String],
) -> Result<(), BindingError>
    ensures { MatchResult result (λ _. first_missing (word_bytes variables.now) (map bound_name (word_bytes words.now)) ≡ None)
        (IsBindingFault (first_missing (word_bytes variables.now) (map bound_name (word_bytes words.now)))) }
{
    let mut left = variables;
    while let Some((name, others)) = left.split_first() {
        if !is_bound(words, name.as_str()) {
            return Err(missing(alloc, name.as_str()));
        }
        left = others;
    }
    Ok(())
}

fn unknown(alloc: Global, name: &str) -> BindingError
    ensures { IsBindingFault (Some (unknown name.now)) result }
{
    match String::from_str(alloc, name) {
        Ok(name) => BindingError::Fault(BindingFault::Unknown(name)),
        Err(_) => BindingError::Memory,
    }
}

fn doubled(alloc: Global, name: &str) -> BindingError
    ensures { IsBindingFault (Some (doubled name.now)) result }
{
    match String::from_str(alloc, name) {
        Ok(name) => BindingError::Fault(BindingFault::Doubled(name)),
        Err(_) => BindingError::Memory,
    }
}

fn missing(alloc: Global, name: &str) -> BindingError
    ensures { IsBindingFault (Some (missing name.now)) result }
{
    match String::from_str(alloc, name) {
        Ok(name) => BindingError::Fault(BindingFault::Missing(name)),
        Err(_) => BindingError::Memory,
    }
}

// Whether a name is among these.
fn is_one_of(names: &[String], name: &str) -> bool
    ensures { result ≡ is_one_of (word_bytes names.now) name.now }
{
    let mut left = names;
    while let Some((other, others)) = left.split_first() {
        if name == other.as_str() {
            return true;
        }
        left = others;
    }
    false
}

// Whether one of the words names a variable.
fn is_bound(words: &[String], name: &str) -> bool
    ensures { result ≡ is_one_of (map bound_name (word_bytes words.now)) name.now }
{
    let mut left = words;
    while let Some((word, others)) = left.split_first() {
        if name == bound_name(word.as_str()) {
            return true;
        }
        left = others;
    }
    false
}

// The files of the variables, in their order.
fn files(alloc: Global, variables: &[String], words: &[String]) -> Result<Vec<String>, AllocError>
    ensures { IfOk result (λ files. word_bytes files.items ≡ files_bound (word_bytes variables.now) (word_bytes words.now)) }
{
    let mut files = Vec::with_capacity(alloc, variables.len())?;
    for name in variables {
        let file = file_bound(words, name.as_str());
        files.push(String::from_str(alloc, file)?)?;
    }
    Ok(files)
}

// The file that the first word of a name binds.
fn file_bound<'a>(words: &'a [String], name: &str) -> &'a str
    ensures { result.now ≡ file_bound (word_bytes words.now) name.now }
{
    let mut left = words;
    while let Some((word, others)) = left.split_first() {
        if name == bound_name(word.as_str()) {
            return bound_file(word.as_str());
        }
        left = others;
    }
    ""
}

// A word in front of its first `=`.
fn bound_name(word: &str) -> &str
    ensures { result.now ≡ bound_name word.now }
{
    match word.split_once('=') {
        Some((name, _)) => name,
        None => word,
    }
}

// A word behind its first `=`.
fn bound_file(word: &str) -> &str
    ensures { result.now ≡ bound_file word.now }
{
    match word.split_once('=') {
        Some((_, file)) => file,
        None => "",
    }
}
