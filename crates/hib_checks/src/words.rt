// The words of the command line, and the help, by direct calls.
use hib_words::{Command, help, read};
use std::alloc::{AllocError, Global};

/// These words.
pub fn words_of(alloc: Global, words: &[&str]) -> Result<Vec<String>, AllocError> {
    let mut owned = Vec::new(alloc);
    for word in words {
        owned.push(String::from_str(alloc, word)?)?;
    }
    Ok(owned)
}

/// Whether `play --file=a=b` is read, with its whole path.
pub fn keeps_a_path(alloc: Global) -> Result<bool, AllocError> {
    let words = words_of(alloc, &["play", "--file=a=b"])?;
    match read(alloc, &words)? {
        Some(Command::Play { options }) => Ok(
            options.file.is_some_and(|path| path.as_str() == "a=b"),
        ),
        _ => Ok(false),
    }
}

/// Whether a hundred thousand words are read, and have no form.
pub fn refuses_many(alloc: Global) -> Result<bool, AllocError> {
    let words = vec![in alloc; String::from_str(alloc, "audit")?; 100_000]?;
    Ok(read(alloc, &words)?.is_none())
}

/// Whether the help shows the command that is built.
pub fn helps(alloc: Global) -> Result<bool, AllocError> {
    Ok(help(alloc)?.as_str().contains("\nUsage: hib play"))
}
