//! The arguments of the process.

use crate::Words;
use std::alloc::{AllocError, Global};
use std::env::{Env, FillError};

/// Returns the arguments after the program's own name, as bytes.
pub fn words_of<E: Env>(alloc: Global, env: &E) -> Result<Words, AllocError> {
    let mut words = Words::new(alloc);
    for i in 1..usize::MAX {
        match word_at(alloc, env, i)? {
            Some(word) => words.push_bytes(&word)?,
            None => break,
        }
    }
    Ok(words)
}

/// Returns word `i`, or `None` after the last one. The buffer is doubled until the word fits.
fn word_at<E: Env>(alloc: Global, env: &E, i: usize) -> Result<Option<Vec<u8>>, AllocError> {
    for power in 10u32..40 {
        let mut word = vec![in alloc; 0u8; 1usize << power]?;
        match env.arg(i, &mut word) {
            Ok(len) => {
                word.truncate(len);
                return Ok(Some(word));
            }
            Err(FillError::NotPresent) => return Ok(None),
            Err(FillError::TooLong) => continue,
        }
    }
    Err(AllocError)
}
