//! The words of the program's call.

use std::alloc::{AllocError, Global};
use std::env::{Env, FillError};

/// The words behind the program's name, each as its bytes. The name itself isn't asked for, so it may be any bytes.
/// That the environment tells the words of the call no clause can say.
pub fn words_after_name<R: Env>(alloc: Global, env: &R) -> Result<Vec<Vec<u8>>, AllocError> {
    let mut words = Vec::new(alloc);
    for place in 1..usize::MAX {
        let Some(bytes) = bytes_at(alloc, env, place)? else {
            break;
        };
        words.push(bytes)?;
    }
    Ok(words)
}

/// The bytes of the word at a place, or `None` past the last one. A word that fills more than 2^31 bytes is taken for want of memory.
fn bytes_at<R: Env>(alloc: Global, env: &R, place: usize) -> Result<Option<Vec<u8>>, AllocError> {
    for power in 8..32u32 {
        let mut bytes = vec![in alloc; 0u8; 1usize << power]?;
        match env.arg(place, &mut bytes) {
            Ok(length) => {
                bytes.truncate(length);
                return Ok(Some(bytes));
            }
            Err(FillError::NotPresent) => return Ok(None),
            Err(FillError::TooLong) => {}
        }
    }
    Err(AllocError)
}
