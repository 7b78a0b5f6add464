use crate::error::WordsError;
use std::alloc::Global;
use std::env;
use std::io::ErrorKind;
use std::rt::Env;

/// The words of a program's command line after its name. Words that aren't text are refused.
pub fn words_of<R: Env + Alloc<A = Global>>(rt: &R) -> Result<Vec<String>, WordsError> {
    let args = match env::args(rt) {
        Ok(args) => args,
        Err(e) if e.kind() == ErrorKind::OutOfMemory => return Err(WordsError::Memory),
        Err(_) => return Err(WordsError::Usage),
    };
    let mut words = Vec::new(rt.alloc());
    for word in args.skip(1) {
        let Ok(()) = words.push(word) else {
            return Err(WordsError::Memory);
        };
    }
    Ok(words)
}
