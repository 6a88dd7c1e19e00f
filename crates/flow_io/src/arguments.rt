use std::alloc::Global;
use std::rt::Env;
use std::{env, io};

/// Why the words of the command can't be had.
#[derive(Clone, Copy, Debug, PartialEq, Eq)]
pub enum ArgumentsError {
    /// There is no memory for them.
    Memory,
    /// The system refuses them, as where one isn't UTF-8.
    Refused,
}

/// The words of the command, without the program's name.
pub fn read_arguments<R: Env + AllocGlobal>(
    rt: &R,
    alloc: Global,
) -> Result<Vec<String>, ArgumentsError> {
    let mut args = match env::args(rt) {
        Ok(args) => args,
        Err(error) if error.kind() == io::ErrorKind::OutOfMemory => {
            return Err(ArgumentsError::Memory);
        }
        Err(_) => return Err(ArgumentsError::Refused),
    };
    let _program = args.next();
    let mut words = Vec::new(alloc);
    for word in args {
        if words.push(word).is_err() {
            return Err(ArgumentsError::Memory);
        }
    }
    Ok(words)
}
