// The words of the command line, as the system gives them.
use hib_call::Status;
use std::{env, io};

/// The words of the command line after the program's name; or how the program ends if they can't be had: a word that
/// isn't UTF-8 is no word of a command. Another failure of the host is handed on.
pub fn words_given(host: &HostRuntime) -> io::Result<Result<Vec<String>, Status>> {
    let mut words = Vec::new(host.alloc());
    match env::args(host) {
        Ok(args) => {
            for word in args.skip(1) {
                if words.push(word).is_err() {
                    return Ok(Err(Status::NoMemory));
                }
            }
            Ok(Ok(words))
        }
        Err(error) if error.kind() == io::ErrorKind::InvalidData => Ok(Err(Status::Usage)),
        Err(error) if error.kind() == io::ErrorKind::OutOfMemory => Ok(Err(Status::NoMemory)),
        Err(error) => Err(error),
    }
}
