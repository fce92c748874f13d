// The rows of a SQLite file. `./hib` puts a few lines in the place of this file for a trial, which then needs no
// SQLite.
use crate::tools::serve;
use hib_call::Status;
use hib_keeper_sqlite::open_file;
use hib_toolbox::{Ended, Said};
use std::fs;

/// Does what the words say over the file of this path, which has to be there, and closes it.
pub fn serve_file(rt: &HostRuntime, words: &[String], path: &str) -> (Status, Said) {
    match fs::exists(rt, path) {
        Ok(true) => {}
        Ok(false) | Err(_) => return (Status::StoreFault, Said::Nothing),
    }
    match open_file(rt, path) {
        Ok(keeper) => {
            let Ended { status, said, lent } = serve(rt, words, keeper);
            if let Some(connection) = lent.keeper.into_connection() {
                let _ = connection.close();
            }
            (status, said)
        }
        Err(_) => (Status::NoMemory, Said::Nothing),
    }
}
