// Scripts over SQLite. `./hib` puts a few lines in the place of this file for a trial, which then needs no SQLite.
use crate::streams::serve_over;
use hib_call::Status;
use hib_keeper_sqlite::{SqliteKeeper, in_memory, open_file};
use hib_words::Command;
use sqlite::{File, FileStore};
use std::sync::Wait;
use std::thread::Threads;

/// Does what the words say over the file of this path, or over SQLite in memory for the path `:memory:`.
pub fn serve_file<R: Threads + Wait + Sync>(
    rt: &R,
    host: &HostRuntime,
    words: &[String],
    command: &Option<Command>,
    path: &str,
) -> Status {
    if path == ":memory:" {
        return match in_memory(host.alloc()) {
            Ok(keeper) => serve_over(rt, host, words, command, keeper).0,
            Err(_) => Status::NoMemory,
        };
    }
    match open_file(host, path) {
        Ok(keeper) => over_file(rt, host, words, command, keeper),
        Err(_) => Status::NoMemory,
    }
}

/// Does what the words say over a file, and closes it, so that it stands alone. Where closing fails, what was committed
/// is in the log beside it.
fn over_file<R: Threads + Wait + Sync>(
    rt: &R,
    host: &HostRuntime,
    words: &[String],
    command: &Option<Command>,
    keeper: SqliteKeeper<FileStore<File>>,
) -> Status {
    let (status, keeper) = serve_over(rt, host, words, command, keeper);
    if let Some(connection) = keeper.into_connection() {
        let _ = connection.close();
    }
    status
}
