// A request, and why a line is none.

/// What tells a request's answer apart: it comes back in the answer.
#[derive(Drop)]
pub enum Id {
    /// A text.
    Text(String),
    /// A whole number.
    Number(u64),
}

/// What a request asks for. Sessions have names of the application's own.
#[derive(Drop)]
pub enum Asked {
    /// A session's statement, as a line of a script.
    Say {
        /// The name of the session.
        session: String,
        /// The statement.
        statement: String,
    },
    /// The steps that a session's statement has left, since memory ran out in it.
    GoOn {
        /// The name of the session.
        session: String,
    },
    /// That a session is killed.
    Kill {
        /// The name of the session.
        session: String,
    },
    /// That a row is dropped from its region.
    Evict {
        /// The name of the entity.
        entity: String,
        /// The identifier of the row.
        id: u64,
    },
    /// A restart.
    Restart,
    /// That the run ends.
    End,
}

/// Why a line is no request.
#[derive(Drop)]
pub enum Fault {
    /// It has more than 64 KiB.
    Long,
    /// It is no JSON object in UTF-8.
    NotAnObject,
    /// It has a member of this name, which no request has: the first one, in the order of the names.
    Unknown(String),
    /// Its members are together those of no request, or one isn't of its form.
    Members,
}

/// A line, as it was read.
#[derive(Drop)]
pub struct Request {
    /// What tells its answer apart, if it has that.
    pub id: Option<Id>,
    /// What it asks for, or why it is no request.
    pub asked: Result<Asked, Fault>,
}
