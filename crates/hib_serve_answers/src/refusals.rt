// Why a request is refused.
ghost use Rattle.hib_serve_answers.specs.Refusals.{word_of, why_of};
ghost use Rattle.std.specs.Option.{option_map};
ghost use Rattle.std.specs.Prelude.{◌≡◌};

use hib_base::Kind;

/// Why a request is refused. Nothing has changed then.
#[derive(Drop)]
pub enum Refusal {
    /// The line is no JSON object in UTF-8.
    Line,
    /// The line is too long.
    Long,
    /// No request has a member of this name.
    Unknown(String),
    /// The members are together those of no request, or one isn't of its form.
    Members,
    /// No session has this name.
    Session,
    /// The session was killed.
    Killed,
    /// A statement of the session has steps left.
    Busy,
    /// The statement is none, for this reason.
    Statement(Kind),
    /// The statement is of something that isn't declared.
    Unfit,
    /// Memory ran out.
    Memory,
}

impl Refusal {
    /// The word that names it.
    pub fn word(&self) -> &'static [u8]
        ensures { result.now ≡ word_of self.now }
    {
        match self {
            Refusal::Line => b"line",
            Refusal::Long => b"long",
            Refusal::Unknown(_) => b"member",
            Refusal::Members => b"member",
            Refusal::Session => b"session",
            Refusal::Killed => b"killed",
            Refusal::Busy => b"busy",
            Refusal::Statement(_) => b"statement",
            Refusal::Unfit => b"statement",
            Refusal::Memory => b"memory",
        }
    }

    /// What says more, if anything does: the name of the member, or the word of the statement's fault.
    pub fn why(&self) -> Option<&[u8]>
        ensures { option_map (λ s. s.now) result ≡ why_of self.now }
    {
        match self {
            Refusal::Unknown(name) => Some(name.as_bytes()),
            Refusal::Statement(kind) => Some(kind.word()),
            _ => None,
        }
    }
}
