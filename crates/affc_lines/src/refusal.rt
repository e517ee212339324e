//! Why a command is refused.
ghost use Rattle.std.specs.Prelude.{◌≡◌, ◌++◌, List, ℕ, IfOk, codes, string_bytes};
ghost use Rattle.affc_io.specs.State.{SinkCounts};
ghost use Rattle.affc_lines.specs.Told.{Told, IsTold};
ghost use Rattle.affc_lines.specs.Lines.{status_of, data_line, unread_words};
ghost use Rattle.affc_lines.specs.Words.{name_words, limit_words, source_line, fault_line};

use crate::certificate::{certificate_line, check_line};
use affc_ast::text::Text;
use affc_cert::CertFault;
use affc_check::CheckFault;
use affc_grammar::fault::{LimitName, NameWhy};
use affc_io::{Sink, put_all};
use affc_parse::fault::ParseFault;
use std::alloc::{AllocError, Global};

/// A file that a command names.
#[derive(Clone, Copy)]
pub enum Operand {
    /// SRC
    Source,
    /// SCHED
    Schedule,
    /// DATA
    Data,
    /// CERT
    Certificate,
}

/// Why a file isn't read.
#[derive(Clone, Copy)]
pub enum UnreadWhy {
    /// It is missing, or its read failed.
    Unreadable,
    /// It has more bytes than are read.
    Long,
}

/// Why a command isn't done.
#[derive(Drop)]
pub enum Refusal {
    /// The words are no command form.
    Words,
    /// A file isn't read.
    Unread { file: Operand, why: UnreadWhy },
    /// No program reads as the source.
    Source(ParseFault),
    /// The source has the prelude, as printed texts do, and it begins at this byte.
    Printed(usize),
    /// The schedule is no plan of the program, as the line says.
    Schedule(Text),
    /// Something is wrong with the program whatever its data, as the line says.
    Meaning(Text),
    /// The run is stuck, as the line says.
    Stuck(Text),
    /// The schedule turns a dependence round, as the line says.
    Illegal(Text),
    /// The budget is spent.
    Budget,
    /// Memory is short.
    Memory,
    /// The text is no certificate of the program with the plan's bases.
    Certificate(CertFault),
    /// The certificate isn't valid.
    Check(CheckFault),
    /// The run takes more steps than it may.
    Steps,
    /// The first line of the data that is wrong, counted from 1.
    Data(u64),
}

fn name_words(why: NameWhy) -> &'static str
    ensures { result.now ≡ name_words why }
{
    match why {
        NameWhy::Unknown => "name unknown",
        NameWhy::Twice => "name twice",
        NameWhy::Reserved => "name reserved",
        NameWhy::Const => "name const",
        NameWhy::Kind => "name kind",
        NameWhy::NoRange => "name range",
    }
}

fn limit_words(which: LimitName) -> &'static str
    ensures { result.now ≡ limit_words which }
{
    match which {
        LimitName::Size => "limit size",
        LimitName::Tokens => "limit tokens",
        LimitName::Run => "limit run",
        LimitName::Depth => "limit depth",
        LimitName::Items => "limit items",
        LimitName::Parameters => "limit parameters",
        LimitName::Range => "limit range",
        LimitName::Loops => "limit loops",
        LimitName::Statements => "limit statements",
        LimitName::Empty => "limit empty",
        LimitName::Accesses => "limit accesses",
        LimitName::Dimensions => "limit dimensions",
        LimitName::Comparisons => "limit comparisons",
        LimitName::Literal => "limit literal",
        LimitName::Coefficient => "limit coefficient",
        LimitName::Pieces => "limit pieces",
    }
}

impl UnreadWhy {
    // What is said of the file, in front of its name.
    fn words(self) -> &'static str
        ensures { result.now ≡ unread_words self }
    {
        match self {
            UnreadWhy::Unreadable => "affc: read ",
            UnreadWhy::Long => "affc: too long ",
        }
    }
}

// What is said of data, without the line's end.
fn data_line(alloc: Global, number: u64) -> Result<String, AllocError>
    ensures { IfOk result (λ line. string_bytes line ≡ data_line number) }
{
    let mut line = String::new(alloc);
    line.push_str("affc: data line ")?;
    write!(line, "{number}")?;
    Ok(line)
}

// What is said of a source at a place, without the line's end.
fn source_line(alloc: Global, place: usize, words: &str) -> Result<String, AllocError>
    ensures { IfOk result (λ line. string_bytes line ≡ source_line place words.now) }
{
    let mut line = String::new(alloc);
    line.push_str("affc: source at ")?;
    write!(line, "{place}")?;
    line.push_str(": ")?;
    line.push_str(words)?;
    Ok(line)
}

// What is said of a text that is no program, without the line's end.
fn fault_line(alloc: Global, fault: &ParseFault) -> Result<String, AllocError>
    ensures { IfOk result (λ line. string_bytes line ≡ fault_line fault.now) }
{
    match fault {
        ParseFault::Memory => String::from_str(alloc, "affc: memory"),
        ParseFault::BadByte(place) => source_line(alloc, *place, "byte"),
        ParseFault::OpenComment(place) => source_line(alloc, *place, "comment"),
        ParseFault::LongNumber(place) => source_line(alloc, *place, "number"),
        ParseFault::Syntax(place) => source_line(alloc, *place, "syntax"),
        ParseFault::Name { place, why } => source_line(alloc, *place, name_words(*why)),
        ParseFault::NotAffine(place) => source_line(alloc, *place, "not affine"),
        ParseFault::Limit { place, which } => source_line(alloc, *place, limit_words(*which)),
    }
}

impl Refusal {
    /// The exit status.
    pub fn status(&self) -> u8
        ensures { result ≡ status_of self.now }
    {
        match self {
            Refusal::Words => 2,
            Refusal::Unread { file: _, why: _ } => 3,
            Refusal::Source(_) => 4,
            Refusal::Printed(_) => 4,
            Refusal::Schedule(_) => 6,
            Refusal::Meaning(_) => 5,
            Refusal::Stuck(_) => 5,
            Refusal::Illegal(_) => 7,
            Refusal::Budget => 8,
            Refusal::Memory => 9,
            Refusal::Certificate(_) => 11,
            Refusal::Check(_) => 11,
            Refusal::Steps => 12,
            Refusal::Data(_) => 13,
        }
    }

    /// Writes the line, where `name` is the file that is meant, and answers the status: that of want of memory,
    /// with its line, where there is none for this one's.
    pub fn tell<E: Sink>(&self, alloc: Global, err: &mut E, name: &str) -> u8
        ensures counts { SinkCounts (E.state err.old) (E.state err.new) }
        ensures told { IsTold self.now name.now (E.state err.old) (E.state err.new)
            result }
    {
        match self {
            Refusal::Words => put_line(err, "affc: words", ""),
            Refusal::Unread { file: _, why } => put_line(err, why.words(), name),
            Refusal::Source(fault) => match fault_line(alloc, fault) {
                Ok(line) => put_line(err, line.as_str(), ""),
                Err(_) => return tell_short(err),
            },
            Refusal::Printed(place) => match source_line(alloc, *place, "printed") {
                Ok(line) => put_line(err, line.as_str(), ""),
                Err(_) => return tell_short(err),
            },
            Refusal::Schedule(line) => put_line(err, line.as_str(), ""),
            Refusal::Meaning(line) => put_line(err, line.as_str(), ""),
            Refusal::Stuck(line) => put_line(err, line.as_str(), ""),
            Refusal::Illegal(line) => put_line(err, line.as_str(), ""),
            Refusal::Budget => put_line(err, "affc: budget", ""),
            Refusal::Memory => put_line(err, "affc: memory", ""),
            Refusal::Certificate(fault) => match certificate_line(alloc, fault) {
                Ok(line) => put_line(err, line.as_str(), ""),
                Err(_) => return tell_short(err),
            },
            Refusal::Check(fault) => match check_line(alloc, fault) {
                Ok(line) => put_line(err, line.as_str(), ""),
                Err(_) => return tell_short(err),
            },
            Refusal::Steps => put_line(err, "affc: steps", ""),
            Refusal::Data(number) => match data_line(alloc, *number) {
                Ok(line) => put_line(err, line.as_str(), ""),
                Err(_) => return tell_short(err),
            },
        }
        self.status()
    }
}

/// Says that memory is short, and answers the status.
pub fn tell_short<E: Sink>(err: &mut E) -> u8
    ensures counts { SinkCounts (E.state err.old) (E.state err.new) }
    ensures told { Told (E.state err.old).taken (E.state err.old) (E.state err.new)
        (codes "affc: memory\n") }
    ensures status { result ≡ 9 }
{
    put_line(err, "affc: memory", "");
    Refusal::Memory.status()
}

/// Says that the words are no command form, and answers the status.
pub fn tell_words<E: Sink>(err: &mut E) -> u8
    ensures counts { SinkCounts (E.state err.old) (E.state err.new) }
    ensures told { Told (E.state err.old).taken (E.state err.old) (E.state err.new)
        (codes "affc: words\n") }
    ensures status { result ≡ 2 }
{
    put_line(err, "affc: words", "");
    Refusal::Words.status()
}

/// Writes a line, as far as the sink takes it.
pub fn put_line<E: Sink>(err: &mut E, head: &str, name: &str)
    ensures counts { SinkCounts (E.state err.old) (E.state err.new) }
    ensures told { Told (E.state err.old).taken (E.state err.old) (E.state err.new)
        (head.now ++ name.now ++ codes "\n") }
{
    let Ok(()) = put_all(err, head.as_bytes()) else {
        return;
    };
    let Ok(()) = put_all(err, name.as_bytes()) else {
        return;
    };
    let _ = put_all(err, b"\n");
}
