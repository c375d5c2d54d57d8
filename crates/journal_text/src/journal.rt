//! A journal, read, and what a transcript has behind it.
ghost use Rattle.std.specs.Prelude.{◌≡◌, ◌<◌, ◌≤◌, ◌+◌, ◌-◌, ◌^◌, ℕ, List, Err, length, drop, IfOk, MatchResult};
ghost use Rattle.plain_machine.specs.Exchanges.{Exchange as Meant, started_by};
ghost use Rattle.host_link.specs.Meaning.{answer_of, exchanges_of};
ghost use Rattle.plain_machine.specs.Grammar.{line_feeds};
ghost use Rattle.journal_text.specs.Lines.{session, transcript, longest_session};
ghost use Rattle.journal_text.specs.Allowed.{IsJournal, AreAnswered};
ghost use Rattle.journal_text.specs.Journals.{IsReadTo, HasNoJournal, IsFaultLine};
ghost use Rattle.journal_text.specs.Transcripts.{IsTranscriptTo, IsPlaced, HasNoTranscript};
ghost use Rattle.journal_text.specs.Transcripts.{IsLinedFront, IsTranscriptFault};

use crate::exchange::exchange;
use crate::pieces::{behind, claim};
use ek_types::{ListOf, Mem, NoMemory};
use host_link::{Answer, Exchanges};
use std::alloc::Global;

/// How many bytes a journal, the line behind it and a script may have together.
pub const LONGEST_SESSION: usize = 268_435_456;

/// Why bytes were not read as a journal.
#[derive(Clone, Copy, Debug, PartialEq, Eq)]
pub enum JournalFault {
    /// No front of the bytes is a journal and the line `script`. The line is the one behind the good lines at the front,
    /// counted from 1.
    Line(u32),
    /// Memory was wanting.
    NoMemory,
}

impl From<NoMemory> for JournalFault {
    ghost use Rattle.journal_text.specs.declared.journal.JournalFault.TheVariants as fault;

    ghost from_gives = { λ _ e. e ≡ fault.NoMemory };

    fn from(_: NoMemory) -> JournalFault {
        JournalFault::NoMemory
    }
}

/// The number of the next child behind an answer.
fn next_child(next: u32, answer: &Answer) -> u32
    requires { next < 2 ^ 32 - 1 }
    ensures { result ≡ next + length (started_by (answer_of answer.now)) }
{
    match answer {
        Answer::Started(_) => next + 1,
        _ => next,
    }
}

/// The exchanges of the good lines at the front of the bytes, and the bytes behind them.
fn good_lines(alloc: Global, bytes: &[u8]) -> Mem<(Exchanges, &[u8])>
    requires { length bytes.now ≤ longest_session }
    ensures { IfOk result (λ r. IsLinedFront bytes.now (exchanges_of r.0) r.1.now) }
{
    let mut list = ListOf::new(alloc);
    let mut next = 0;
    let mut rest = bytes;
    'lines: loop {
        let Some((line, behind_line)) = exchange(alloc, next, rest)? else {
            return Ok((list, rest));
        };
        next = next_child(next, &line.answer);
        list.push(line)?;
        rest = behind_line;
    }
}

/// The exchanges of the journal at the front of the bytes, and the place where the script behind it begins. At most
/// 268,435,456 bytes are given. They are read in one go from left to right.
pub fn read_journal(alloc: Global, bytes: &[u8]) -> Result<(Exchanges, usize), JournalFault>
    requires { length bytes.now ≤ longest_session }
    ensures read { IfOk result (λ r. IsReadTo bytes.now (exchanges_of r.0) r.1) }
    ensures within { IfOk result (λ r. r.1 ≤ length bytes.now) }
    ensures answered { IfOk result (λ r. AreAnswered 0 (exchanges_of r.0)) }
    ensures line { (n : ℕ) → result ≡ Err (JournalFault.Line n) → IsFaultLine bytes.now n }
    ensures none { (n : ℕ) → result ≡ Err (JournalFault.Line n) → HasNoJournal bytes.now }
    ensures found { (list : List Meant) (script : List ℕ) → IsJournal list →
        bytes.now ≡ session list script → MatchResult result
        (λ r. (exchanges_of r.0 ≡ list) × (drop r.1 bytes.now ≡ script))
        (λ fault. fault ≡ JournalFault.NoMemory) }
{
    let (list, rest) = good_lines(alloc, bytes)?;
    match behind(b"script\n", rest) {
        Some(script) => Ok((list, bytes.len() - script.len())),
        None => Err(JournalFault::Line(list.len() as u32 + 1)),
    }
}

/// What a transcript has behind one another: a journal, claimed lines and a script. Places count its bytes from 0.
#[derive(Drop)]
pub struct Transcript {
    pub journal: Exchanges,
    /// Where the claimed lines begin.
    pub from: usize,
    /// Where they end.
    pub to: usize,
    /// Where the script begins.
    pub script: usize,
}

/// The parts of a transcript. Behind its journal stand the line `lines N`, N bytes of claimed lines, the line
/// `script` and the script. At most 268,435,456 bytes are given. They are read in one go from left to right.
pub fn read_transcript(alloc: Global, bytes: &[u8]) -> Result<Transcript, JournalFault>
    requires { length bytes.now ≤ longest_session }
    ensures read { IfOk result (λ t. IsTranscriptTo bytes.now (exchanges_of t.journal) t.from t.to t.script) }
    ensures answered { IfOk result (λ t. AreAnswered 0 (exchanges_of t.journal)) }
    ensures line { (n : ℕ) → result ≡ Err (JournalFault.Line n) → IsTranscriptFault bytes.now n }
    ensures none { (n : ℕ) → result ≡ Err (JournalFault.Line n) → HasNoTranscript bytes.now }
    ensures found { (list : List Meant) (claimed script : List ℕ) → IsJournal list →
        bytes.now ≡ transcript list claimed script → MatchResult result
        (λ t. IsPlaced bytes.now (exchanges_of t.journal) t.from t.to t.script list claimed script)
        (λ fault. fault ≡ JournalFault.NoMemory) }
{
    let (journal, rest) = good_lines(alloc, bytes)?;
    let line = journal.len() as u32 + 1;
    let Some((claimed, last)) = claim(rest) else {
        return Err(JournalFault::Line(line));
    };
    let Some(script) = behind(b"script\n", last) else {
        return Err(JournalFault::Line(line + (1 + line_feeds(claimed))));
    };
    let to = bytes.len() - last.len();
    Ok(Transcript {
        journal,
        from: to - claimed.len(),
        to,
        script: bytes.len() - script.len(),
    })
}

/// How many line feeds stand among the bytes.
fn line_feeds(bytes: &[u8]) -> u32
    requires { length bytes.now ≤ longest_session }
    ensures exact { result ≡ line_feeds bytes.now }
    ensures few { result ≤ length bytes.now }
{
    let mut count = 0;
    'bytes: for byte in bytes {
        if *byte == b'\n' {
            count += 1;
        }
    }
    count
}
