//! The line of an exchange, read.
ghost use Rattle.std.specs.Prelude.{◌≡◌, ◌<◌, option_map, IfOk};
ghost use Rattle.ek_types.specs.Listing.{items_of};
ghost use Rattle.host_link.specs.Meaning.{ask_of, answer_of, exchange_of};
ghost use Rattle.journal_text.specs.Reading.{child_at, bytes_at, spawn_at, send_at, ask_at};
ghost use Rattle.journal_text.specs.Reading.{ask_child_at, last_ask_at, given_at, nothing_got_at};
ghost use Rattle.journal_text.specs.Reading.{fixed_at, then_end, spawned_at, got_at, exited_at, ended_at, sent_at, closed_at};
ghost use Rattle.journal_text.specs.Reading.{killed_at, answer_at, with_answer, line_at};

use crate::hex::{hex, text, words};
use crate::pieces::{behind, code, number};
use ek_types::Mem;
use ek_types::limits::MOST_READ;
use host_link::{Answer, Ask, ByteList, Exchange};
use std::alloc::Global;

// ASKS, each with the arrow behind it

/// A child's number.
fn child(bytes: &[u8]) -> Option<(u32, &[u8])>
    ensures { option_map (λ r. (r.0, r.1.now)) result ≡ child_at bytes.now }
{
    let (child, rest) = number(bytes)?;
    Some((child, behind(b" -> ", rest)?))
}

/// A blank and some bytes.
fn led_bytes(alloc: Global, bytes: &[u8]) -> Mem<Option<(ByteList, &[u8])>>
    ensures { IfOk result (λ o. option_map (λ r. (items_of r.0, r.1.now)) o ≡ bytes_at bytes.now) }
{
    let Some(behind_blank) = behind(b" ", bytes) else {
        return Ok(None);
    };
    let Some((list, rest)) = hex(alloc, behind_blank)? else {
        return Ok(None);
    };
    match behind(b" -> ", rest) {
        Some(behind_arrow) => Ok(Some((list, behind_arrow))),
        None => Ok(None),
    }
}

fn spawn(alloc: Global, bytes: &[u8]) -> Mem<Option<(Ask, &[u8])>>
    ensures { IfOk result (λ o. option_map (λ r. (ask_of r.0, r.1.now)) o ≡ spawn_at bytes.now) }
{
    let Some((program, behind_program)) = text(alloc, bytes)? else {
        return Ok(None);
    };
    let Some((args, rest)) = words(alloc, behind_program)? else {
        return Ok(None);
    };
    Ok(Some((Ask::Spawn(program, args), rest)))
}

fn send(alloc: Global, bytes: &[u8]) -> Mem<Option<(Ask, &[u8])>>
    ensures { IfOk result (λ o. option_map (λ r. (ask_of r.0, r.1.now)) o ≡ send_at bytes.now) }
{
    let Some((child, behind_child)) = number(bytes) else {
        return Ok(None);
    };
    let Some((list, rest)) = led_bytes(alloc, behind_child)? else {
        return Ok(None);
    };
    Ok(Some((Ask::Send(child, list), rest)))
}

/// An ask that names a child alone.
fn ask_child(bytes: &[u8]) -> Option<(Ask, &[u8])>
    ensures { option_map (λ r. (ask_of r.0, r.1.now)) result ≡ ask_child_at bytes.now }
{
    if let Some(rest) = behind(b"read ", bytes) {
        let (child, rest) = child(rest)?;
        return Some((Ask::Read(child), rest));
    }
    if let Some(rest) = behind(b"end ", bytes) {
        let (child, rest) = child(rest)?;
        return Some((Ask::End(child), rest));
    }
    last_ask(bytes)
}

/// An ask that closes a child's input or kills it.
fn last_ask(bytes: &[u8]) -> Option<(Ask, &[u8])>
    ensures { option_map (λ r. (ask_of r.0, r.1.now)) result ≡ last_ask_at bytes.now }
{
    if let Some(rest) = behind(b"close ", bytes) {
        let (child, rest) = child(rest)?;
        return Some((Ask::Close(child), rest));
    }
    let (child, rest) = child(behind(b"kill ", bytes)?)?;
    Some((Ask::Kill(child), rest))
}

fn ask(alloc: Global, bytes: &[u8]) -> Mem<Option<(Ask, &[u8])>>
    ensures { IfOk result (λ o. option_map (λ r. (ask_of r.0, r.1.now)) o ≡ ask_at bytes.now) }
{
    if let Some(rest) = behind(b"spawn ", bytes) {
        return spawn(alloc, rest);
    }
    if let Some(rest) = behind(b"send ", bytes) {
        return send(alloc, rest);
    }
    Ok(ask_child(bytes))
}

// ANSWERS, each with the line's end behind it

/// An answer that is always written as this text.
fn fixed<'a>(answer: Answer, text: &[u8], bytes: &'a [u8]) -> Option<(Answer, &'a [u8])>
    ensures { option_map (λ r. (answer_of r.0, r.1.now)) result ≡
        fixed_at (answer_of answer) text.now bytes.now }
{
    Some((answer, behind(text, bytes)?))
}

/// An answer of which all but the line's end was read.
fn with_end(answer: Answer, bytes: &[u8]) -> Option<(Answer, &[u8])>
    ensures { option_map (λ r. (answer_of r.0, r.1.now)) result ≡ then_end (answer_of answer, bytes.now) }
{
    fixed(answer, b"\n", bytes)
}

/// The answer to a spawn, where the next child has this number.
fn spawned(next: u32, bytes: &[u8]) -> Option<(Answer, &[u8])>
    ensures { option_map (λ r. (answer_of r.0, r.1.now)) result ≡ spawned_at next bytes.now }
{
    if let Some(rest) = behind(b"refused\n", bytes) {
        return Some((Answer::Refused, rest));
    }
    let (child, rest) = number(behind(b"started ", bytes)?)?;
    if child != next {
        return None;
    }
    with_end(Answer::Started(child), rest)
}

/// The bytes that a read gave.
fn given(alloc: Global, bytes: &[u8]) -> Mem<Option<(Answer, &[u8])>>
    ensures { IfOk result (λ o. option_map (λ r. (answer_of r.0, r.1.now)) o ≡ given_at bytes.now) }
{
    let Some((list, rest)) = hex(alloc, bytes)? else {
        return Ok(None);
    };
    if list.len() > MOST_READ {
        return Ok(None);
    }
    Ok(with_end(Answer::Bytes(list), rest))
}

/// The answer to a read that gave no bytes.
fn nothing_got(bytes: &[u8]) -> Option<(Answer, &[u8])>
    ensures { option_map (λ r. (answer_of r.0, r.1.now)) result ≡ nothing_got_at bytes.now }
{
    if let Some(rest) = behind(b"nothing\n", bytes) {
        return Some((Answer::Nothing, rest));
    }
    if let Some(rest) = behind(b"end\n", bytes) {
        return Some((Answer::End, rest));
    }
    fixed(Answer::Failed, b"failed\n", bytes)
}

fn got(alloc: Global, bytes: &[u8]) -> Mem<Option<(Answer, &[u8])>>
    ensures { IfOk result (λ o. option_map (λ r. (answer_of r.0, r.1.now)) o ≡ got_at bytes.now) }
{
    match behind(b"bytes ", bytes) {
        Some(rest) => given(alloc, rest),
        None => Ok(nothing_got(bytes)),
    }
}

/// The code with which a child ended.
fn exited(bytes: &[u8]) -> Option<(Answer, &[u8])>
    ensures { option_map (λ r. (answer_of r.0, r.1.now)) result ≡ exited_at bytes.now }
{
    let (code, rest) = code(bytes)?;
    with_end(Answer::Code(code), rest)
}

fn ended(bytes: &[u8]) -> Option<(Answer, &[u8])>
    ensures { option_map (λ r. (answer_of r.0, r.1.now)) result ≡ ended_at bytes.now }
{
    if let Some(rest) = behind(b"code ", bytes) {
        return exited(rest);
    }
    if let Some(rest) = behind(b"signal\n", bytes) {
        return Some((Answer::Signal, rest));
    }
    if let Some(rest) = behind(b"running\n", bytes) {
        return Some((Answer::Running, rest));
    }
    fixed(Answer::Failed, b"failed\n", bytes)
}

fn sent(bytes: &[u8]) -> Option<(Answer, &[u8])>
    ensures { option_map (λ r. (answer_of r.0, r.1.now)) result ≡ sent_at bytes.now }
{
    if let Some(rest) = behind(b"sent\n", bytes) {
        return Some((Answer::Sent, rest));
    }
    fixed(Answer::Broken, b"broken\n", bytes)
}

fn closed(bytes: &[u8]) -> Option<(Answer, &[u8])>
    ensures { option_map (λ r. (answer_of r.0, r.1.now)) result ≡ closed_at bytes.now }
{
    fixed(Answer::Closed, b"closed\n", bytes)
}

fn killed(bytes: &[u8]) -> Option<(Answer, &[u8])>
    ensures { option_map (λ r. (answer_of r.0, r.1.now)) result ≡ killed_at bytes.now }
{
    if let Some(rest) = behind(b"killed\n", bytes) {
        return Some((Answer::Killed, rest));
    }
    fixed(Answer::Failed, b"failed\n", bytes)
}

/// The answer to an ask.
fn answer<'a>(
    alloc: Global,
    next: u32,
    ask: &Ask,
    bytes: &'a [u8],
) -> Mem<Option<(Answer, &'a [u8])>>
    ensures { IfOk result (λ o. option_map (λ r. (answer_of r.0, r.1.now)) o ≡
        answer_at next (ask_of ask.now) bytes.now) }
{
    match ask {
        Ask::Spawn(_, _) => Ok(spawned(next, bytes)),
        Ask::Read(_) => got(alloc, bytes),
        Ask::End(_) => Ok(ended(bytes)),
        Ask::Send(_, _) => Ok(sent(bytes)),
        Ask::Close(_) => Ok(closed(bytes)),
        Ask::Kill(_) => Ok(killed(bytes)),
    }
}

/// The exchange of an ask and the answer behind it.
fn answered(alloc: Global, next: u32, ask: Ask, bytes: &[u8]) -> Mem<Option<(Exchange, &[u8])>>
    ensures { IfOk result (λ o. option_map (λ r. (exchange_of r.0, r.1.now)) o ≡
        with_answer next (ask_of ask, bytes.now)) }
{
    let Some((answer, rest)) = answer(alloc, next, &ask, bytes)? else {
        return Ok(None);
    };
    Ok(Some((Exchange { ask, answer }, rest)))
}

/// The exchange of the line at the front, where the next child has this number, and what follows the line.
pub(crate) fn exchange(alloc: Global, next: u32, bytes: &[u8]) -> Mem<Option<(Exchange, &[u8])>>
    ensures { IfOk result (λ o. option_map (λ r. (exchange_of r.0, r.1.now)) o ≡ line_at next bytes.now) }
{
    let Some((ask, behind_ask)) = ask(alloc, bytes)? else {
        return Ok(None);
    };
    answered(alloc, next, ask, behind_ask)
}
