//! The line of a move.

ghost use Rattle.std.specs.Prelude.{◌≡◌, IfOk, bytes_eq};
ghost use Rattle.std.specs.Option.{option_map};
ghost use Rattle.bgp_script.specs.Pieces.{words_of, if_done};
ghost use Rattle.bgp_script.specs.Move.{side_of, timer_of, one_side, last_side, deliver_of, expire_of, send_of, plain_of, move_of};

use crate::pieces::Pieces;
use crate::sent::read_sent;
use crate::speakers::Speakers;
use bgp_session::{Move, Side, Timer};
use std::alloc::{AllocError, Global};

fn is_word(word: &[u8], other: &[u8]) -> bool
    ensures { result ≡ bytes_eq word.now other.now }
{
    word == other
}

fn side_of(word: &[u8]) -> Option<Side>
    ensures { result ≡ side_of word.now }
{
    if is_word(word, b"a") {
        Some(Side::A)
    } else if is_word(word, b"b") {
        Some(Side::B)
    } else {
        None
    }
}

fn timer_of(word: &[u8]) -> Option<Timer>
    ensures { result ≡ timer_of word.now }
{
    if is_word(word, b"retry") {
        Some(Timer::Retry)
    } else if is_word(word, b"hold") {
        Some(Timer::Hold)
    } else if is_word(word, b"keepalive") {
        Some(Timer::Keepalive)
    } else {
        None
    }
}

fn take_side(words: &mut Pieces<'_>) -> Option<Side>
    ensures { option_map (λ side. (side, words.new)) result ≡ one_side words.old }
{
    let word = words.take()?;
    side_of(word)
}

// A side that is the last word.
fn last_side(words: &mut Pieces<'_>) -> Option<Side>
    ensures { result ≡ last_side words.old }
{
    let side = take_side(words)?;
    if words.is_done() { Some(side) } else { None }
}

fn read_deliver(words: &mut Pieces<'_>) -> Option<Move>
    ensures { result ≡ deliver_of words.old }
{
    let side = take_side(words)?;
    let count = words.take_number(65535)?;
    if count == 0 || !words.is_done() {
        return None;
    }
    Some(Move::Deliver(side, count as u16))
}

fn read_expire(words: &mut Pieces<'_>) -> Option<Move>
    ensures { result ≡ expire_of words.old }
{
    let side = take_side(words)?;
    let word = words.take()?;
    let timer = timer_of(word)?;
    if words.is_done() {
        Some(Move::Expire(side, timer))
    } else {
        None
    }
}

// The words after `send`.
fn read_send(
    alloc: Global,
    speakers: &Speakers,
    words: &mut Pieces<'_>,
) -> Result<Option<Move>, AllocError>
    ensures { IfOk result (λ sent. sent ≡ send_of speakers.now words.old) }
{
    let Some(side) = take_side(words) else {
        return Ok(None);
    };
    let Some(word) = words.take() else {
        return Ok(None);
    };
    let Some(update) = read_sent(alloc, speakers.at(side), word)? else {
        return Ok(None);
    };
    if words.is_done() {
        Ok(Some(Move::Send(side, update)))
    } else {
        Ok(None)
    }
}

// A move without further words.
fn alone(words: &Pieces<'_>, alone: Move) -> Option<Move>
    ensures { result ≡ if_done words.now alone }
{
    if words.is_done() { Some(alone) } else { None }
}

// The words after any other name.
#[tactic(auto, unfolding(crate::specs::Move::plain_of))]
fn read_plain(name: &[u8], words: &mut Pieces<'_>) -> Option<Move>
    ensures { result ≡ plain_of name.now words.old }
{
    if is_word(name, b"start") {
        Some(Move::Start(last_side(words)?))
    } else if is_word(name, b"stop") {
        Some(Move::Stop(last_side(words)?))
    } else if is_word(name, b"join") {
        alone(words, Move::Join)
    } else if is_word(name, b"refuse") {
        Some(Move::Refuse(last_side(words)?))
    } else if is_word(name, b"deliver") {
        read_deliver(words)
    } else if is_word(name, b"lose") {
        alone(words, Move::Lose)
    } else if is_word(name, b"expire") {
        read_expire(words)
    } else {
        None
    }
}

/// The move of a line: None if the line is faulty.
#[tactic(auto, unfolding(crate::specs::Move::move_of))]
pub(crate) fn read_move(
    alloc: Global,
    speakers: &Speakers,
    line: &[u8],
) -> Result<Option<Move>, AllocError>
    ensures { IfOk result (λ found. found ≡ move_of speakers.now (words_of line.now)) }
{
    let mut words = Pieces::words(line);
    let Some(name) = words.take() else {
        return Ok(None);
    };
    if is_word(name, b"send") {
        read_send(alloc, speakers, &mut words)
    } else {
        Ok(read_plain(name, &mut words))
    }
}
