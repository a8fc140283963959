//! An UPDATE in hexadecimal.

ghost use Rattle.std.specs.Prelude.{◌≡◌, IfOk};
ghost use Rattle.std.specs.Option.{option_map};
ghost use Rattle.bgp_script.specs.Move.{body_of, taken, update_of};

use crate::speakers::context_of;
use bgp_open::Config;
use bgp_update::{Update, Verdict, read_update};
use hex::FromHexError;
use std::alloc::{AllocError, Global};

// An UPDATE that is accepted without notes.
fn taken(verdict: Verdict) -> Option<Update>
    ensures { result ≡ taken verdict }
{
    match verdict {
        Verdict::Take(update, notes) => { if notes.is_empty() { Some(update) } else { None } }
        Verdict::Withdraw(..) | Verdict::Reset(_) => None,
    }
}

// The octets of a body, if its length is allowed.
fn read_body(alloc: Global, word: &[u8]) -> Result<Option<Vec<u8>>, AllocError>
    ensures { IfOk result (λ body. option_map (λ b. b.items) body ≡ body_of word.now) }
{
    match hex::decode(alloc, word) {
        Ok(body) if 4 <= body.len() && body.len() <= 4077 => Ok(Some(body)),
        Ok(_) => Ok(None),
        Err(FromHexError::OutOfMemory) => Err(AllocError),
        Err(_) => Ok(None),
    }
}

/// The UPDATE that a speaker sends: None if the word spells none.
#[tactic(auto, unfolding(crate::specs::Move::update_of))]
pub(crate) fn read_sent(
    alloc: Global,
    speaker: &Config,
    word: &[u8],
) -> Result<Option<Update>, AllocError>
    ensures { IfOk result (λ update. update ≡ update_of speaker.now word.now) }
{
    let Some(body) = read_body(alloc, word)? else {
        return Ok(None);
    };
    let verdict = read_update(alloc, &context_of(speaker), body.as_slice())?;
    Ok(taken(verdict))
}
