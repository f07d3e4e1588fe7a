//! The line `world`: what a world is made of, except the version of its attempts.
ghost use Rattle.std.specs.Prelude.{◌≡◌, IfErr, IfOk, codes, string_bytes};
ghost use Rattle.lines.specs.Atoms.{IsAtom, IsText};
ghost use Rattle.lines.specs.Readings.{Blames};
ghost use Rattle.lines.specs.Fields.{IsSet, are_named, texts_named};
ghost use Rattle.world_scripts.specs.Worlds.{AreStateTexts, IsDefault, IsStateText, SaysIdentity, SaysWorld, default_identity, world_names};

use bytes::Bytes;
use line_parts::arguments::optional_text;
use line_parts::options::{policies_of, seed_in};
use lines::atoms::{shared_of, string_of, text_of};
use lines::fields::{are_named, field_of, text_behind};
use lines::pieces::words_within;
use plain::{Fault, Text};
use std::alloc::{AllocError, Global};
use vm_types::VMOptions;
use world_rounds::Identity;

/// What a world is made of, except the version of its attempts.
#[derive(Drop)]
pub struct Given {
    pub identity: Identity,
    pub options: VMOptions,
    pub input: Bytes,
    /// The state before any command; of several pairs of one key the last counts.
    pub state: Vec<(String, Bytes)>,
}

fn default_identity(alloc: Global) -> Result<Identity, AllocError>
    ensures { IfOk result (λ identity. identity ≡ default_identity) }
{
    Ok(Identity {
        id: Bytes::from_static(b"abc"),
        debug_id: Text::from_str(alloc, "abc")?,
        key: Text::empty(alloc),
        random_seed: 0,
        scope: None,
        limit_key: None,
        idempotency_key: None,
    })
}

/// The defaults that a world is made of, if the script has no `world` line.
pub fn default_given(alloc: Global) -> Result<Given, AllocError>
    ensures { IfOk result (λ given. IsDefault given) }
{
    Ok(Given {
        identity: default_identity(alloc)?,
        options: VMOptions::default(),
        input: Bytes::new(),
        state: Vec::new(alloc),
    })
}

/// `[NAME=B]`, or the default.
#[tactic(auto, using(lines::proofs::Missing::set_blamed, lines::proofs::Missing::twice_set))]
fn bytes_or(
    alloc: Global,
    words: &[&[u8]],
    name: &str,
    default: &'static [u8],
) -> Result<Bytes, Fault>
    ensures value { IfOk result (IsSet IsAtom default.now (texts_named name.now words.now)) }
    ensures none { IfErr result
        (Blames (IsSet IsAtom default.now (texts_named name.now words.now))) }
{
    match field_of(words, name)? {
        Some(text) => shared_of(alloc, text),
        None => Ok(Bytes::from_static(default)),
    }
}

/// `[NAME=T]`, or the default.
#[tactic(auto, using(lines::proofs::Missing::set_blamed, lines::proofs::Missing::twice_set))]
fn text_or(alloc: Global, words: &[&[u8]], name: &str, default: &str) -> Result<Text, Fault>
    ensures value { IfOk result (IsSet IsText default.now (texts_named name.now words.now)) }
    ensures none { IfErr result
        (Blames (IsSet IsText default.now (texts_named name.now words.now))) }
{
    match field_of(words, name)? {
        Some(text) => text_of(alloc, text),
        None => Ok(Text::from_str(alloc, default)?),
    }
}

/// `[id=B] [debug_id=T] [key=T] [seed=N] [scope=T] [limit=T] [idem=T]`, among other words.
fn identity_in(alloc: Global, words: &[&[u8]]) -> Result<Identity, Fault>
    ensures value { IfOk result (SaysIdentity words.now) }
    ensures none { IfErr result (Blames (SaysIdentity words.now)) }
{
    let id = bytes_or(alloc, words, "id=", b"abc")?;
    let debug_id = text_or(alloc, words, "debug_id=", "abc")?;
    let key = text_or(alloc, words, "key=", "")?;
    let random_seed = seed_in(words)?;
    let scope = optional_text(alloc, words, "scope=")?;
    let limit_key = optional_text(alloc, words, "limit=")?;
    let idempotency_key = optional_text(alloc, words, "idem=")?;
    Ok(Identity {
        id,
        debug_id,
        key,
        scope,
        limit_key,
        idempotency_key,
        random_seed,
    })
}

/// `{T B}`.
#[tactic(auto, using(crate::proofs::Pairing::unbraced_blamed, crate::proofs::Pairing::count_blamed, crate::proofs::Pairing::key_blamed, crate::proofs::Pairing::value_blamed))]
fn pair_of(alloc: Global, text: &[u8]) -> Result<(String, Bytes), Fault>
    ensures value { IfOk result (λ pair. IsStateText text.now (string_bytes pair.0, pair.1)) }
    ensures none { IfErr result (Blames (IsStateText text.now)) }
{
    let pair = words_within(alloc, text, b'{', b'}')?;
    let [key, value] = pair.as_slice() else {
        return Err(Fault::Malformed);
    };
    let key = string_of(alloc, *key)?;
    let value = shared_of(alloc, *value)?;
    Ok((key, value))
}

/// `[state={T B}]..`, among other words.
#[tactic(auto, using(crate::proofs::Pairing::state_blamed))]
fn state_in(alloc: Global, words: &[&[u8]]) -> Result<Vec<(String, Bytes)>, Fault>
    ensures value { IfOk result
        (λ state. AreStateTexts (texts_named (codes "state=") words.now) state.items) }
    ensures none { IfErr result (Blames (AreStateTexts (texts_named (codes "state=") words.now))) }
{
    let mut state = Vec::new(alloc);
    for word in words {
        if let Some(text) = text_behind(*word, "state=") {
            state.push(pair_of(alloc, text)?)?;
        }
    }
    Ok(state)
}

/// Whether the words name what a world is made of, and nothing else.
fn are_of_a_world(words: &[&[u8]]) -> bool
    ensures { result ≡ are_named world_names words.now }
{
    are_named(
        words,
        &[
            "id=",
            "debug_id=",
            "key=",
            "seed=",
            "scope=",
            "limit=",
            "idem=",
            "input=",
            "state=",
            "cancel=",
            "checks=",
            "awaiting=",
            "mismatch=",
            "replay=",
            "delivery=",
        ],
    )
}

/// Parses the words after `world`. A part that they don't name has its default.
#[tactic(auto, using(crate::proofs::Worlds::others_blamed, crate::proofs::Worlds::options_blamed, crate::proofs::Worlds::identity_blamed, crate::proofs::Worlds::input_blamed, crate::proofs::Worlds::state_blamed))]
pub fn given_of(alloc: Global, words: &[&[u8]]) -> Result<Given, Fault>
    ensures value { IfOk result (SaysWorld words.now) }
    ensures none { IfErr result (Blames (SaysWorld words.now)) }
{
    if !are_of_a_world(words) {
        return Err(Fault::Malformed);
    }
    let options = policies_of(words)?;
    let identity = identity_in(alloc, words)?;
    let input = bytes_or(alloc, words, "input=", b"")?;
    let state = state_in(alloc, words)?;
    Ok(Given {
        identity,
        options,
        input,
        state,
    })
}
