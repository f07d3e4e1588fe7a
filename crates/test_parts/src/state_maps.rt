// The state map: each of its calls once.
use bytes::Bytes;
use plain::Text;
use std::alloc::{AllocError, Global};
use std::test::Fail;
use vm_state::{Known, StateCoverage, StateKey, StateMap};

/// A state to which each key was set, in this order.
fn state_of(
    alloc: Global,
    coverage: StateCoverage,
    pairs: &[(&str, &'static [u8])],
) -> Result<StateMap, AllocError> {
    let mut state = StateMap::new(alloc, coverage);
    for (key, value) in pairs {
        set(alloc, &mut state, key, value)?;
    }
    Ok(state)
}

/// What is known of a key.
#[derive(Clone, Copy, PartialEq)]
enum Seen {
    Unknown,
    Empty,
    /// A value of this number of bytes.
    Value(usize),
}

fn seen_of(known: &Known) -> Seen {
    match known {
        Known::Unknown => Seen::Unknown,
        Known::Empty => Seen::Empty,
        Known::Value(value) => Seen::Value(value.len()),
    }
}

fn known_of(alloc: Global, state: &StateMap, key: &str) -> Result<Known, AllocError> {
    let key = StateKey::new(Text::from_str(alloc, key)?);
    let known = state.get(&key);
    drop(key);
    known
}

fn seen_at(alloc: Global, state: &StateMap, key: &str) -> Result<Seen, AllocError> {
    let known = known_of(alloc, state, key)?;
    Ok(seen_of(&known))
}

/// These keys, each with a comma after it.
fn line_of(alloc: Global, keys: &[Bytes]) -> Result<Vec<u8>, AllocError> {
    let mut line = Vec::new(alloc);
    for key in keys {
        line.extend_from_slice(key.as_slice())?;
        line.push(b',')?;
    }
    Ok(line)
}

/// The known keys, each with a comma after it.
fn keys_of(alloc: Global, state: &StateMap) -> Result<Option<Vec<u8>>, AllocError> {
    match state.keys(alloc)? {
        None => Ok(None),
        Some(keys) => Ok(Some(line_of(alloc, keys.as_slice())?)),
    }
}

/// Whether the known keys are those of this line.
fn are_keys(alloc: Global, state: &StateMap, wanted: &str) -> Result<bool, AllocError> {
    Ok(match keys_of(alloc, state)? {
        None => false,
        Some(line) => line.as_slice() == wanted.as_bytes(),
    })
}

/// After `b` was cleared in a state of `a` and `b` that may have other keys.
fn is_seen_partly(alloc: Global, state: &StateMap) -> Result<bool, AllocError> {
    Ok(
        seen_at(alloc, state, "a")? == Seen::Value(1)
            && seen_at(alloc, state, "b")? == Seen::Empty
            && seen_at(alloc, state, "c")? == Seen::Unknown
            && keys_of(alloc, state)?.is_none(),
    )
}

fn set(
    alloc: Global,
    state: &mut StateMap,
    key: &str,
    value: &'static [u8],
) -> Result<(), AllocError> {
    let key = Text::from_str(alloc, key)?;
    let value = Bytes::from_static(value);
    state.set(&key, &value)
}

fn clear(alloc: Global, state: &mut StateMap, key: &str) -> Result<(), AllocError> {
    let key = Text::from_str(alloc, key)?;
    state.clear(&key)
}

/// What is seen once `b` is cleared, once all is, and once `c` is set.
fn looks(alloc: Global, state: &mut StateMap) -> Result<[bool; 3], AllocError> {
    clear(alloc, state, "b")?;
    let is_seen_partly = is_seen_partly(alloc, state)?;
    state.clear_all();
    let is_empty = seen_at(alloc, state, "c")? == Seen::Empty;
    set(alloc, state, "c", b"3")?;
    Ok([is_seen_partly, is_empty, are_keys(alloc, state, "c,")?])
}

#[test]
fn after_a_clear_of_all_each_key_is_known(rt: HostRuntime) -> Result<(), Fail> {
    let pairs: [(&str, &[u8]); 2] = [("b", b"1"), ("a", b"2")];
    let mut state = state_of(rt.alloc(), StateCoverage::Partial, &pairs)?;
    let looks = looks(rt.alloc(), &mut state);
    drop(state);
    assert!(rt; looks? == [true; 3]);
    Ok(())
}
