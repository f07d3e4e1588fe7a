//! What an event of a script has done.

/// What an event of a script has done.
#[derive(Clone, Copy, PartialEq, Eq)]
pub enum Did {
    Nothing,
    Something,
    /// The invocation of this number was asked for.
    Asked(usize),
}

/// Something, if this is so.
pub fn something_if(is_so: bool) -> Did {
    if is_so { Did::Something } else { Did::Nothing }
}

/// What several events have done: what the latest has, or what those before it have, if it did nothing.
pub fn latest(before: Did, one: Did) -> Did {
    match one {
        Did::Nothing => before,
        _ => one,
    }
}
