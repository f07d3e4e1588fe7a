//! Deliveries of one id: those that queue up, those that replace one another, and takes of them.
use crate::trees::rows::play;
use std::test::Fail;

const TAKES: &str =
    r#"ids "a"; arrive s"a"=1 s"a"=2; unused 2; copy 11 1; take 11 1; map 12 "a"; take 12 2; map 13 "a"; copy 13 none; take 13 none
overwrite; map 21 "a"; arrive s"a"=1 s"a"=2; unused 2; take 21 2; map 22 "a"; copy 22 none
ids 1; arrive s1=1 s1=2; unused 2; take 11 2; map 12 1; copy 12 none
arrive s3=v; await 13; awake; take 13 v; take 13 none; copy 13 none; arrive s3=w; unused 1; copy 13 none
take 11 none; arrive f1; await 11; awake; copy 11 failure; take 11 failure; take 11 none
ids "a"; overwrite; arrive s"a"=1; unused 1; copy 11 1; arrive s"a"=2; unused 1; copy 11 2; take 11 2; take 11 none"#;

#[test]
fn deliveries_are_taken(rt: HostRuntime) -> Result<(), Fail> {
    play(rt.alloc(), TAKES)
}

/// A leaf keeps its first outcome in a try; the next try begins with what is present.
const WITHIN_A_TRY: &str =
    r#"ids "a" 1; overwrite; arrive s"a" f"a" s1; await asff(11, 12); awake; unused 0
ids "a" 1; overwrite; arrive s"a" f"a"; await asff(11, 12); left asff(12); same; awake
ids "a" 1; arrive s"a" f"a"; await asff(11, 12); left asff(12); same; left asff(12)"#;

#[test]
fn a_leaf_keeps_its_first_outcome_in_a_try(rt: HostRuntime) -> Result<(), Fail> {
    play(rt.alloc(), WITHIN_A_TRY)
}
