//! Which trees wake by what arrives, after how much of it, and what is left of the others.
use crate::trees::rows::play;
use std::test::Fail;

const AWAITS: &str = "\
await 11; left 11
arrive f1; await 11; awake; unused 0
await fc(11, 12, 13); left fc(11, 12, 13)
arrive f1; await fc(11, 12, 13); awake; unused 0
arrive s1; await fc(un(ac(11, 12)), 13); left fc(un(ac(12)), 13)
arrive s1 s2; await fc(un(ac(11, 12)), 13); awake; unused 0
arrive s1; await fc(un(ac(11, un(12)))); left fc(un(ac(un(12))))
arrive s1 f3; await ac(11, 12, 13); left ac(12)
arrive s1 f2; await ac(11, 12); awake; unused 0
arrive f1; await fsaf(11, 12, 13); left fsaf(13, 12)
arrive f1 f2; await fsaf(11, 12); awake; unused 0
arrive s3; await fsaf(11, ac(12, un(13))); awake; unused 0
arrive s2; await fsaf(11, un(asff(12, 13))); left fsaf(11, un(asff(13)))
arrive f1; await fsaf(11, asff(12, un(13))); left fsaf(asff(12, un(13)))
arrive s1; await asff(11, 12, 13); left asff(13, 12)
arrive f2; await asff(asff(11, 12), 13); awake; unused 0
arrive f3; await asff(11, un(12, fsaf(13, 14))); left asff(11, un(12, fsaf(14)))
arrive f3 f4; await asff(11, un(12, fsaf(13, 14))); awake; unused 0
arrive f1 f2; await asff(ac(11, 12), ac(13, 14)); left asff(ac(13, 14))
arrive f1; await asff(ac(11, 12), ac(13, 14)); left asff(ac(12), ac(13, 14))
arrive s1; await ac(fc(11, 12), fc(13, 14)); awake; unused 0
arrive s1; await ac(11, 12, 11); left ac(12)
arrive f1; await ac(asff(11, 12), asff(11, 12)); awake; unused 0
arrive s1 s2; await ac(11, 12, 13, 14); left ac(14, 13)
arrive s2 s1; await ac(11, 12, 13, 14); left ac(13, 14)
arrive s1 s2; await ac(11, 12, 13, 12, 14); left ac(14, 13)
arrive s2 s1; await ac(11, 12, 13, 12, 14); left ac(13, 14)
arrive s3 s1; await ac(11, 12, 13, un(12)); left ac(un(12), 12)
arrive s2 s1; await ac(11, 12, ac(12, 11), 14, 15); left ac(14, 15)";

#[test]
fn tries_wake_or_leave_a_residual(rt: HostRuntime) -> Result<(), Fail> {
    play(rt.alloc(), AWAITS)
}

/// No more is used than wakes the tree.
const LEAST: &str = "\
arrive s2 s1; await 12; awake; unused 1
arrive s4 f1 s2; await fc(11, 12); awake; unused 1
arrive s4 f1 s2; await un(11, 12); awake; unused 1
arrive s2 s3 f1 s4; await ac(11, 12); awake; unused 1
arrive f1 s2 s3; await fsaf(11, 12, 13); awake; unused 1
arrive f1 f2 f3 s4; await fsaf(11, 12, 13); awake; unused 1
arrive s1 f2 s3; await asff(11, 12, 13); awake; unused 1
arrive s1 s2 s3 s4; await asff(11, 12, 13); awake; unused 1
arrive s1 s2; await ac(); awake; unused 2
arrive s3=v s1; await fc(11, 13); awake; copy 13 v; copy 11 none; unused 1; copy 11 void";

#[test]
fn tries_use_no_more_than_they_need(rt: HostRuntime) -> Result<(), Fail> {
    play(rt.alloc(), LEAST)
}

/// Nodes without children.
const EMPTY: &str = "\
await ac(); awake
await asff(); awake
await fsaf(); awake
await fc(); left fc(); send (kind=FirstCompleted)
await un(); left un(); send (kind=Unknown)
arrive s1 f2; await fc(); left fc(); unused 0
await fc(ac(), 11); awake
await un(fsaf()); awake
await fsaf(fsaf(), 11); left fsaf(11)
await asff(fsaf(), 11); awake";

#[test]
fn nodes_may_have_no_children(rt: HostRuntime) -> Result<(), Fail> {
    play(rt.alloc(), EMPTY)
}
