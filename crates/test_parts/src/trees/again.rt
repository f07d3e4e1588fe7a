//! Awaits that are asked twice, with one more arrival between.
use crate::trees::rows::play;
use std::test::Fail;

/// Each is played twice: the same tree is asked again, and what was left of it.
const TWICE: &str = "\
await 11; left 11; arrive s1; again; awake
await fc(11, 12, 13); left fc(11, 12, 13); arrive f1; again; awake
arrive s1; await fc(un(ac(11, 12)), 13); left fc(un(ac(12)), 13); arrive s2; again; awake
arrive s1; await fc(un(ac(11, un(12)))); left fc(un(ac(un(12)))); arrive s2; again; awake
arrive s1 f3; await ac(11, 12, 13); left ac(12); arrive f2; again; awake
arrive f1; await fsaf(11, 12, 13); left fsaf(13, 12); arrive f3; again; left fsaf(12)
arrive f1; await fsaf(11, 12, 13); left fsaf(13, 12); arrive s2; again; awake
arrive s2; await fsaf(11, un(asff(12, 13))); left fsaf(11, un(asff(13))); arrive s3; again; awake
arrive f1; await fsaf(11, asff(12, un(13))); left fsaf(asff(12, un(13))); arrive s2; again; left fsaf(asff(un(13)))
arrive s1; await asff(11, 12, 13); left asff(13, 12); arrive s2; again; left asff(13)
arrive s1; await asff(11, 12, 13); left asff(13, 12); arrive f2; again; awake
arrive f3; await asff(11, un(12, fsaf(13, 14))); left asff(11, un(12, fsaf(14))); arrive f4; again; awake
arrive f1 f2; await asff(ac(11, 12), ac(13, 14)); left asff(ac(13, 14)); arrive s3; again; left asff(ac(14))
arrive f1; await asff(ac(11, 12), ac(13, 14)); left asff(ac(12), ac(13, 14)); arrive f2; again; left asff(ac(13, 14))
arrive s1; await ac(11, 12, 11); left ac(12); arrive s2; again; awake
arrive s1; await fc(un(ac(11, 12)), ac(13, 14)); left fc(un(ac(12)), ac(13, 14)); arrive s3; again; left fc(un(ac(12)), ac(14))";

#[test]
fn trees_and_what_was_left_are_asked_again(rt: HostRuntime) -> Result<(), Fail> {
    play(rt.alloc(), TWICE)
}
