//! What is sent of trees that wait: kinds, the ids of their leaves, and what nests in them.
use crate::trees::rows::play;
use std::test::Fail;

const SENT: &str = r#"ids 1 2 3; await 11; send (kind=FirstCompleted completions=[1])
ids "foo" 2 3; await 11; send (kind=FirstCompleted named=["foo"])
ids 1 #5 3; await fc(11, 12); send (kind=FirstCompleted completions=[1] signals=[5])
ids 1 #5 3; await un(11, 12); send (kind=Unknown completions=[1] signals=[5])
ids 1 2 3; await fc(11, ac(12, 13)); send (kind=FirstCompleted completions=[1] nested=[(kind=AllCompleted completions=[2, 3])])
ids 1 2 3; await fc(un(ac(11, 12)), 13); send (kind=FirstCompleted completions=[3] nested=[(kind=Unknown nested=[(kind=AllCompleted completions=[1, 2])])])
ids 1 2 #5; await un(fsaf(11, 12), 13); send (kind=Unknown signals=[5] nested=[(kind=FirstSucceededOrAllFailed completions=[1, 2])])
ids 1 2 3; await fc(11, 19); send (kind=FirstCompleted completions=[1])
ids 1 2 3; await fc(11, 13); send (kind=FirstCompleted completions=[1, 3])
ids 1 2 3; await asff(fc(), 12, un(11), 13); send (kind=AllSucceededOrFirstFailed completions=[2, 3] nested=[(kind=FirstCompleted), (kind=Unknown completions=[1])])
ids "b" "a" #7 #6; await un(11, 12, 13, 14); send (kind=Unknown signals=[7, 6] named=["b", "a"])
ids 1 2 3; await un(19); left un(19); handles 19; send (kind=Unknown)
ids 1 2 3; await 19; left 19; send (kind=FirstCompleted)"#;

#[test]
fn what_is_awaited_is_sent(rt: HostRuntime) -> Result<(), Fail> {
    play(rt.alloc(), SENT)
}

/// What is left is sent, and its handles are given in the order of its leaves.
const LEFT: &str =
    r#"ids 1 2 3; arrive s1; await asff(11, 12, 13); left asff(13, 12); handles 13 12; send (kind=AllSucceededOrFirstFailed completions=[3, 2])
ids 1 2 3; await 11; arrive s2; again; left 11; send (kind=FirstCompleted completions=[1])
ids "foo" 2 3; await 11; arrive s2; again; left 11; send (kind=FirstCompleted named=["foo"])
ids 1 #5 3; await fc(11, 12); arrive s3; again; send (kind=FirstCompleted completions=[1] signals=[5])
ids 1 2 3; await fc(11, ac(12, 13)); arrive s2; again; send (kind=FirstCompleted completions=[1] nested=[(kind=AllCompleted completions=[3])])
ids 1 2 3; await fc(un(ac(11, 12)), 13); arrive f1; again; send (kind=FirstCompleted completions=[3] nested=[(kind=Unknown nested=[(kind=AllCompleted completions=[2])])])
ids 1 2 #5; await un(fsaf(11, 12), 13); arrive f1; again; send (kind=Unknown signals=[5] nested=[(kind=FirstSucceededOrAllFailed completions=[2])])
ids 1 2 3; await fc(11, 19); arrive s2; again; send (kind=FirstCompleted completions=[1])
arrive s1 s2; await un(ac(11, 12, 13, 14), asff(15, 11, 16), 17); left un(ac(14, 13), asff(15, 16), 17); handles 14 13 15 16 17
ids 1 2 3; arrive s1; await 11; awake; take 11 void; await ac(11, 12); left ac(11, 12); send (kind=AllCompleted completions=[2]); arrive s2; again; left ac(11); send (kind=AllCompleted)"#;

#[test]
fn what_is_left_is_sent(rt: HostRuntime) -> Result<(), Fail> {
    play(rt.alloc(), LEFT)
}
