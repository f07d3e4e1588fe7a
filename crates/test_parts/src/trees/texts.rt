//! The texts of trees and of their copies.
use crate::trees::rows::play;
use std::test::Fail;

const TEXTS: &str = "\
await 17; text 17
await fc(17, ac(18, 19)); text first_completed(17, all_completed(18, 19))
await un(); text unknown()
await asff(fsaf(11, un()), fc(), 12); text all_succeeded_or_first_failed(first_succeeded_or_all_failed(11, unknown()), first_completed(), 12)
await ac(fc(un(17))); text all_completed(first_completed(unknown(17)))";

#[test]
fn trees_have_texts(rt: HostRuntime) -> Result<(), Fail> {
    play(rt.alloc(), TEXTS)
}
