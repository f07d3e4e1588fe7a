//! The laws, which do nothing.
use await_trees::laws::{order_and_repetition_change_nothing, wire_futures_wake_as_trees};
use await_tries::laws::{
    order_and_repetition_wake_alike, residuals_have_no_result, residuals_wake_as_trees,
    tries_are_plainly_least,
};

#[test]
fn laws_do_nothing(_rt: HostRuntime) {
    wire_futures_wake_as_trees();
    order_and_repetition_change_nothing();
    residuals_wake_as_trees();
    residuals_have_no_result();
    tries_are_plainly_least();
    order_and_repetition_wake_alike();
}
