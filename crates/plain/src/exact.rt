//! Plain data: values whose `==` is exact, and values whose copies are equal.
ghost use Rattle.std.specs.Prelude.{◌≡◌, ◌↔◌, IsTrue, IfOk};
ghost use Rattle.std.specs.Bool.{Decides};
ghost use Rattle.std.specs.Cmp.Lexicographic.{bytes_decides, pointwise_decides};
ghost use Rattle.std.proofs.Common.{rules};
ghost use Rattle.std.proofs.lemmas.Bool.Decides.{Decides-eqb};
ghost use Rattle.plain.specs.Same.{pair_same, pair_Decides, exact_option};

use crate::{Items, Text};
use bytes::Bytes;
use std::alloc::AllocError;

/// Values whose `==` is `≡`.
pub trait Exact: PartialEq {
    ghost compares: { (a b : Self) → Decides (Self.eq a b) (a ≡ b) };
}

/// Values whose copies are equal to them.
pub trait Plain: Clone {
    ghost copies: { (a b : Self) → Self.is_clone a b → b ≡ a };
}

impl Exact for u16 {
    ghost compares = { Decides-eqb };
}

impl Plain for u16 {
    ghost copies = { λ a b h. h };
}

impl Exact for u32 {
    ghost compares = { Decides-eqb };
}

impl Plain for u32 {
    ghost copies = { λ a b h. h };
}

impl Exact for Text {
    ghost compares = { bytes_decides };
}

impl Plain for Text {
    ghost copies = { λ a b h. h };
}

impl Exact for Bytes {
    ghost compares = { bytes_decides };
}

impl Plain for Bytes {
    ghost copies = { λ a b h. h };
}

impl<A: Exact, B: Exact> Exact for (A, B) {
    ghost compares = { λ a b. pair_Decides a b (A.eq a.0 b.0) (B.eq a.1 b.1) (A.compares a.0 b.0) (B.compares a.1 b.1) };
}

impl<A: Plain, B: Plain> Plain for (A, B) {
    ghost copies = { λ a b h. pair_same a b (A.copies a.0 b.0 h.0) (B.copies a.1 b.1 h.1) };
}

impl<T: Exact> Exact for Option<T> {
    ghost compares = { exact_option T.compares };
}

impl<T: Plain> Plain for Option<T> {
    ghost copies = { λ a b h. Prim.search (rules, T.copies) };
}

impl<T: Exact> Exact for Items<T> {
    ghost compares = { pointwise_decides T.compares };
}

impl<T: Plain> Plain for Items<T> {
    ghost copies = { λ a b h. h };
}

/// Whether two values are equal.
pub fn is_same<T: Exact>(a: &T, b: &T) -> bool
    ensures same { IsTrue result ↔ (a.now ≡ b.now) }
    ensures test { result ≡ T.eq a.now b.now }
{
    *a == *b
}

/// An equal value, or out of memory.
pub fn copy_of<T: Plain>(a: &T) -> Result<T, AllocError>
    ensures { IfOk result (λ c. c ≡ a.now) }
{
    a.clone()
}
