//! Views, by which outputs are compared.
ghost use Rattle.nom_traits.specs.View.{View, itself, single_view, pair_view, view_3, view_4, view_5, view_6, view_7, view_8, option_view};
ghost use Rattle.nom_traits.specs.View.{result_view, list_view, vec_view, deque_view, box_view, rc_view, arc_view, string_view, behind_view, text_view};
ghost use Rattle.nom_traits.specs.View.{tree_map_view, hash_map_view, tree_set_view, hash_set_view};

use std::alloc::Allocator;
use std::cmp::Ordering;
use std::collections::{BTreeMap, BTreeSet, HashMap, HashSet, LinkedList, VecDeque};
use std::hash::{BuildHasher, Hash};
use std::net::{IpAddr, Ipv4Addr, Ipv6Addr, SocketAddr, SocketAddrV4, SocketAddrV6};
use std::ops::{Range, RangeInclusive};
use std::rc::Rc;
use std::sync::Arc;
use std::time::Duration;

/// A type whose values are compared by a view.
///
/// References, boxes and shared values are compared by the values that they hold. Lists and sets are compared
/// by their items, maps by their entries, and texts by their characters. If no member is given, a value is
/// compared as it is. `impl Viewed for Color {}` therefore works for most types.
pub trait Viewed {
    ghost view: { View Self } = { itself };
}

impl Viewed for u8 {}

impl Viewed for u16 {}

impl Viewed for u32 {}

impl Viewed for u64 {}

impl Viewed for u128 {}

impl Viewed for usize {}

impl Viewed for i8 {}

impl Viewed for i16 {}

impl Viewed for i32 {}

impl Viewed for i64 {}

impl Viewed for i128 {}

impl Viewed for isize {}

impl Viewed for bool {}

impl Viewed for char {}

impl Viewed for () {}

impl Viewed for f32 {}

impl Viewed for f64 {}

impl Viewed for Ordering {}

impl Viewed for Duration {}

impl Viewed for Ipv4Addr {}

impl Viewed for Ipv6Addr {}

impl Viewed for IpAddr {}

impl Viewed for SocketAddr {}

impl Viewed for SocketAddrV4 {}

impl Viewed for SocketAddrV6 {}

impl<A> Viewed for Range<A> {}

impl<A> Viewed for RangeInclusive<A> {}

impl<A: Viewed> Viewed for (A,) {
    ghost view = { single_view A.view };
}

impl<A: Viewed, B: Viewed> Viewed for (A, B) {
    ghost view = { pair_view A.view B.view };
}

impl<A: Viewed, B: Viewed, C: Viewed> Viewed for (A, B, C) {
    ghost view = { view_3 A.view B.view C.view };
}

impl<A: Viewed, B: Viewed, C: Viewed, D: Viewed> Viewed for (A, B, C, D) {
    ghost view = { view_4 A.view B.view C.view D.view };
}

impl<A: Viewed, B: Viewed, C: Viewed, D: Viewed, E: Viewed> Viewed for (A, B, C, D, E) {
    ghost view = { view_5 A.view B.view C.view D.view E.view };
}

impl<A: Viewed, B: Viewed, C: Viewed, D: Viewed, E: Viewed, F: Viewed> Viewed
    for (A, B, C, D, E, F) {
    ghost view = { view_6 A.view B.view C.view D.view E.view F.view };
}

impl<A: Viewed, B: Viewed, C: Viewed, D: Viewed, E: Viewed, F: Viewed, G: Viewed> Viewed
    for (A, B, C, D, E, F, G) {
    ghost view = { view_7 A.view B.view C.view D.view E.view F.view G.view };
}

impl<A: Viewed, B: Viewed, C: Viewed, D: Viewed, E: Viewed, F: Viewed, G: Viewed, H: Viewed> Viewed
    for (A, B, C, D, E, F, G, H) {
    ghost view = { view_8 A.view B.view C.view D.view E.view F.view G.view H.view };
}

impl<A: Viewed> Viewed for Option<A> {
    ghost view = { option_view A.view };
}

impl<A: Viewed, E: Viewed> Viewed for Result<A, E> {
    ghost view = { result_view A.view E.view };
}

impl<T: Viewed, const N: usize> Viewed for [T; N] {
    ghost view = { list_view T.view };
}

impl<T: Viewed, A: Allocator> Viewed for Vec<T, A> {
    ghost view = { vec_view T.view };
}

impl<T: Viewed, A: Allocator> Viewed for VecDeque<T, A> {
    ghost view = { deque_view T.view };
}

impl<T: Viewed, A: Allocator> Viewed for Box<T, A> {
    ghost view = { box_view T.view };
}

impl<T: Viewed, A: Allocator> Viewed for Rc<T, A> {
    ghost view = { rc_view T.view };
}

impl<T: Viewed, A: Allocator> Viewed for Arc<T, A> {
    ghost view = { arc_view T.view };
}

impl<T: Viewed, A: Allocator> Viewed for LinkedList<T, A> {
    ghost view = { list_view T.view };
}

/// Compares a map by its entries, in the order of its keys.
impl<K: Ord + Viewed, V: Viewed, A: Allocator> Viewed for BTreeMap<K, V, A> {
    ghost view = { tree_map_view K.view V.view };
}

impl<K: Ord + Viewed, A: Allocator> Viewed for BTreeSet<K, A> {
    ghost view = { tree_set_view K.view };
}

/// Compares a map by its entries, in the order in which its iterator returns them.
impl<K: Eq + Hash + Viewed, V: Viewed, S: BuildHasher, A: Allocator> Viewed
    for HashMap<K, V, S, A> {
    ghost view = { hash_map_view K.view V.view };
}

impl<K: Eq + Hash + Viewed, S: BuildHasher, A: Allocator> Viewed for HashSet<K, S, A> {
    ghost view = { hash_set_view K.view };
}

impl<A: Allocator> Viewed for String<A> {
    ghost view = { string_view };
}

impl Viewed for &[u8] {
    ghost view = { behind_view };
}

impl Viewed for &str {
    ghost view = { text_view };
}
