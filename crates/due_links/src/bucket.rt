//! The nodes of the buckets, each bucket a list that is linked forward and backward.

ghost use Rattle.std.specs.Prelude.{◌≡◌, ◌≢◌, ◌<◌, ◌≤◌, ◌+◌, ◌*◌, ℕ, length, Some, None};
ghost use Rattle.slab.specs.Slab.{ContainsKey, HasRoomFor, get, slab_len};
ghost use Rattle.due_links.specs.steps.Links.{Comes, Leaves, IsBelow, IsGap, IsIn, IsLeastOf, IsLinked, behind, bucket_of, earlier, heads_after, node_at, pointed_back, pointed_on, rank, rank_of};

use osi_base::Tick;
use slab::Slab;

/// How many buckets there are.
pub(crate) const BUCKETS: u32 = 64;

/// An id with its tick, between two others of its bucket.
#[derive(Clone, Copy)]
pub struct Node {
    pub id: u32,
    pub at: Tick,
    pub prev: Option<usize>,
    pub next: Option<usize>,
}

impl Node {
    /// Its place in the order by tick and then by id.
    pub(crate) fn rank(&self) -> u64
        ensures { result ≡ rank_of self.now }
    {
        rank(self.id, self.at)
    }
}

/// The place in the order by tick and then by id.
pub(crate) fn rank(id: u32, at: Tick) -> u64
    ensures { result ≡ rank id at }
{
    u64::from(at) * 4_294_967_296 + u64::from(id)
}

/// The bucket of a tick.
pub(crate) fn bucket_of(at: Tick) -> usize
    ensures value { result ≡ bucket_of at }
    ensures within { result < 64 }
{
    (at % BUCKETS) as usize
}

/// Two neighbours in a bucket; none is its end.
#[derive(Clone, Copy)]
pub struct Gap {
    pub prev: Option<usize>,
    pub next: Option<usize>,
}

/// Where a node of that rank comes in a bucket. The walk begins behind the hint where that stands before it there.
pub(crate) fn gap_for(
    nodes: &Slab<Node>,
    heads: &[Option<usize>],
    bucket: usize,
    rank: u64,
    hint: Option<usize>,
) -> Gap
    requires linked { IsLinked (get nodes.now) heads.now }
    requires bucket { bucket < 64 }
    ensures { IsGap (get nodes.now) heads.now bucket rank result }
{
    let mut gap = first_gap(nodes, heads, bucket, rank, hint);
    while let Some(key) = gap.next {
        let node = nodes[key];
        if rank <= node.rank() {
            break;
        }
        gap = Gap {
            prev: Some(key),
            next: node.next,
        };
    }
    gap
}

/// A gap of the bucket that is not behind that rank: behind the hint where that is one of its nodes, and of lower rank; else before all.
fn first_gap(
    nodes: &Slab<Node>,
    heads: &[Option<usize>],
    bucket: usize,
    rank: u64,
    hint: Option<usize>,
) -> Gap
    requires { bucket < length heads.now }
    ensures within { IsIn (get nodes.now) bucket result.prev }
    ensures below { IsBelow (get nodes.now) rank result.prev }
    ensures next { behind (get nodes.now) heads.now bucket result.prev ≡ result.next }
{
    if let Some(node) = node_at(nodes, hint) {
        if bucket_of(node.at) == bucket && node.rank() < rank {
            return Gap {
                prev: hint,
                next: node.next,
            };
        }
    }
    Gap {
        prev: None,
        next: heads[bucket],
    }
}

/// The next of a node, or the first of its bucket, is another.
pub(crate) fn point_on(
    nodes: &mut Slab<Node>,
    heads: &mut Vec<Option<usize>>,
    bucket: usize,
    prev: Option<usize>,
    next: Option<usize>,
)
    requires { bucket < length heads.old.items }
    ensures heads { heads.new.items ≡ heads_after heads.old.items bucket prev next }
    ensures nodes { nodes.new ≡ pointed_on nodes.old prev next }
{
    match prev {
        None => heads[bucket] = next,
        Some(key) => set_next(nodes, key, next),
    }
}

/// The next of a node is another.
fn set_next(nodes: &mut Slab<Node>, key: usize, next: Option<usize>)
    ensures { nodes.new ≡ pointed_on nodes.old (Some key) next }
{
    if let Some(node) = nodes.get_mut(key) {
        node.next = next;
    }
}

/// The previous of a node is another.
pub(crate) fn point_back(nodes: &mut Slab<Node>, next: Option<usize>, prev: Option<usize>)
    ensures { nodes.new ≡ pointed_back nodes.old next prev }
{
    if let Some(key) = next {
        set_prev(nodes, key, prev);
    }
}

/// The previous of a node is another.
fn set_prev(nodes: &mut Slab<Node>, key: usize, prev: Option<usize>)
    ensures { nodes.new ≡ pointed_back nodes.old (Some key) prev }
{
    if let Some(node) = nodes.get_mut(key) {
        node.prev = prev;
    }
}

/// Takes a node out of its bucket.
pub(crate) fn take_out(nodes: &mut Slab<Node>, heads: &mut Vec<Option<usize>>, key: usize) -> Node
    requires linked { IsLinked (get nodes.old) heads.old.items }
    requires stands { ContainsKey nodes.old key }
    ensures node { get nodes.old key ≡ Some result }
    ensures linked { IsLinked (get nodes.new) heads.new.items }
    ensures leaves { Leaves nodes.old nodes.new key }
{
    let node = nodes.remove(key);
    point_on(nodes, heads, bucket_of(node.at), node.prev, node.next);
    point_back(nodes, node.next, node.prev);
    node
}

/// Puts an id into the bucket of its tick. The hint may be any node.
pub(crate) fn put_in(
    nodes: &mut Slab<Node>,
    heads: &mut Vec<Option<usize>>,
    id: u32,
    at: Tick,
    hint: Option<usize>,
) -> usize
    requires linked { IsLinked (get nodes.old) heads.old.items }
    requires room { HasRoomFor nodes.old 1 }
    requires fresh { (key : ℕ) (n : Node) → get nodes.old key ≡ Some n → rank_of n ≢ rank id at }
    ensures linked { IsLinked (get nodes.new) heads.new.items }
    ensures comes { Comes nodes.old nodes.new result id at }
{
    let bucket = bucket_of(at);
    let Gap { prev, next } = gap_for(nodes, heads, bucket, rank(id, at), hint);
    let key = nodes.insert_reserved(Node { id, at, prev, next });
    point_on(nodes, heads, bucket, prev, Some(key));
    point_back(nodes, next, Some(key));
    key
}

/// The first node of all buckets.
pub(crate) fn least_head(nodes: &Slab<Node>, heads: &[Option<usize>]) -> Option<Node>
    ensures { IsLeastOf (get nodes.now) heads.now (length heads.now) result }
{
    let mut least = None;
    for head in heads {
        least = earlier(least, node_at(nodes, *head));
    }
    least
}

/// The node at a key that may be there.
pub(crate) fn node_at(nodes: &Slab<Node>, key: Option<usize>) -> Option<Node>
    ensures { result ≡ node_at (get nodes.now) key }
{
    nodes.get(key?).copied()
}

/// The one that comes first of two that may be there.
fn earlier(one: Option<Node>, other: Option<Node>) -> Option<Node>
    ensures { result ≡ earlier one other }
{
    match (one, other) {
        (None, other) => other,
        (one, None) => one,
        (Some(one), Some(other)) if other.rank() < one.rank() => Some(other),
        (one, _) => one,
    }
}
