//! Vertices are found, linked, marked and unlinked.
//!
//! What a step needs is met again by the loads before it, so nothing but the token's state lasts from call to call.

ghost use Rattle.std.specs.Prelude.{◌≡◌, ◌<◌, ◌≤◌, ◌+◌, ◌%◌, true, IfSome, IsNone};
ghost use Rattle.packed_link.specs.Link.{index_of, mark_of, nowhere};
ghost use Rattle.packed_link.specs.Layout.{bucket_at, link_at, word_count};
ghost use Rattle.core_rule.specs.Fronts.{LeadsToVertex, MayUnlinkVertex};
ghost use Rattle.core_rule.specs.OwnEvents.{unlink_vertex_event};
ghost use Rattle.core_rule.specs.Stretches.{HasPass};
ghost use Rattle.graph_table.specs.Filled.{MayLinkFilledVertex, filled_vertex_event};
ghost use Rattle.graph_table.specs.Tokens.{IsOf};
ghost use Rattle.graph_table.specs.Table.{MatchLink, MatchUnlink};
ghost use Rattle.table_calls.specs.Loads.{HasLoaded};
ghost use Rattle.table_calls.specs.Resting.{IsHolding, IsResting, uses_of};
ghost use Rattle.table_calls.specs.Vertices.{IsEmptyBucket, IsFound, IsNoEnd, IsNoGap, IsNoneDead};
ghost use Rattle.table_calls.specs.Vertices.{MarksVertex, MatchHeld, MatchSpent, word_in};

use crate::calls::fill_last;
use graph_table::{Fresh, GraphTable, LinkTried, Token, UnlinkTried};
use packed_link::{Life, Link};

/// A place, and the unmarked word that was seen there, which leads to none.
#[derive(Debug, Drop, Clone, Copy)]
pub struct Gap {
    /// The place of the word.
    pub place: u32,
    /// The word.
    pub seen: Link,
}

/// A marked node, and the word that leads to it.
#[derive(Debug, Drop, Clone, Copy)]
pub struct Dead {
    /// The place of the word.
    pub place: u32,
    /// The word, which is unmarked.
    pub seen: Link,
    /// The marked node.
    pub life: Life,
    /// Where its link leads.
    pub next: u32,
}

/// Loads the word of a bucket, and the link of the vertex to which it leads: that vertex. `None` comes where the bucket
/// has none.
pub fn find_first(table: &GraphTable, token: &mut Token, bucket: u32) -> Option<Life>
    requires table { IsOf table.now token.old }
    requires number { token.old.view.numbered ≡ true }
    requires pass { HasPass token.old.view }
    requires bucket { bucket < table.now.sizes.buckets }
    ensures table { IsOf table.now token.new }
    ensures loaded { HasLoaded token.old.view token.new.view }
    ensures found { IfSome result (IsFound token.new.view bucket) }
    ensures none { IsNone result → IsEmptyBucket token.new.view bucket }
{
    let layout = table.layout();
    let place = layout.bucket_at(bucket);
    let seen = Link(table.load(token, place));
    let index = seen.index();
    if index == 16_777_215 {
        return None;
    }
    let link = Link(table.load(token, layout.link_at(index)));
    let tag = link.tag();
    Some(Life { index, tag })
}

/// Loads the word at a place: that word, where it's unmarked and leads to none. `None` comes where it isn't.
pub fn see_end(table: &GraphTable, token: &mut Token, place: u32) -> Option<Link>
    requires table { IsOf table.now token.old }
    requires place { place < word_count table.now.sizes }
    ensures table { IsOf table.now token.new }
    ensures loaded { HasLoaded token.old.view token.new.view }
    ensures word { IfSome result (λ seen. seen.0 ≡ word_in token.new.view place) }
    ensures unmarked { IfSome result (λ seen. mark_of seen.0 ≡ 0) }
    ensures end { IfSome result (λ seen. index_of seen.0 ≡ nowhere) }
    ensures none { IsNone result → IsNoEnd token.new.view place }
{
    let seen = Link(table.load(token, place));
    if seen.marked() || seen.index() != 16_777_215 {
        return None;
    }
    Some(seen)
}

/// Fills a node as the only vertex of its bucket. `None` comes where the bucket has a vertex.
pub fn prepare_first(table: &GraphTable, token: &mut Token, fresh: &Fresh, key: u32) -> Option<Gap>
    requires table { IsOf table.now token.old }
    requires holding { IsHolding token.old.view fresh.now }
    ensures table { IsOf table.now token.new }
    ensures holding { IsHolding token.new.view fresh.now }
    ensures may { IfSome result (λ gap. MayLinkFilledVertex token.new.view gap.place gap.seen.0 fresh.now) }
    ensures none { IsNone result
        → IsNoEnd token.new.view (bucket_at token.new.view.sizes (key % token.new.view.sizes.buckets)) }
    ensures uses { uses_of token.new.view ≡ uses_of token.old.view }
{
    let layout = table.layout();
    let buckets = layout.buckets();
    let bucket = key % buckets;
    let place = layout.bucket_at(bucket);
    let Some(seen) = see_end(table, token, place) else {
        return None;
    };
    fill_last(table, token, fresh, key);
    Some(Gap { place, seen })
}

/// Fills a node as the vertex behind the first one of its bucket, where that has a smaller key and is the last one.
/// `None` comes where it isn't so.
pub fn prepare_behind(table: &GraphTable, token: &mut Token, fresh: &Fresh, key: u32) -> Option<Gap>
    requires table { IsOf table.now token.old }
    requires holding { IsHolding token.old.view fresh.now }
    ensures table { IsOf table.now token.new }
    ensures holding { IsHolding token.new.view fresh.now }
    ensures may { IfSome result (λ gap. MayLinkFilledVertex token.new.view gap.place gap.seen.0 fresh.now) }
    ensures none { IsNone result → IsNoGap token.new.view (key % token.new.view.sizes.buckets) key }
    ensures uses { uses_of token.new.view ≡ uses_of token.old.view }
{
    let layout = table.layout();
    let buckets = layout.buckets();
    let bucket = key % buckets;
    let Some(first) = find_first(table, token, bucket) else {
        return None;
    };
    let low = table.load(token, layout.key_at(first.index));
    if low >= u64::from(key) {
        return None;
    }
    let place = layout.link_at(first.index);
    let Some(seen) = see_end(table, token, place) else {
        return None;
    };
    fill_last(table, token, fresh, key);
    Some(Gap { place, seen })
}

/// Links a vertex that was filled for a gap. `Lost` comes where another word is there, with the node.
pub fn link_in(table: &GraphTable, token: &mut Token, gap: Gap, fresh: Fresh) -> LinkTried
    requires table { IsOf table.now token.old }
    requires holding { IsHolding token.old.view fresh }
    requires may { MayLinkFilledVertex token.old.view gap.place gap.seen.0 fresh }
    ensures table { IsOf table.now token.new }
    ensures tried { MatchLink result token.old.view gap.place gap.seen.0 fresh
        (filled_vertex_event token.old.view gap.place gap.seen.0 fresh) token.new.view }
    ensures held { MatchHeld result token.new.view }
    ensures uses { uses_of token.new.view ≡ uses_of token.old.view }
{
    table.link_vertex(token, gap.place, gap.seen, fresh)
}

/// Marks the first vertex of a bucket, and answers the link that was found. `None` comes where the bucket has none.
pub fn mark_first(table: &GraphTable, token: &mut Token, bucket: u32) -> Option<u64>
    requires table { IsOf table.now token.old }
    requires resting { IsResting true token.old.view }
    requires bucket { bucket < table.now.sizes.buckets }
    ensures table { IsOf table.now token.new }
    ensures resting { IsResting true token.new.view }
    ensures marks { IfSome result (λ found. MarksVertex token.old.view bucket found token.new.view) }
    ensures none { IsNone result → IsEmptyBucket token.new.view bucket }
    ensures uses { uses_of token.new.view ≡ uses_of token.old.view }
{
    let Some(life) = find_first(table, token, bucket) else {
        return None;
    };
    let found = table.mark_vertex(token, life);
    Some(found)
}

/// Loads a word that leads to vertices, and the link of the one to which it leads: that one, where it's marked and the
/// word isn't. `None` comes where it isn't so.
pub fn see_dead(table: &GraphTable, token: &mut Token, place: u32) -> Option<Dead>
    requires table { IsOf table.now token.old }
    requires number { token.old.view.numbered ≡ true }
    requires pass { HasPass token.old.view }
    requires before { LeadsToVertex token.old.view place }
    ensures table { IsOf table.now token.new }
    ensures loaded { HasLoaded token.old.view token.new.view }
    ensures may { IfSome result (λ dead.
        MayUnlinkVertex token.new.view dead.place dead.seen.0 dead.next dead.life) }
    ensures place { IfSome result (λ dead. dead.place ≡ place) }
    ensures none { IsNone result → IsNoneDead token.old.view place token.new.view }
{
    let layout = table.layout();
    let seen = Link(table.load(token, place));
    let index = seen.index();
    if index == 16_777_215 {
        return None;
    }
    if seen.marked() {
        return None;
    }
    let link = Link(table.load(token, layout.link_at(index)));
    if !link.marked() {
        return None;
    }
    let life = Life {
        index,
        tag: link.tag(),
    };
    let next = link.index();
    Some(Dead {
        place,
        seen,
        life,
        next,
    })
}

/// The same at the word of a bucket.
pub fn see_dead_first(table: &GraphTable, token: &mut Token, bucket: u32) -> Option<Dead>
    requires table { IsOf table.now token.old }
    requires resting { IsResting true token.old.view }
    requires bucket { bucket < table.now.sizes.buckets }
    ensures table { IsOf table.now token.new }
    ensures resting { IsResting true token.new.view }
    ensures may { IfSome result (λ dead.
        MayUnlinkVertex token.new.view dead.place dead.seen.0 dead.next dead.life) }
    ensures none { IsNone result → IsNoneDead token.old.view (bucket_at table.now.sizes bucket) token.new.view }
    ensures uses { uses_of token.new.view ≡ uses_of token.old.view }
{
    let layout = table.layout();
    let place = layout.bucket_at(bucket);
    see_dead(table, token, place)
}

/// Unlinks a vertex that was seen dead. `Lost` comes where another word is there.
pub fn unlink_in(table: &GraphTable, token: &mut Token, dead: Dead) -> UnlinkTried
    requires table { IsOf table.now token.old }
    requires resting { IsResting true token.old.view }
    requires may { MayUnlinkVertex token.old.view dead.place dead.seen.0 dead.next dead.life }
    ensures table { IsOf table.now token.new }
    ensures resting { IsResting true token.new.view }
    ensures tried { MatchUnlink result token.old.view dead.place dead.seen.0 dead.life
        (unlink_vertex_event token.old.view dead.place dead.seen.0 dead.next dead.life) token.new.view }
    ensures spent { MatchSpent result token.new.view }
    ensures uses { uses_of token.new.view ≡ uses_of token.old.view }
{
    table.unlink_vertex(token, dead.place, dead.seen, dead.life, dead.next)
}
