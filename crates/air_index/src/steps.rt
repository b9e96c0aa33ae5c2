//! The steps of a search: what it makes of the record that it opens.

ghost use Rattle.std.specs.Prelude.{◌≡◌, ◌<◌, ◌≤◌, ◌+◌, ◌^◌, List, ℕ, ◌∷◌, Some};
ghost use Rattle.air_index.specs.declared.records.Indexed.TheVariants as variant;
ghost use Rattle.air_index.specs.declared.sought.Sought.TheVariants.{Found};
ghost use Rattle.air_model.specs.Buckets.{value_of};
ghost use Rattle.air_index.specs.Records.{indexed_at};
ghost use Rattle.air_index.specs.Searches.{IsInReach, told_after, told_from};
ghost use Rattle.air_index.specs.Seeks.{first_told, has_item, index_told, item_told};

use crate::index_view::IndexView;
use crate::reading::indexed;
use crate::records::Indexed;
use crate::searches::{Search, SearchStage};
use crate::sought::Sought;
use bucket_codec::{BucketView, ViewKind};

/// A search that has its answer.
#[tactic(auto, unfolding(crate::specs::Searches::told_from, crate::specs::Searches::IsReached))]
fn ended(answer: Sought) -> Search
    ensures told { (i : ℕ) (records : List (List ℕ)) → told_after i result records ≡ answer }
    ensures reach { IsInReach result }
{
    Search {
        skip: 0,
        place: 0,
        stage: SearchStage::Nothing { answer },
    }
}

/// A search that waits for the record `wait` records on.
fn ahead(stage: SearchStage, place: u64, wait: u32) -> Search
    requires some { 1 ≤ wait }
    requires fits { place + wait < 2 ^ 64 }
    ensures stage { result.stage ≡ stage }
    ensures place { result.place ≡ place + wait }
    ensures skip { result.skip + 1 ≡ wait }
{
    Search {
        skip: wait - 1,
        place: place + u64::from(wait),
        stage,
    }
}

/// Whether a bucket has an item.
fn has_item(bucket: &BucketView<'_>, item: u16) -> bool
    ensures { result ≡ has_item item bucket.now.body }
{
    match bucket.kind() {
        ViewKind::Idle => false,
        _ => bucket.item() == item,
    }
}

/// The answer if the item is found.
fn found(bucket: &BucketView<'_>, place: u64, opens: u32) -> Sought
    ensures { result ≡ Found opens place bucket.now.cycle (value_of bucket.now.body) }
{
    Sought::Found {
        opens,
        place,
        cycle: bucket.cycle(),
        value: bucket.value(),
    }
}

/// The answer from the record to which an index leads.
fn item_opened(item: u16, place: u64, opens: u32, bytes: &[u8]) -> Sought
    ensures { result ≡ item_told item opens place (indexed_at bytes.now) }
{
    match indexed(bytes) {
        Some(Indexed::Payload { bucket, .. }) => {
            if has_item(&bucket, item) {
                found(&bucket, place, opens)
            } else {
                Sought::Lost { opens }
            }
        }
        Some(Indexed::Index(_)) => Sought::Lost { opens },
        None => Sought::Lost { opens },
    }
}

/// The search after an index.
fn index_followed(item: u16, place: u64, opens: u32, index: &IndexView<'_>) -> Search
    requires place { place < 2 ^ 33 }
    requires opens { opens ≤ 2 }
    ensures told { (r : List ℕ) (records : List (List ℕ)) → told_after item result records ≡ index_told item opens place (r ∷ records) (Some (variant.Index index.now)) }
    ensures reach { IsInReach result }
{
    if item >= index.count() {
        return ended(Sought::Lost { opens });
    }
    ahead(SearchStage::Item { opens }, place, index.entry(item))
}

/// The search after the record to which the first record leads.
fn index_opened(item: u16, place: u64, bytes: &[u8]) -> Search
    requires { place < 2 ^ 33 }
    ensures told { (records : List (List ℕ)) → told_after item result records ≡ index_told item 2 place (bytes.now ∷ records) (indexed_at bytes.now) }
    ensures reach { IsInReach result }
{
    match indexed(bytes) {
        Some(Indexed::Index(index)) => index_followed(item, place, 2, &index),
        Some(Indexed::Payload { .. }) => ended(Sought::Lost { opens: 2 }),
        None => ended(Sought::Lost { opens: 2 }),
    }
}

/// The search after a data record that is opened first.
fn data_followed(item: u16, place: u64, wait: u32, bucket: &BucketView<'_>) -> Search
    requires some { 1 ≤ wait }
    requires place { place < 2 ^ 32 }
    ensures told { (r : List ℕ) (records : List (List ℕ)) → told_after item result records ≡ first_told item place (r ∷ records) (Some (variant.Payload wait bucket.now)) }
    ensures reach { IsInReach result }
{
    if has_item(bucket, item) {
        ended(found(bucket, place, 1))
    } else {
        ahead(SearchStage::Index, place, wait)
    }
}

/// The search after the record that is opened first.
fn first_opened(item: u16, place: u64, bytes: &[u8]) -> Search
    requires { place < 2 ^ 32 }
    ensures told { (records : List (List ℕ)) → told_after item result records ≡ first_told item place (bytes.now ∷ records) (indexed_at bytes.now) }
    ensures reach { IsInReach result }
{
    match indexed(bytes) {
        None => ended(Sought::Lost { opens: 1 }),
        Some(Indexed::Index(index)) => index_followed(item, place, 1, &index),
        Some(Indexed::Payload { wait, bucket }) => data_followed(item, place, wait, &bucket),
    }
}

/// The search after the record that it waited for.
fn opened(item: u16, search: Search, bytes: &[u8]) -> Search
    requires { IsInReach search }
    ensures told { (records : List (List ℕ)) → told_after item result records ≡ told_from item search.place search.stage (bytes.now ∷ records) }
    ensures reach { IsInReach result }
{
    match search.stage {
        SearchStage::First => first_opened(item, search.place, bytes),
        SearchStage::Index => index_opened(item, search.place, bytes),
        SearchStage::Item { opens } => ended(item_opened(item, search.place, opens + 1, bytes)),
        SearchStage::Nothing { .. } => search,
    }
}

/// The search after one record more.
pub(crate) fn after(item: u16, search: Search, bytes: &[u8]) -> Search
    requires { IsInReach search }
    ensures told { (records : List (List ℕ)) → told_after item result records ≡ told_after item search (bytes.now ∷ records) }
    ensures reach { IsInReach result }
{
    if search.skip == 0 {
        return opened(item, search, bytes);
    }
    Search {
        skip: search.skip - 1,
        place: search.place,
        stage: search.stage,
    }
}
